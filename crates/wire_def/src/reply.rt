//! The head of a reply that was read.

use crate::head::Head;

/// The head of a reply, what it says, and how many octets it takes.
#[derive(Clone, Copy, Debug)]
pub struct ReplyHead<'a> {
    /// What the head says whatever the outcome.
    pub head: Head,
    /// The outcome of the call.
    pub status: Status<'a>,
    /// How many octets the head takes.
    pub used: usize,
}

/// What the head of a reply says. It borrows from the message.
#[derive(Clone, Copy, Debug)]
pub enum Status<'a> {
    /// An answer follows.
    Answer,
    /// The program is not served.
    ProgUnavail,
    /// The version is not served; the least and the greatest that are.
    ProgMismatch(u32, u32),
    /// The version has no such procedure.
    ProcUnavail,
    /// The arguments could not be read.
    GarbageArgs,
    /// The other side failed.
    SystemErr,
    /// Another version of the call protocol; the least and the greatest that are spoken.
    RpcMismatch(u32, u32),
    /// The credentials were refused, with a status.
    AuthError(u32),
    /// A user exception with this repository id; its members follow.
    User(&'a [u8]),
    /// A system exception: its repository id, minor number and completion.
    System(&'a [u8], u32, u32),
    /// A return code other than 0.
    RetCode(i32),
    /// A user exception by its number among those of the operation, from 1; its members follow.
    Raised(u32),
}
