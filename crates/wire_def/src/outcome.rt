//! The outcome of a call.

use kit_base::Octets;
use mint::value::Value;

/// An answer, or a refusal of the other side.
#[derive(Drop)]
pub enum Outcome {
    /// The results of the operation, or a user exception that it may raise.
    Answer(Value),
    /// The other side refused the call, or failed.
    Refused(Refusal),
}

/// Why the other side gave no answer.
#[derive(Drop)]
pub enum Refusal {
    /// The program is not served.
    ProgUnavail,
    /// The version is not served; the least and the greatest that are.
    ProgMismatch(u32, u32),
    /// The version has no such procedure.
    ProcUnavail,
    /// The arguments could not be read.
    GarbageArgs,
    /// The other side failed.
    SystemErr,
    /// Another version of the call protocol; the least and the greatest that are spoken.
    RpcMismatch(u32, u32),
    /// The credentials were refused, with a status.
    AuthError(u32),
    /// A system exception: its repository id, minor number and completion.
    SystemException(Octets, u32, u32),
    /// A user exception that the operation does not raise, by its repository id.
    UserException(Octets),
    /// A return code other than 0.
    RetCode(i32),
}
