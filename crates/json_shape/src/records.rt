//! Records of requests and replies.

use mint::value::Value;
use wire_def::Head;

/// An operation by its number, a head, and a value of the operation's request or reply.
#[derive(Drop)]
pub struct RequestRec {
    /// The number of the operation among those of the binding, from 0.
    pub op: u32,
    /// The head of the message.
    pub head: Head,
    /// The value of the operation's request or reply.
    pub value: Value,
}
