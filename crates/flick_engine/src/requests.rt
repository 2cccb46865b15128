//! Requests, as messages bring them.

use mint::value::Value;
use wire_def::Head;

/// A request for an operation.
#[derive(Drop)]
pub struct Request {
    /// The number of the operation among those of the binding, from 0.
    pub op: u32,
    /// The fields of the head that back ends share.
    pub head: Head,
    /// The parameters, as a value of the operation's request.
    pub value: Value,
}
