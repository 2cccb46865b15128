//! What is reported of a call.

ghost use Rattle.std.specs.Prelude.{◌≡◌};
ghost use Rattle.head_kit.specs.Calls.{operation_at};

use wire_def::{Encoding, Head};

/// What a call names.
#[derive(Clone, Copy, Debug, PartialEq, Eq)]
pub enum CallTarget {
    /// An operation by its number among those of the binding, from 0.
    Operation(u32),
    /// There is no such interface.
    NoInterface,
    /// The interface has no such operation.
    NoOperation,
}

/// What is named by an operation's place, where there is one.
pub fn operation_at(place: Option<u32>) -> CallTarget
    ensures { result ≡ operation_at place }
{
    match place {
        Some(op) => CallTarget::Operation(op),
        None => CallTarget::NoOperation,
    }
}

/// What the head of a message says of its call. The body follows the head.
#[derive(Clone, Copy, Debug, PartialEq, Eq)]
pub struct CallHead {
    /// What the call names.
    pub naming: CallTarget,
    /// The fields that back ends share.
    pub head: Head,
    /// How the body is laid out.
    pub encoding: Encoding,
    /// How many octets the head takes, from the beginning of the message.
    pub used: usize,
    /// The minor number of the message's version, where its format has one, or else 0.
    pub minor: u8,
}
