//! Where and why a message is read no further.

use wire_def::{FaultKind, HeadErr};

/// Why a message is read no further.
#[derive(Clone, Copy, Debug, PartialEq, Eq)]
pub enum Why {
    /// It has more octets than any message.
    Long,
    /// A field of the head is cut off or wrong.
    Head(HeadErr),
    /// It names no interface of the file.
    Interface,
    /// It names no operation of the interface.
    Operation,
    /// A part of the body is cut off or wrong.
    Body(FaultKind),
    /// Octets follow where it should end.
    Trailing,
}

/// The first fault, and its place, counted from the first octet of the message.
#[derive(Clone, Copy, Debug, PartialEq, Eq)]
pub struct Stop {
    /// What is wrong.
    pub why: Why,
    /// Where; beyond the end where the octets that align a number are cut off.
    pub at: usize,
}

impl Stop {
    /// Something that is wrong at a place.
    pub(crate) fn new(why: Why, at: usize) -> Stop {
        Stop { why, at }
    }

    /// Octets of a message from a place on, where it should end.
    pub(crate) fn trailing(at: usize, message: &[u8]) -> Option<Stop> {
        if at < message.len() {
            Some(Stop::new(Why::Trailing, at))
        } else {
            None
        }
    }
}
