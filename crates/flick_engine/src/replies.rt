//! Replies, as messages bring them.

use wire_def::{Head, Outcome, Refusal};

/// A reply to an operation.
#[derive(Drop)]
pub struct Reply {
    /// The fields of the head that back ends share.
    pub head: Head,
    /// What the call came to: a value of the operation's reply, or a refusal.
    pub outcome: Outcome,
}

/// How a call fared, by the head of its reply.
#[derive(Drop)]
pub(crate) enum Fate {
    /// A value of this arm follows: arm 0 is the answer, arm k the k-th exception.
    Arm(u32),
    /// The other side refused.
    Refused(Refusal),
}
