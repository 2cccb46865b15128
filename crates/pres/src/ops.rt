//! The operations that a back end has messages for.

use kit_base::{Listed, Name};
use kit_shared::Shared;
use mint::table::NodeId;

/// An operation, with the nodes of its messages.
#[derive(Debug, Drop)]
pub struct Op {
    /// The number of its interface in the unit, from 0.
    pub interface: u32,
    /// Its own name, without that of its interface.
    pub name: Shared<Name>,
    /// The group of what goes in.
    pub request: NodeId,
    /// The choice of what comes back: arm 0 is the answer, arm k the k-th exception.
    pub reply: NodeId,
    /// Whether a reply is awaited.
    pub has_reply: bool,
}

/// Operations, interface by interface, in the unit's order.
pub type Ops = Listed<Op>;
