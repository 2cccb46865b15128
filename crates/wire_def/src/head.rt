//! The orders of octets, and the head of a message.

/// Which octet of a number comes first: the most significant one, or the least.
#[derive(Clone, Copy, Debug, PartialEq, Eq)]
pub enum Order {
    /// The most significant octet comes first.
    Big,
    /// The least significant octet comes first.
    Little,
}

/// What the head of a message says besides the operation.
///
/// A field that an encoding does not have is 0, true or `Big`.
#[derive(Clone, Copy, Debug, PartialEq, Eq)]
pub struct Head {
    /// The transaction id of an ONC message, or the request id of a GIOP message.
    pub id: u32,
    /// The remote port of a Mach message.
    pub remote: u32,
    /// The local port of a Mach message.
    pub local: u32,
    /// Whether the sender waits for a reply.
    pub wants: bool,
    /// The order of the octets of the message.
    pub order: Order,
}
