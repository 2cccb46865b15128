//! How values travel, and the message formats around them.

/// How the values of a body are laid out.
#[derive(Clone, Copy, Debug, PartialEq, Eq)]
pub enum Encoding {
    /// External data representation (RFC 4506).
    Xdr,
    /// CORBA's common data representation, the most significant octet first.
    CdrBig,
    /// The same, the least significant octet first.
    CdrLittle,
    /// Typed Mach messages: each scalar and each row after a descriptor.
    Mach,
}

/// Which messages a back end makes: heads, and the encoding of their bodies.
#[derive(Clone, Copy, Debug, PartialEq, Eq)]
pub enum Back {
    /// ONC remote procedure calls (RFC 5531) over XDR.
    Xdr,
    /// GIOP 1.0, the most significant octet first.
    CdrBig,
    /// GIOP 1.0, the least significant octet first.
    CdrLittle,
    /// Mach messages.
    Mach,
}
