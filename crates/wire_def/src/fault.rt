//! What is wrong with octets, and where.

/// Why octets are not a head.
#[derive(Clone, Copy, Debug, PartialEq, Eq)]
pub enum HeadErr {
    /// A field is cut off.
    Short,
    /// The first octets are not those of the format.
    Magic,
    /// Another version of the format.
    Version,
    /// A message of another type.
    Type_,
    /// The size in the header is not that of the message, or octets follow where it should end.
    Size,
    /// The octet that says the order of octets is neither 0 nor 1.
    Order,
    /// A pad octet is not 0.
    Pad,
    /// A string without its end, or with an octet 0 inside.
    Text,
    /// A credential or verifier of more than 400 octets.
    Cred,
    /// A Mach message with the complex bit.
    Complex,
    /// A field has a number that it cannot have.
    Item,
    /// The target of a GIOP request is not given by an object key.
    Target,
}

/// What is wrong with the octets of a body.
#[derive(Clone, Copy, Debug, PartialEq, Eq)]
pub enum FaultKind {
    /// A scalar, element, descriptor or octet is not there in full.
    Short,
    /// A count above its bound.
    OverBound,
    /// A number out of range, not a boolean or not a label, or a discriminant without an arm.
    BadValue,
    /// A pad octet that is not 0.
    BadPad,
    /// An octet 0 inside a text; over CDR also a text without the one at its end, or of length 0.
    BadText,
    /// A descriptor other than that of the item.
    BadItem,
}

/// The first fault of a body, and its place, counted from the first octet of the message.
#[derive(Clone, Copy, Debug, PartialEq, Eq)]
pub struct Fault {
    /// What is wrong.
    pub kind: FaultKind,
    /// Where, in octets from the beginning of the message.
    pub at: usize,
}
