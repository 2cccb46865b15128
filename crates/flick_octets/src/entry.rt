//! What is said of some octets.

/// What octets are.
#[derive(Clone, Copy, Debug, PartialEq, Eq)]
pub enum What {
    /// A field of the head.
    Head,
    /// What gives the length of octets or of a list.
    Length,
    /// A value that the record has.
    Value,
    /// Whether an optional value is there.
    Optional,
    /// The descriptor of an item.
    Descriptor,
    /// Octets that align what follows, or fill up what was before.
    Padding,
    /// The octet 0 at the end of a text.
    End,
    /// Octets that nothing is said of.
    Rest,
}

/// What is said of the octets from one place up to another.
#[derive(Drop)]
pub struct Entry {
    /// The place of the first octet.
    pub first: usize,
    /// The place after the last octet.
    pub end: usize,
    /// What they are.
    pub what: What,
    /// The name of a field of the head, or the path of a value as in the record.
    pub path: String,
    /// The type, as `show` writes it; empty where it has none.
    pub of_type: String,
    /// The value as JSON, or a number's meaning; empty where it has none, or is cut off.
    pub value: String,
}

/// What is said of the next octets.
#[derive(Drop)]
pub(crate) struct Said {
    pub(crate) what: What,
    pub(crate) path: String,
    pub(crate) of_type: String,
    pub(crate) value: String,
}
