//! What a table keeps of each node.

/// How deep a node's type is, and what its blank value weighs.
#[derive(Clone, Copy, Debug, PartialEq, Eq)]
pub struct Size {
    /// How many levels the type has: 1 for a type without parts, and one more than its deepest part
    /// for a struct, a union, an array of values or an optional value.
    pub depth: u32,
    /// What the blank value weighs: 1 for each value in it that is neither a struct nor `Void`, and
    /// 1 more for each number of a row.
    pub weight: u32,
}
