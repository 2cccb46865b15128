//! What is done with the lines of an input.

/// What is done with a line.
#[derive(Clone, Copy, Debug, PartialEq, Eq)]
pub enum Verb {
    /// `marshal`
    Marshal,
    /// `unmarshal`
    Unmarshal,
    /// `reply`
    Reply,
    /// `unreply`
    Unreply,
    /// `count`
    Count,
}
