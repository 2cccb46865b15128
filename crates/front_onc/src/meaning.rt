//! What names stand for, and what a declaration makes of a type.

use idl_names::{Table, Use};
use mint::kind::Count;

/// What a name stands for.
#[derive(Clone, Copy, Debug, PartialEq, Eq)]
pub enum Meaning {
    /// A number.
    Constant(i128),
    /// A type.
    Type(Use),
    /// A program.
    Program,
    /// A type of the language that no unit has.
    LeftOut,
}

/// The names that are declared, each with what it stands for.
pub(crate) type Scope = Table<Meaning>;

/// What a declaration makes of the type that it uses.
#[derive(Clone, Copy, Debug, PartialEq, Eq)]
pub enum Form {
    /// The type itself.
    Plain(Use),
    /// Elements of the type, in a row.
    Array(Use, Count),
    /// A value of the type, or none.
    Optional(Use),
    /// Octets, in a row.
    Opaque(Count),
    /// A string.
    Text(Count),
}
