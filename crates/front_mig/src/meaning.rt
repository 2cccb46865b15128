//! What names stand for, and what a `type` statement makes.

use idl_names::{Table, Use};
use mint::kind::Count;

/// What a name stands for.
#[derive(Clone, Copy, Debug, PartialEq, Eq)]
pub enum Meaning {
    /// The right to send to a port, which is in no message body.
    Port,
    /// A type that is in message bodies: a number of a kind, or a type of the unit. Its tag says of which
    /// kind it is; a row has none.
    Data(Use),
}

/// The names of types that are declared, each with what it stands for.
pub(crate) type Scope = Table<Meaning>;

/// What a `type` statement makes.
#[derive(Clone, Copy, Debug, PartialEq, Eq)]
pub enum Form {
    /// Another name of a port's type.
    Port,
    /// Another name of a type.
    Data(Use),
    /// So many numbers of a type in a row.
    Row(Use, Count),
}
