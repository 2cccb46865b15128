//! What names stand for.

ghost use Rattle.std.specs.Prelude.{◌≡◌};
ghost use Rattle.corba_scopes.specs.Consts.{meaning_of_constant};

use crate::keys::Key;
use idl_names::Use;
use mint::kind::Count;

/// What a name stands for.
#[derive(Clone, Copy, Debug, PartialEq, Eq)]
pub enum Meaning {
    /// A constant or an enumerator, by its number.
    Number(i128),
    /// A string constant.
    Text,
    /// A type; and where it is a string, by itself or by the names of others, how many characters it has.
    Type(Use, Option<Count>),
    /// An exception, by its number among those of the file.
    Exception(u32),
    /// An interface, by its number among those of the file.
    Interface(u32),
    /// A module.
    Module,
    /// A member of a struct, union or exception, a parameter, an operation or an attribute.
    Other,
}

/// What is found by a name.
#[derive(Clone, Copy)]
pub(crate) struct Found {
    /// The key of its full name.
    pub(crate) key: Key,
    /// What that stands for.
    pub(crate) meaning: Meaning,
}

/// The value of a constant.
#[derive(Clone, Copy, Debug, PartialEq, Eq)]
pub enum Constant {
    /// The number of an expression.
    Number(i128),
    /// A string of so many characters.
    Text(usize),
}

impl Constant {
    /// What the name of such a constant stands for.
    pub fn meaning(self) -> Meaning
        ensures { result ≡ meaning_of_constant self }
    {
        match self {
            Constant::Number(n) => Meaning::Number(n),
            Constant::Text(_) => Meaning::Text,
        }
    }
}
