//! Why the names of a file are not resolved, for every front end.

ghost use Rattle.std.specs.Prelude.{◌≡◌};
ghost use Rattle.aoi.specs.declared.faults.NameFault.TheVariants.{NoMemory as OutOfMemory};

use kit_base::NoMemory;
use thiserror::Error;

/// What is wrong with a name, or with what is declared by it.
#[derive(Clone, Copy, Debug, PartialEq, Eq, Error)]
pub enum NameFault {
    /// No such name is in reach.
    #[error("Unknown")]
    Unknown,
    /// It is declared again in its scope, or its number is taken there.
    #[error("Twice")]
    Twice,
    /// It is declared again in its scope, but for the case of letters.
    #[error("CaseClash")]
    CaseClash,
    /// It stands for something other than a type.
    #[error("NotType")]
    NotType,
    /// It stands for something other than a constant.
    #[error("NotConst")]
    NotConst,
    /// A number is outside its range.
    #[error("Range")]
    Range,
    /// A label is not one of the tag's or is there twice, or there is a second default.
    #[error("Label")]
    Label,
    /// There are more than 64 interfaces, 256 operations of an interface, 4,095 exceptions of an
    /// operation, or 4,096 labels of an enum or a union.
    #[error("Limit")]
    Limit,
    /// The language allows it, but a unit cannot hold it.
    #[error("OutOfScope")]
    OutOfScope,
    /// An operation without reply gives something back or raises exceptions.
    #[error("Oneway")]
    Oneway,
    /// The first parameter is missing or is not a port, or a later one is a request port.
    #[error("Port")]
    Port,
    /// Out of memory.
    #[error("NoMemory")]
    NoMemory,
}

/// The first fault of a file, and the declaration that it is in, counted from 1.
#[derive(Clone, Copy, Debug, PartialEq, Eq)]
pub struct NameErr {
    /// What is wrong.
    pub fault: NameFault,
    /// The number of the declaration, from 1; 0 where the fault is `NoMemory`.
    pub decl: u32,
}

impl From<NoMemory> for NameErr {
    ghost from_gives = { λ _ e. e.fault ≡ OutOfMemory };

    fn from(_: NoMemory) -> NameErr {
        NameErr {
            fault: NameFault::NoMemory,
            decl: 0,
        }
    }
}
