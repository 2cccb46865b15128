//! Why a production is not read.

ghost use Rattle.std.specs.Prelude.{◌≡◌};
ghost use Rattle.idl_read.specs.declared.halt.Halt.TheVariants.{NoMemory as OutOfMemory};

use idl_lex::Token;
use kit_base::NoMemory;
use std::alloc::{AllocFailed, Global};

/// Why a production is not read.
#[derive(Clone, Copy, Debug, PartialEq, Eq, Drop)]
pub enum Halt {
    /// No tree of it begins here.
    Syntax,
    /// No memory was there.
    NoMemory,
}

/// A tree that begins tokens, and the tokens after it; or why there is none.
pub type Parsed<'a, T> = Result<(T, &'a [Token]), Halt>;

impl From<NoMemory> for Halt {
    ghost from_gives = { λ _ e. e ≡ OutOfMemory };

    fn from(_: NoMemory) -> Halt {
        Halt::NoMemory
    }
}

impl<T: Drop> From<AllocFailed<T>> for Halt {
    ghost from_gives = { λ _ e. e ≡ OutOfMemory };

    fn from(_: AllocFailed<T>) -> Halt {
        Halt::NoMemory
    }
}
