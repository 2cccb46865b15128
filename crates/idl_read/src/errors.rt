//! Why tokens have no tree.

ghost use Rattle.std.specs.Prelude.{◌≡◌};
ghost use Rattle.idl_read.specs.declared.errors.SyntaxErr.TheVariants.{NoMemory as OutOfMemory};

use kit_base::NoMemory;
use thiserror::Error;

/// Why tokens have no tree.
#[derive(Clone, Copy, Debug, PartialEq, Eq, Error)]
pub enum SyntaxErr {
    /// No tree has these tokens; the line of the first token after the longest prefix that has one.
    #[error("Syntax")]
    Syntax(u32),
    /// No memory was there.
    #[error("NoMemory")]
    NoMemory,
}

impl From<NoMemory> for SyntaxErr {
    ghost from_gives = { λ _ e. e ≡ OutOfMemory };

    fn from(_: NoMemory) -> SyntaxErr {
        SyntaxErr::NoMemory
    }
}
