//! Why a unit is not bound.

ghost use Rattle.std.specs.Prelude.{◌≡◌};
ghost use Rattle.pres.specs.declared.errors.BindErr.TheVariants.{NoMemory as OutOfMemory};

use kit_base::NoMemory;
use thiserror::Error;

/// A refusal of [`crate::bind`].
#[derive(Clone, Copy, Debug, PartialEq, Eq, Error)]
pub enum BindErr {
    /// More than 65,536 nodes.
    #[error("Many")]
    Many,
    /// A type of more than 32 levels.
    #[error("Deep")]
    Deep,
    /// A type whose blank value has a weight above 1,048,576.
    #[error("Heavy")]
    Heavy,
    /// A name of more than 16,777,216 octets, or messages that unfold to too many nodes.
    #[error("Wide")]
    Wide,
    /// No memory was there.
    #[error("NoMemory")]
    NoMemory,
}

impl From<NoMemory> for BindErr {
    ghost from_gives = { λ _ e. e ≡ OutOfMemory };

    fn from(_: NoMemory) -> BindErr {
        BindErr::NoMemory
    }
}
