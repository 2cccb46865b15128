//! Why no stub is read.

ghost use Rattle.std.specs.Prelude.{◌≡◌};
ghost use Rattle.stub_read.specs.declared.errors.StubErr.TheVariants.{NoMemory as OutOfMemory};

use kit_base::NoMemory;
use std::alloc::{AllocFailed, Global};

/// Why no stub is read.
#[derive(Clone, Copy, Debug, PartialEq, Eq, Drop)]
pub enum StubErr {
    /// No beginning of the text is the text of code that sends, with blocks nested at most 128 deep.
    Text,
    /// No memory was there.
    NoMemory,
}

impl From<NoMemory> for StubErr {
    ghost from_gives = { λ _ e. e ≡ OutOfMemory };

    fn from(_: NoMemory) -> StubErr {
        StubErr::NoMemory
    }
}

impl<T: Drop> From<AllocFailed<T>> for StubErr {
    ghost from_gives = { λ _ e. e ≡ OutOfMemory };

    fn from(_: AllocFailed<T>) -> StubErr {
        StubErr::NoMemory
    }
}
