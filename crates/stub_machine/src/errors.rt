//! Why a run ends before its code does.

use kit_base::NoMemory;

/// Why a run was refused.
#[derive(Clone, Copy, Debug, PartialEq, Eq)]
pub enum SendErr {
    /// The buffer would hold more than 4,194,304 octets.
    Long,
    /// Out of memory.
    NoMemory,
}

/// Why a run was broken off.
#[derive(Clone, Copy, Debug, PartialEq, Eq)]
pub enum Stopped {
    /// The buffer has more octets than it may at the end.
    Long,
    /// Out of memory.
    NoMemory,
}

impl From<NoMemory> for Stopped {
    ghost use Rattle.std.specs.Prelude.{◌≡◌};
    ghost use Rattle.stub_machine.specs.declared.errors.Stopped.TheVariants as stopped;

    ghost from_gives = { λ _ e. e ≡ stopped.NoMemory };

    fn from(_refused: NoMemory) -> Stopped {
        Stopped::NoMemory
    }
}
