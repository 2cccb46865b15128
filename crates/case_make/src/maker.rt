//! A generator, and why it stops.

use kit_base::NoMemory;

/// The state of a generator, and the weight that is left.
#[derive(Drop)]
pub(crate) struct Maker {
    /// The state.
    pub(crate) state: u64,
    /// What the values that are still to be drawn may weigh.
    pub(crate) left: u32,
}

/// Why a value is not drawn.
#[derive(Clone, Copy)]
pub(crate) enum Stop {
    /// It weighs more than is left.
    Heavy,
    /// The allocator had no memory.
    NoMemory,
}

impl From<NoMemory> for Stop {
    ghost use Rattle.std.specs.Prelude.{◌≡◌};
    ghost use Rattle.case_make.specs.declared.maker.Stop.{Stop};

    ghost from_gives = { λ _ e. e ≡ Stop.NoMemory };

    fn from(_: NoMemory) -> Self {
        Stop::NoMemory
    }
}
