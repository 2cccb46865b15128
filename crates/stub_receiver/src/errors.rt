//! Why a run ends before its code does.

ghost use Rattle.stub_receiver.specs.Ran.{IsFound, IsTested};

use kit_base::NoMemory;

/// A run was broken off.
#[derive(Clone, Copy, Debug, PartialEq, Eq)]
pub enum Halt {
    /// A test failed.
    Refused,
    /// Out of memory.
    NoMemory,
}

impl From<NoMemory> for Halt {
    ghost use Rattle.std.specs.Prelude.{◌≡◌};
    ghost use Rattle.stub_receiver.specs.declared.errors.Halt.TheVariants as halt;

    ghost from_gives = { λ _ e. e ≡ halt.NoMemory };

    fn from(_refused: NoMemory) -> Halt {
        Halt::NoMemory
    }
}

/// A test that passed, or failed.
pub fn tested(passed: bool) -> Result<(), Halt>
    ensures { IsTested passed result }
{
    match passed {
        true => Ok(()),
        false => Err(Halt::Refused),
    }
}

/// A number that passed its test, or none.
pub fn found(number: Option<i128>) -> Result<i128, Halt>
    ensures { IsFound number result }
{
    match number {
        Some(n) => Ok(n),
        None => Err(Halt::Refused),
    }
}
