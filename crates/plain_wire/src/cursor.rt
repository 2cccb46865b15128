//! Where reading is, and why it ends.

ghost use Rattle.std.specs.Prelude.{◌≡◌, ◌≤◌, ◌+◌, length};
ghost use Rattle.kit_base.specs.Limits.{longest_message};

use kit_base::NoMemory;
use wire_def::{Fault, FaultKind};

/// A place in a message, and the octets from there on.
#[derive(Clone, Copy)]
pub(crate) struct Cursor<'a> {
    pub(crate) place: usize,
    pub(crate) rest: &'a [u8],
    ghost within: { place + length rest.now ≤ longest_message },
}

/// What is read, and where what follows begins; or why nothing is read.
pub(crate) type Taken<'a, T, E = Fault> = Result<(T, Cursor<'a>), E>;

/// Why nothing was read.
#[derive(Drop)]
pub(crate) enum ReadError {
    NoMemory,
    Stop(Fault),
}

impl From<NoMemory> for ReadError {
    ghost use Rattle.std.specs.Prelude.{◌≡◌};
    ghost use Rattle.plain_wire.specs.declared.cursor.ReadError.TheVariants as errors;

    ghost from_gives = { λ _ e. e ≡ errors.NoMemory };

    fn from(_refused: NoMemory) -> ReadError {
        ReadError::NoMemory
    }
}

impl From<Fault> for ReadError {
    ghost use Rattle.std.specs.Prelude.{◌≡◌};
    ghost use Rattle.plain_wire.specs.declared.cursor.ReadError.TheVariants as errors;

    ghost from_gives = { λ fault e. e ≡ errors.Stop fault };

    fn from(fault: Fault) -> ReadError {
        ReadError::Stop(fault)
    }
}

/// A fault at a place.
pub(crate) fn stop(kind: FaultKind, at: usize) -> Fault
    ensures { result ≡ record { kind = kind; at = at } }
{
    Fault { kind, at }
}
