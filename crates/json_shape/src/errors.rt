//! Why JSON gives no value.

use hex::FromHexError;
use kit_base::NoMemory;
use std::alloc::{AllocError, AllocFailed};

/// Why no value was read.
#[derive(Clone, Copy, Debug, PartialEq, Eq)]
pub enum ShapeErr {
    /// The JSON presents no value of the type.
    Shape,
    /// Memory ran out.
    NoMemory,
}

impl From<NoMemory> for ShapeErr {
    ghost use Rattle.std.specs.Prelude.{◌≡◌};
    ghost use Rattle.json_shape.specs.declared.errors.ShapeErr.TheVariants as errors;

    ghost from_gives = { λ _ e. e ≡ errors.NoMemory };

    fn from(_refused: NoMemory) -> ShapeErr {
        ShapeErr::NoMemory
    }
}

/// Why no record was read; of two causes the first one.
#[derive(Clone, Copy, Debug, PartialEq, Eq)]
pub enum RecordErr {
    /// The JSON is not a record.
    Request,
    /// No operation has the name.
    Op,
    /// A reply is awaited of an operation that has none.
    Head,
    /// The JSON presents no value of the operation.
    Shape,
    /// Memory ran out.
    NoMemory,
}

impl From<NoMemory> for RecordErr {
    ghost use Rattle.std.specs.Prelude.{◌≡◌};
    ghost use Rattle.json_shape.specs.declared.errors.RecordErr.TheVariants as errors;

    ghost from_gives = { λ _ e. e ≡ errors.NoMemory };

    fn from(_refused: NoMemory) -> RecordErr {
        RecordErr::NoMemory
    }
}

/// Why a text was not written straight from its value, or read straight as one.
#[derive(Clone, Copy, Debug, PartialEq, Eq)]
pub(crate) enum Halt {
    /// It is to be done by its tree.
    Fallback,
    /// Memory ran out.
    NoMemory,
}

/// A text that is not in the usual form.
#[derive(Clone, Copy, Debug, PartialEq, Eq)]
pub(crate) struct Unusual;

impl From<Unusual> for Halt {
    ghost use Rattle.std.specs.Prelude.{◌≡◌};
    ghost use Rattle.json_shape.specs.declared.errors.Halt.TheVariants as halts;

    ghost from_gives = { λ _ h. h ≡ halts.Fallback };

    fn from(_unusual: Unusual) -> Halt {
        Halt::Fallback
    }
}

impl From<NoMemory> for Halt {
    ghost use Rattle.std.specs.Prelude.{◌≡◌};
    ghost use Rattle.json_shape.specs.declared.errors.Halt.TheVariants as halts;

    ghost from_gives = { λ _ h. h ≡ halts.NoMemory };

    fn from(_refused: NoMemory) -> Halt {
        Halt::NoMemory
    }
}

impl From<AllocError> for Halt {
    ghost use Rattle.std.specs.Prelude.{◌≡◌};
    ghost use Rattle.json_shape.specs.declared.errors.Halt.TheVariants as halts;

    ghost from_gives = { λ _ h. h ≡ halts.NoMemory };

    fn from(_refused: AllocError) -> Halt {
        Halt::NoMemory
    }
}

impl<T: Drop> From<AllocFailed<T>> for Halt {
    ghost use Rattle.std.specs.Prelude.{◌≡◌};
    ghost use Rattle.json_shape.specs.declared.errors.Halt.TheVariants as halts;

    ghost from_gives = { λ _ h. h ≡ halts.NoMemory };

    fn from(_refused: AllocFailed<T>) -> Halt {
        Halt::NoMemory
    }
}

impl From<ShapeErr> for Halt {
    ghost use Rattle.std.specs.Prelude.{◌≡◌};
    ghost use Rattle.json_shape.specs.Halts.{label_halt};

    ghost from_gives = { λ e h. h ≡ label_halt e };

    fn from(error: ShapeErr) -> Halt {
        match error {
            ShapeErr::Shape => Halt::Fallback,
            ShapeErr::NoMemory => Halt::NoMemory,
        }
    }
}

impl From<FromHexError> for Halt {
    ghost use Rattle.std.specs.Prelude.{◌≡◌};
    ghost use Rattle.json_shape.specs.Halts.{digits_halt};

    ghost from_gives = { λ e h. h ≡ digits_halt e };

    fn from(error: FromHexError) -> Halt {
        match error {
            FromHexError::InvalidHexCharacter { c: _, index: _ } => Halt::Fallback,
            FromHexError::OddLength => Halt::Fallback,
            FromHexError::InvalidStringLength => Halt::Fallback,
            FromHexError::OutOfMemory => Halt::NoMemory,
        }
    }
}

impl From<json::Error> for Halt {
    ghost use Rattle.std.specs.Prelude.{◌≡◌};
    ghost use Rattle.json_shape.specs.Halts.{text_halt};

    ghost from_gives = { λ e h. h ≡ text_halt e };

    fn from(error: json::Error) -> Halt {
        match error {
            json::Error::Invalid => Halt::Fallback,
            json::Error::TooLong => Halt::Fallback,
            json::Error::DuplicateKey => Halt::Fallback,
            json::Error::OutOfMemory => Halt::NoMemory,
        }
    }
}
