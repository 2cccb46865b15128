//! Why a row has no answer.

use kit_base::NoMemory;
use std::alloc::AllocError;

/// Why a row has no answer.
#[derive(Clone, Copy, Debug)]
pub enum Bad {
    /// The row has none of the forms.
    Row(&'static str),
    /// No memory was there.
    NoMemory,
}

impl From<NoMemory> for Bad {
    fn from(_: NoMemory) -> Bad {
        Bad::NoMemory
    }
}

impl From<AllocError> for Bad {
    fn from(_: AllocError) -> Bad {
        Bad::NoMemory
    }
}
