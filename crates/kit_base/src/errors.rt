//! The two errors without fields.

use std::alloc::{AllocError, AllocFailed};

/// Out of memory. A failure with another cause is never reported as this.
#[derive(Clone, Copy, Debug, PartialEq, Eq)]
pub struct NoMemory;

/// A source or a sink failed, and its count of faults rose. A shelf reports `ShelfErr::Failed`.
#[derive(Clone, Copy, Debug, PartialEq, Eq)]
pub struct Failed;

impl From<AllocError> for NoMemory {
    fn from(_: AllocError) -> Self {
        NoMemory
    }
}

impl<T: Drop> From<AllocFailed<T>> for NoMemory {
    fn from(_: AllocFailed<T>) -> Self {
        NoMemory
    }
}
