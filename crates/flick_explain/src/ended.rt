//! Why the work ended early.

use kit_base::NoMemory;

/// Why nothing more is said.
#[derive(Clone, Copy)]
pub enum Ended {
    /// The words name no run.
    Usage = 2,
    /// The file was refused, or has no such operation.
    Refused = 3,
    /// Standard input failed.
    Source = 4,
    /// Standard output failed.
    Sink = 5,
    /// A file could not be read.
    Shelf = 6,
    /// Memory ran out.
    NoMemory = 7,
    /// Standard input is too long.
    Length = 8,
}

impl From<NoMemory> for Ended {
    fn from(_: NoMemory) -> Ended {
        Ended::NoMemory
    }
}
