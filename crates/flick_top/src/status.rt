//! How a call ends.

ghost use Rattle.std.specs.Prelude.{◌≡◌};

/// How a call ends, by its number as the status of the process.
#[derive(Clone, Copy, Debug, PartialEq, Eq)]
pub enum Status {
    /// The work was done, and no answer is a refusal.
    Done = 0,
    /// The work was done, and an answer is a refusal.
    Refused = 1,
    /// The words name no command.
    Usage = 2,
    /// A file is not there or was refused.
    File = 3,
    /// The source failed.
    Source = 4,
    /// The sink failed.
    Sink = 5,
    /// The shelf failed.
    Shelf = 6,
    /// Memory ran out.
    Memory = 7,
    /// The source gave more than 1,073,741,824 octets.
    Length = 8,
}

impl Status {
    ghost use Rattle.flick_top.specs.Status.{number_of};

    /// The number of the status.
    pub fn number(self) -> u8
        ensures { result ≡ number_of self }
    {
        self as u8
    }
}
