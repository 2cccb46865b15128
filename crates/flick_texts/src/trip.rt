//! What became of requests that were made.

ghost use Rattle.std.specs.Prelude.{◌≡◌, ◌≢◌, IfOk, OnErr, OnOk};
ghost use Rattle.flick_texts.specs.MadeText.{is_within};

use flick_engine::{MessageErr, Request};
use kit_base::NoMemory;

/// What became of a request that was made.
#[derive(Drop)]
pub(crate) enum Trip {
    /// Its message is above the limit.
    Long,
    /// Its message was read, and is this request.
    Read(Request),
    /// Its message was refused.
    Refused(MessageErr),
}

impl Trip {
    /// Whether the message is within the limit.
    pub(crate) fn is_within(&self) -> bool
        ensures { result ≡ is_within self.now }
    {
        match self {
            Trip::Long => false,
            Trip::Read(_) | Trip::Refused(_) => true,
        }
    }
}

/// A message that was refused, unless memory ran out.
pub(crate) fn refused(fault: MessageErr) -> Result<Trip, NoMemory>
    ensures fault { IfOk result (λ t. t ≡ Trip.Refused fault) }
    ensures memory { OnOk result (fault ≢ MessageErr.NoMemory) }
    ensures only { OnErr result (fault ≡ MessageErr.NoMemory) }
{
    match fault {
        MessageErr::NoMemory => Err(NoMemory),
        MessageErr::Long
        | MessageErr::Head(_)
        | MessageErr::NoInterface
        | MessageErr::NoOperation
        | MessageErr::Body(_)
        | MessageErr::Trailing(_) => Ok(Trip::Refused(fault)),
    }
}
