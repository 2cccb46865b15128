//! Why there is no message, or no request.

ghost use Rattle.std.specs.Prelude.{◌≡◌, OnErr, OnOk};
ghost use Rattle.flick_engine.specs.declared.errors.MarshalErr.TheVariants.{NoMemory as NoMessage};
ghost use Rattle.flick_engine.specs.declared.errors.MessageErr.TheVariants.{NoMemory as NoRequest};
ghost use Rattle.flick_engine.specs.Messages.{ended, refusal_of};

use kit_base::NoMemory;
use stub_machine::SendErr;
use wire_def::{Fault, HeadErr};

/// Why a request has no message.
#[derive(Clone, Copy, Debug, PartialEq, Eq)]
pub enum MarshalErr {
    /// The message would have more than 4,194,304 octets.
    Long,
    /// Memory ran out.
    NoMemory,
}

impl From<NoMemory> for MarshalErr {
    ghost from_gives = { λ _ e. e ≡ NoMessage };

    fn from(_: NoMemory) -> MarshalErr {
        MarshalErr::NoMemory
    }
}

/// Why there is no message, by what ended its code.
fn refusal_of(why: SendErr) -> MarshalErr
    ensures { result ≡ refusal_of why }
{
    match why {
        SendErr::Long => MarshalErr::Long,
        SendErr::NoMemory => MarshalErr::NoMemory,
    }
}

/// What came of a message, by how its code ended.
pub(crate) fn ended(ran: Result<(), SendErr>) -> Result<(), MarshalErr>
    ensures { result ≡ ended ran }
{
    match ran {
        Ok(()) => Ok(()),
        Err(why) => Err(refusal_of(why)),
    }
}

/// A message that was not made is too long, unless memory ran out.
pub fn long_alone(why: MarshalErr) -> Result<(), NoMemory>
    ensures long { OnOk result (why ≡ MarshalErr.Long) }
    ensures only { OnErr result (why ≡ MarshalErr.NoMemory) }
{
    match why {
        MarshalErr::Long => Ok(()),
        MarshalErr::NoMemory => Err(NoMemory),
    }
}

/// Why octets are not a message of an interface. Places are counted from the first octet.
#[derive(Clone, Copy, Debug, PartialEq, Eq)]
pub enum MessageErr {
    /// There are more than 4,194,304 octets.
    Long,
    /// The head is cut off or wrong.
    Head(HeadErr),
    /// No interface is the one that the call names: by program and version, by the object's key, or by an id.
    NoInterface,
    /// The interface has no operation of the call's procedure number, name or id.
    NoOperation,
    /// The body is cut off or wrong.
    Body(Fault),
    /// Octets follow the body from this place on.
    Trailing(usize),
    /// Memory ran out.
    NoMemory,
}

impl From<NoMemory> for MessageErr {
    ghost from_gives = { λ _ e. e ≡ NoRequest };

    fn from(_: NoMemory) -> MessageErr {
        MessageErr::NoMemory
    }
}
