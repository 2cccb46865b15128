//! How calls fare by the heads of their replies.

ghost use Rattle.std.specs.Prelude.{◌≡◌, IfOk, None, OnErr, true};
ghost use Rattle.std.specs.List.{position_from};
ghost use Rattle.std.specs.Str.{bytes_eq};
ghost use Rattle.flick_engine.specs.Backs.{ids_over};
ghost use Rattle.flick_engine.specs.Fates.{copies_id, raised_at, fate_of};

use crate::engine::Engine;
use crate::replies::Fate;
use kit_base::{NoMemory, Octets};
use std::alloc::Global;
use wire_def::{Back, Refusal, Status};

/// How a call fared whose reply has a user exception of a number, or one that is not raised with this id.
fn raised_at(alloc: Global, number: Option<u32>, id: &[u8]) -> Result<Fate, NoMemory>
    ensures value { IfOk result (λ f. f ≡ raised_at id.now number) }
    ensures memory { OnErr result (number ≡ None) }
{
    match number {
        Some(number) => Ok(Fate::Arm(number)),
        None => {
            let id = Octets::from_slice(alloc, id)?;
            Ok(Fate::Refused(Refusal::UserException(id)))
        }
    }
}

impl Engine {
    /// The number of the first exception with a repository id, from 1, of those that replies to an operation
    /// tell apart.
    fn raise_with(&self, op: u32, id: &[u8]) -> Option<u32>
        ensures { result ≡ position_from (bytes_eq id.now) 1
            (ids_over self.now.binding.back self.now.binding op) }
    {
        match self.bound().back() {
            Back::CdrBig | Back::CdrLittle => self.names().raise(op, id),
            Back::Xdr | Back::Mach => None,
        }
    }

    /// How a call of an operation fared, by the status of its reply. It copies the id of an exception
    /// that the operation does not raise.
    pub(crate) fn fate(&self, alloc: Global, op: u32, status: Status<'_>) -> Result<Fate, NoMemory>
        ensures value { IfOk result (λ f.
            f ≡ fate_of (ids_over self.now.binding.back self.now.binding op) status.entry) }
        ensures memory { OnErr result
            (copies_id (ids_over self.now.binding.back self.now.binding op) status.entry ≡ true) }
    {
        let refusal = match status {
            Status::Answer => return Ok(Fate::Arm(0)),
            Status::User(id) => return raised_at(alloc, self.raise_with(op, id), id),
            Status::Raised(number) => return Ok(Fate::Arm(number)),
            Status::ProgUnavail => Refusal::ProgUnavail,
            Status::ProgMismatch(low, high) => Refusal::ProgMismatch(low, high),
            Status::ProcUnavail => Refusal::ProcUnavail,
            Status::GarbageArgs => Refusal::GarbageArgs,
            Status::SystemErr => Refusal::SystemErr,
            Status::RpcMismatch(low, high) => Refusal::RpcMismatch(low, high),
            Status::AuthError(why) => Refusal::AuthError(why),
            Status::System(id, minor, completion) => {
                Refusal::SystemException(Octets::from_slice(alloc, id)?, minor, completion)
            }
            Status::RetCode(code) => Refusal::RetCode(code),
        };
        Ok(Fate::Refused(refusal))
    }
}
