//! Operations and exceptions that stand in one more place.

ghost use Rattle.std.specs.Prelude.{◌≡◌, IfOk};
ghost use Rattle.aoi.specs.Plain.{plain_raise, plain_operation};

use aoi::{Operation, Raise};
use kit_base::{Name, NoMemory};
use std::alloc::Global;

/// A copy of a name.
pub(crate) fn copy_name(alloc: Global, name: &[u8]) -> Result<Name, NoMemory>
    ensures { IfOk result (λ n. n ≡ name.now) }
{
    Name::from_slice(alloc, name)
}

/// The same exception, whose parts are kept once.
pub(crate) fn share_raise(raise: &Raise) -> Result<Raise, NoMemory>
    ensures { IfOk result (λ e. plain_raise e ≡ plain_raise raise.now) }
{
    Ok(Raise {
        name: raise.name.share()?,
        id: raise.id.share()?,
        members: raise.members.share()?,
    })
}

/// The same operation, whose parts are kept once.
pub(crate) fn share_operation(o: &Operation) -> Result<Operation, NoMemory>
    ensures { IfOk result (λ p. plain_operation p ≡ plain_operation o.now) }
{
    Ok(Operation {
        name: o.name.share()?,
        proc_no: o.proc_no,
        slot: o.slot,
        ins: o.ins.share()?,
        outs: o.outs.share()?,
        result: o.result.share()?,
        raises: o.raises.share()?,
        oneway: o.oneway,
    })
}
