//! What comes before the body of a message: nothing, or the head of a call or of an answer.

ghost use Rattle.std.specs.Prelude.{◌≡◌, IfOk};
ghost use Rattle.wire_def.specs.declared.encoding.Back.TheVariants.{Xdr};
ghost use Rattle.check_stubs.specs.Ready.{IsLead};

use aoi::{Fields, Interface, Operation, Operations, Raises, Ty, Unit, is_sound};
use back_xdr::{lead_call, lead_reply};
use cast_stub::{SendCode, SendOps, SendSubs};
use kit_base::{Name, NoMemory};
use kit_shared::Shared;
use pres::{Bound, bind};
use std::alloc::Global;
use wire_def::{Back, Head, Order};

/// The head of every message.
pub const HEAD: Head = Head {
    id: 9,
    remote: 0,
    local: 0,
    wants: true,
    order: Order::Big,
};

fn name(alloc: Global, text: &[u8]) -> Result<Name, NoMemory> {
    let mut name = Name::new(alloc);
    name.append(text)?;
    Ok(name)
}

/// `version V { void GET(void) = 7; } = 3;` of a program 0x20000001.
fn clock(alloc: Global) -> Result<Interface, NoMemory> {
    let mut ops = Operations::new(alloc);
    ops.push(Operation {
        name: Shared::new(alloc, name(alloc, b"GET")?)?,
        proc_no: 7,
        slot: 0,
        ins: Shared::new(alloc, Fields::new(alloc))?,
        outs: Shared::new(alloc, Fields::new(alloc))?,
        result: Shared::new(alloc, Ty::Void)?,
        raises: Shared::new(alloc, Raises::new(alloc))?,
        oneway: false,
    })?;
    Ok(Interface {
        name: Shared::new(alloc, name(alloc, b"CLOCK.V")?)?,
        program: 0x2000_0001,
        version: 3,
        base: 1000,
        slots: 1,
        ops,
    })
}

fn bound(alloc: Global) -> Result<Bound, NoMemory>
    ensures { IfOk result (λ b. b.back ≡ Xdr) }
{
    let mut unit = Unit::new(alloc);
    let added = unit.add_interface(clock(alloc)?);
    if added.is_err() || !is_sound(&unit) {
        return Err(NoMemory);
    }
    match bind(alloc, unit, Back::Xdr) {
        Ok(bound) => Ok(bound),
        Err(_) => Err(NoMemory),
    }
}

/// Nothing.
pub fn no_lead(alloc: Global) -> SendCode
    ensures { IsLead result }
{
    SendCode {
        ops: SendOps::new(alloc),
        subs: SendSubs::new(alloc),
    }
}

/// The head of a call of procedure 7.
pub fn call(alloc: Global) -> Result<SendCode, NoMemory>
    ensures { IfOk result IsLead }
{
    let bound = bound(alloc)?;
    if bound.ops().len() == 0 {
        return Err(NoMemory);
    }
    lead_call(alloc, &bound, 0)
}

/// The head of an answer.
pub fn answer(alloc: Global) -> Result<SendCode, NoMemory>
    ensures { IfOk result IsLead }
{
    let bound = bound(alloc)?;
    if bound.ops().len() == 0 {
        return Err(NoMemory);
    }
    lead_reply(alloc, &bound, 0, 0)
}
