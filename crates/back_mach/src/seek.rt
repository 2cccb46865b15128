//! What requests name, and what their heads say, over a bound unit.

ghost use Rattle.std.specs.Prelude.{◌≡◌, ◌+◌, ◌<◌, ◌^◌, length, map, IfOk, IfErr};
ghost use Rattle.std.specs.List.{position_from};
ghost use Rattle.wire_def.specs.declared.encoding.Back.TheVariants.{Mach};
ghost use Rattle.aoi.specs.Plain.{plain_interface};
ghost use Rattle.head_kit.specs.Calls.{IsBelow};
ghost use Rattle.back_mach.specs.Heads.{StopsWith};
ghost use Rattle.back_mach.specs.Heads as heads;
ghost use Rattle.back_mach.specs.Routines.{routines};
ghost use Rattle.back_mach.specs.Seeking.{Calls, has_id, has_slot, named, named_from};

use crate::call::{MachCall, read_call};
use crate::routines::operations_are_routines;
use aoi::Interface;
use head_kit::{CallHead, CallTarget, operation_at};
use pres::Bound;
use wire_def::{Encoding, HeadErr};

/// How bodies are laid out.
pub const ENCODING: Encoding = Encoding::Mach;

/// Whether an id is among those of an interface's requests.
fn has_id(i: &Interface, id: u32) -> bool
    ensures { result ≡ has_id id (plain_interface i.now) }
{
    i.base <= id && u64::from(id) < u64::from(i.base) + u64::from(i.slots)
}

/// The place of an interface's first operation with the id, where they are counted from a place.
fn place_of(i: &Interface, first: u32, id: u32) -> Option<u32>
    requires { first + length (plain_interface i.now).ops < 2 ^ 32 }
    ensures { result ≡ position_from (has_slot i.now.base id) first (plain_interface i.now).ops }
{
    let mut place = first;
    for op in i.ops.as_slice() {
        if u64::from(i.base) + u64::from(op.slot) == u64::from(id) {
            return Some(place);
        }
        place += 1;
    }
    None
}

/// The operation of an id, where those of the interfaces are counted from a number.
fn seek(interfaces: &[Interface], first: u32, id: u32) -> CallTarget
    requires { first + length (routines (map plain_interface interfaces.now)) < 2 ^ 32 }
    ensures { result ≡ named_from first (map plain_interface interfaces.now) id }
{
    let mut first = first;
    for i in interfaces {
        if has_id(i, id) {
            return operation_at(place_of(i, first, id));
        }
        first += i.ops.len() as u32;
    }
    CallTarget::NoInterface
}

/// The operation that a request names.
fn named(bound: &Bound, call: &MachCall) -> CallTarget
    requires mach { bound.now.back ≡ Mach }
    ensures value { result ≡ named bound.now call.now }
    ensures below { IsBelow (length bound.now.ops) result }
{
    operations_are_routines(bound);
    seek(bound.unit().interfaces().as_slice(), 0, call.id)
}

/// Reads the head of a request from the first octets of a message: what it says over a bound unit,
/// or the first item of it that is cut off or wrong.
pub fn read_called(bound: &Bound, message: &[u8]) -> Result<CallHead, HeadErr>
    requires mach { bound.now.back ≡ Mach }
    ensures begins { IfOk result (λ c. Calls bound.now message.now c) }
    ensures below { IfOk result (λ c. IsBelow (length bound.now.ops) c.naming) }
    ensures stops { IfErr result (λ e. StopsWith heads.call message.now e) }
{
    match read_call(message) {
        Ok(call) => Ok(CallHead {
            naming: named(bound, &call),
            head: call.head,
            encoding: ENCODING,
            used: call.used,
            minor: 0,
        }),
        Err(fault) => Err(fault),
    }
}
