//! What calls name, and what their heads say, over a bound unit.

ghost use Rattle.std.specs.Prelude.{◌≡◌, length, map, IfOk, IfErr};
ghost use Rattle.wire_def.specs.declared.encoding.Back.TheVariants.{Xdr};
ghost use Rattle.aoi.specs.Plain.{plain_interface};
ghost use Rattle.head_kit.specs.Calls.{IsBelow};
ghost use Rattle.back_xdr.specs.Heads.{StopsWith};
ghost use Rattle.back_xdr.specs.Heads as heads;
ghost use Rattle.back_xdr.specs.Seeking.{named, is_called, Calls};

use crate::call::{OncCall, read_call};
use crate::procedures::{before, operations_are_procedures, place_of};
use aoi::Interface;
use head_kit::{CallHead, CallTarget, operation_at};
use pres::Bound;
use wire_def::{Encoding, HeadErr};

/// How bodies are laid out.
pub const ENCODING: Encoding = Encoding::Xdr;

/// Whether a call is one of an interface: it has the interface's program and version.
fn is_called(call: &OncCall, i: &Interface) -> bool
    ensures { result ≡ is_called call.now (plain_interface i.now) }
{
    call.program == i.program && call.version == i.version
}

/// The operation that a call names, in the first of the interfaces that it calls.
fn seek(bound: &Bound, interfaces: &[Interface], call: &OncCall) -> CallTarget
    requires xdr { bound.now.back ≡ Xdr }
    requires all { map plain_interface interfaces.now ≡ bound.now.unit.interfaces }
    ensures { result ≡ named bound.now call.now }
{
    operations_are_procedures(bound);
    let mut place = 0;
    for i in interfaces {
        if is_called(call, i) {
            return operation_at(place_of(i, before(bound, place), call.proc_no));
        }
        place += 1;
    }
    CallTarget::NoInterface
}

/// The operation that a call names.
fn named(bound: &Bound, call: &OncCall) -> CallTarget
    requires xdr { bound.now.back ≡ Xdr }
    ensures value { result ≡ named bound.now call.now }
    ensures below { IsBelow (length bound.now.ops) result }
{
    operations_are_procedures(bound);
    seek(bound, bound.unit().interfaces().as_slice(), call)
}

/// Reads the head of a call from the first octets of a message: what it says over a bound unit, or
/// the first item of it that is cut off or wrong.
pub fn read_called(bound: &Bound, message: &[u8]) -> Result<CallHead, HeadErr>
    requires xdr { bound.now.back ≡ Xdr }
    ensures begins { IfOk result (λ c. Calls bound.now message.now c) }
    ensures below { IfOk result (λ c. IsBelow (length bound.now.ops) c.naming) }
    ensures stops { IfErr result (λ e. StopsWith heads.call message.now e) }
{
    match read_call(message) {
        Ok(call) => Ok(CallHead {
            naming: named(bound, &call),
            head: call.head,
            encoding: ENCODING,
            used: call.used,
            minor: 0,
        }),
        Err(fault) => Err(fault),
    }
}
