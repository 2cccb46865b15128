//! What requests name, and what their heads say, over a bound unit.

ghost use Rattle.std.specs.Prelude.{◌≡◌, ◌+◌, ◌<◌, ◌^◌, length, map, IfOk, IfErr};
ghost use Rattle.std.specs.List.{position_from};
ghost use Rattle.std.specs.Str.{bytes_eq};
ghost use Rattle.aoi.specs.Plain.{plain_interface};
ghost use Rattle.wire_def.specs.Lone.{IsPlain};
ghost use Rattle.head_kit.specs.Calls.{IsBelow};
ghost use Rattle.giop_head.specs.declared.header.HeadKind.TheVariants.{Requests};
ghost use Rattle.giop_head.specs.Header.{IsMinor};
ghost use Rattle.giop_head.specs.Heads.{StopsWith};
ghost use Rattle.giop_head.specs.Items.{laid};
ghost use Rattle.giop_head.specs.Reported.{request_seen};
ghost use Rattle.back_cdr.specs.Targets.{IsCdr, targets};
ghost use Rattle.back_cdr.specs.Seeking.{Calls, has_name, named, named_from};

use crate::targets::operations_are_targets;
use aoi::Interface;
use giop_head::{GiopRequest, read_request};
use head_kit::{CallHead, CallTarget, operation_at};
use pres::Bound;
use wire_def::{Encoding, HeadErr, Order};

/// How the octets of a body lie in a message of this order.
pub(crate) fn laid(order: Order) -> Encoding
    ensures value { result ≡ laid order }
    ensures plain { IsPlain result }
{
    match order {
        Order::Big => Encoding::CdrBig,
        Order::Little => Encoding::CdrLittle,
    }
}

/// The place of an interface's first operation of the name, where they are counted from a place.
fn place_of(i: &Interface, first: u32, name: &[u8]) -> Option<u32>
    requires { first + length (plain_interface i.now).ops < 2 ^ 32 }
    ensures { result ≡ position_from (has_name name.now) first (plain_interface i.now).ops }
{
    let mut place = first;
    for op in i.ops.as_slice() {
        if op.name.as_slice() == name {
            return Some(place);
        }
        place += 1;
    }
    None
}

/// Whether a key is that of the objects of an interface.
fn has_key(i: &Interface, key: &[u8]) -> bool
    ensures { result ≡ bytes_eq (plain_interface i.now).name key.now }
{
    i.name.as_slice() == key
}

/// The operation of a key and a name, where those of the interfaces are counted from a number.
fn seek(interfaces: &[Interface], first: u32, key: &[u8], name: &[u8]) -> CallTarget
    requires { first + length (targets (map plain_interface interfaces.now)) < 2 ^ 32 }
    ensures { result ≡ named_from first (map plain_interface interfaces.now) key.now name.now }
{
    let mut first = first;
    for i in interfaces {
        if has_key(i, key) {
            return operation_at(place_of(i, first, name));
        }
        first += i.ops.len() as u32;
    }
    CallTarget::NoInterface
}

/// The operation that a request names.
fn named(bound: &Bound, request: &GiopRequest<'_>) -> CallTarget
    requires cdr { IsCdr bound.now.back }
    ensures value { result ≡ named bound.now (request_seen request.now) }
    ensures below { IsBelow (length bound.now.ops) result }
{
    operations_are_targets(bound);
    let interfaces = bound.unit().interfaces();
    seek(interfaces.as_slice(), 0, request.key, request.name)
}

/// Reads the head of a request from the first octets of a message: what it says over a bound unit, or
/// the first item of it that is cut off or wrong. A LocateRequest has the fault of its type, and a target of
/// another kind than a key is a fault.
pub fn read_called(bound: &Bound, message: &[u8]) -> Result<CallHead, HeadErr>
    requires cdr { IsCdr bound.now.back }
    ensures begins { IfOk result (λ c. Calls bound.now message.now c) }
    ensures below { IfOk result (λ c. IsBelow (length bound.now.ops) c.naming) }
    ensures plain { IfOk result (λ c. IsPlain c.encoding) }
    ensures minor { IfOk result (λ c. IsMinor c.minor) }
    ensures stops { IfErr result (λ e. StopsWith Requests message.now e) }
{
    match read_request(message) {
        Ok(request) => Ok(CallHead {
            naming: named(bound, &request),
            head: request.head,
            encoding: laid(request.head.order),
            used: request.used,
            minor: request.minor,
        }),
        Err(fault) => Err(fault),
    }
}
