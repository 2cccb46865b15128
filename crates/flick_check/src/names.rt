//! The operations that stubs name.

ghost use Rattle.std.specs.Prelude.{◌≡◌, ◌<◌, ◌++◌, codes, length, map, IfOk, IfSome};
ghost use Rattle.std.specs.Str.{bytes_eq};
ghost use Rattle.aoi.specs.Plain.{plain_interface};
ghost use Rattle.json_shape.specs.Operations as operations;
ghost use Rattle.flick_check.specs.Checked as checked;

use aoi::Interface;
use flick_engine::Engine;
use kit_base::NoMemory;
use mint::table::NodeId;
use pres::{Bound, Op};
use stub_places::spend;

/// The names that are compared in a step.
const NAMES: usize = 16;

/// The name of an interface.
fn interface_name(interfaces: &[Interface], k: u32) -> &[u8]
    ensures { result.now ≡ operations.interface_name (map plain_interface interfaces.now) k }
{
    match interfaces.get(k as usize) {
        Some(interface) => interface.name.as_slice(),
        None => &[],
    }
}

/// Whether octets are a dot and a name.
fn is_dotted(octets: &[u8], name: &[u8]) -> bool
    ensures { result ≡ bytes_eq (codes "." ++ name.now) octets.now }
{
    match octets.strip_prefix(b".") {
        Some(rest) => name == rest,
        None => false,
    }
}

/// Whether a name is another name, a dot, and a last name.
fn is_joined(name: &[u8], first: &[u8], last: &[u8]) -> bool
    ensures { result ≡ bytes_eq (first.now ++ (codes "." ++ last.now)) name.now }
{
    match name.strip_prefix(first) {
        Some(rest) => is_dotted(rest, last),
        None => false,
    }
}

/// Whether a name is the full name of an operation.
fn is_named(interfaces: &[Interface], op: &Op, name: &[u8]) -> bool
    ensures { result ≡ bytes_eq (operations.dotted (map plain_interface interfaces.now) op.now) name.now }
{
    is_joined(
        name,
        interface_name(interfaces, op.interface),
        op.name.as_slice(),
    )
}

/// The place of the first operation that has a full name.
fn place_of(interfaces: &[Interface], ops: &[Op], name: &[u8]) -> Option<usize>
    ensures place { result ≡ checked.place_of (map plain_interface interfaces.now) name.now ops.now }
    ensures within { IfSome result (λ i. i < length ops.now) }
{
    for (i, op) in ops.iter().enumerate() {
        if is_named(interfaces, op, name) {
            return Some(i);
        }
    }
    None
}

/// Takes the steps in which an operation is sought.
pub(crate) fn spend_search(left: &mut u64, engine: &Engine) -> Result<(), NoMemory> {
    let names = engine.bound().ops().as_slice().len();
    spend(left, (names / NAMES) as u64)
}

/// The number of the first operation that has a full name. More operations than numbers are more than memory holds.
pub(crate) fn op_of(bound: &Bound, name: &[u8]) -> Result<Option<u32>, NoMemory>
    ensures value { IfOk result (λ o. o ≡ checked.op_of bound.now name.now) }
    ensures within { IfOk result (λ o. IfSome o (λ op. op < length bound.now.ops)) }
{
    match place_of(
        bound.unit().interfaces().as_slice(),
        bound.ops().as_slice(),
        name,
    ) {
        Some(place) => match u32::try_from(place) {
            Ok(number) => Ok(Some(number)),
            Err(_) => Err(NoMemory),
        },
        None => Ok(None),
    }
}

/// The node of an operation's request.
pub(crate) fn request_of(engine: &Engine, op: u32) -> NodeId
    requires { op < length engine.now.binding.ops }
    ensures { result ≡ checked.request_of engine.now.binding op }
{
    match engine.bound().ops().get(op as usize) {
        Some(operation) => operation.request,
        None => unreachable!(),
    }
}
