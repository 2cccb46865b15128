//! The head of a request in another format.

ghost use Rattle.std.specs.Prelude.{◌≡◌, true, map, if◌then◌else◌};
ghost use Rattle.wire_def.specs.declared.head.Order.TheVariants.{Big};
ghost use Rattle.aoi.specs.Plain.{plain_interface, plain_operation};
ghost use Rattle.flick_bridge.specs.Heads.{head_at, head_over, is_oneway, is_oneway_among, is_oneway_in, is_oneway_of, number_in};

use aoi::{Interface, Operation};
use pres::{Bound, Op};
use wire_def::{Back, Head, Order};

/// The number of a head that is kept: the local port over Mach, else the id.
pub(crate) fn number_in(back: Back, head: &Head) -> u32
    ensures { result ≡ number_in back head.now }
{
    match back {
        Back::Xdr | Back::CdrBig | Back::CdrLittle => head.id,
        Back::Mach => head.local,
    }
}

/// Whether an operation is oneway and has a name.
fn is_oneway_of(op: &Operation, name: &[u8]) -> bool
    ensures { result ≡ is_oneway_of name.now (plain_operation op.now) }
{
    op.oneway && op.name.as_slice() == name
}

/// Whether one of these operations is oneway and has a name.
fn is_oneway_in(ops: &[Operation], name: &[u8]) -> bool
    ensures { result ≡ is_oneway_in name.now (map plain_operation ops.now) }
{
    for op in ops {
        if is_oneway_of(op, name) {
            return true;
        }
    }
    false
}

/// Whether an operation of an interface that has a name is oneway.
fn is_oneway_among(interfaces: &[Interface], interface: u32, name: &[u8]) -> bool
    ensures { result ≡ is_oneway_among (map plain_interface interfaces.now) interface name.now }
{
    match interfaces.get(interface as usize) {
        Some(interface) => is_oneway_in(interface.ops.as_slice(), name),
        None => false,
    }
}

/// Whether an operation of a bound unit is oneway.
fn is_oneway(bound: &Bound, op: &Op) -> bool
    ensures { result ≡ is_oneway bound.now op.now }
{
    let interfaces = bound.unit().interfaces().as_slice();
    is_oneway_among(interfaces, op.interface, op.name.as_slice())
}

/// The head of a request that has an id.
fn head_by_id(id: u32, wants: bool, order: Order) -> Head
    ensures { result ≡ record { id = id; remote = 0; local = 0; wants = wants; order = order } }
{
    Head {
        id,
        remote: 0,
        local: 0,
        wants,
        order,
    }
}

/// The head of a request that has a local port.
fn head_by_port(local: u32) -> Head
    ensures { result ≡ record { id = 0; remote = 0; local = local; wants = true; order = Big } }
{
    Head {
        id: 0,
        remote: 0,
        local,
        wants: true,
        order: Order::Big,
    }
}

/// The port for the reply to a request with a number; an operation that is oneway has none.
fn port_of(oneway: bool, number: u32) -> u32
    ensures { result ≡ (if oneway then 0 else number) }
{
    if oneway { 0 } else { number }
}

/// The head of a request with a number over a back end, of an operation that is oneway or not.
fn head_over(back: Back, oneway: bool, number: u32) -> Head
    ensures { result ≡ head_over back oneway number }
{
    match back {
        Back::Xdr => head_by_id(number, true, Order::Big),
        Back::CdrBig => head_by_id(number, !oneway, Order::Big),
        Back::CdrLittle => head_by_id(number, !oneway, Order::Little),
        Back::Mach => head_by_port(port_of(oneway, number)),
    }
}

/// The head of a request with a number for the operation of a binding.
pub(crate) fn head_at(bound: &Bound, op: u32, number: u32) -> Head
    ensures { result ≡ head_at bound.now op number }
{
    match bound.ops().get(op as usize) {
        Some(own) => head_over(bound.back(), is_oneway(bound, own), number),
        None => head_over(bound.back(), false, number),
    }
}
