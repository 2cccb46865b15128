//! The operations that records name.

ghost use Rattle.std.specs.Prelude.{◌≡◌, ◌<◌, ◌≤◌, ◌++◌, IfOk, IfSome, None, Some, true, codes, length, map, option_map, slice_get, slice_index_or};
ghost use Rattle.std.specs.List.{position_from};
ghost use Rattle.std.specs.Str.{IsAscii, bytes_eq};
ghost use Rattle.aoi.specs.Plain.{plain_raise, plain_operation, plain_interface};
ghost use Rattle.pres.specs.declared.ops.Op.{Op as OpRecord};
ghost use Rattle.pres.specs.Bindings.{IsPlaced};
ghost use Rattle.pres.specs.Offers.{gets_null, operations};
ghost use Rattle.pres.specs.Raises.{sources, source, raises};
ghost use Rattle.json_shape.specs.Homes.{Leads, homes, homes_from};
ghost use Rattle.json_shape.specs.Operations.{interface_name, dotted, op_named, is_oneway};
ghost use Rattle.json_shape.specs.Replies.{raise_name};
ghost use Rattle.json_shape.specs.Texts.{text_of};

use crate::names::{after_name, is_name};
use aoi::{Interface, Operation, Raise};
use kit_base::{Name, NoMemory, Octets};
use pres::{Bound, Op};
use std::alloc::Global;
use wire_def::Back;

/// The name of an interface.
#[tactic(auto, using(crate::proofs::Sources::lists))]
fn interface_name(interfaces: &[Interface], k: u32) -> &[u8]
    ensures { result.now ≡ interface_name (map plain_interface interfaces.now) k }
{
    match interfaces.get(k as usize) {
        Some(interface) => interface.name.as_slice(),
        None => &[],
    }
}

/// The place of the first operation whose own name a string is.
fn own_place(ops: &[Op], text: &str, plain: bool) -> Option<usize>
    requires { plain ≡ true → IsAscii text.now }
    ensures place { result ≡ position_from (λ (o : OpRecord). bytes_eq (text_of o.name) text.now) 0 ops.now }
    ensures within { IfSome result (λ i. i < length ops.now) }
{
    for (i, op) in ops.iter().enumerate() {
        if is_name(op.name.as_slice(), text, plain) {
            return Some(i);
        }
    }
    None
}

/// The place of the first operation that a string names, among those of an interface.
fn place_in(name: &[u8], ops: &[Op], text: &str, plain: bool) -> Option<usize>
    requires { plain ≡ true → IsAscii text.now }
    ensures place { result ≡ position_from
        (λ (o : OpRecord). bytes_eq (text_of (name.now ++ (codes "." ++ o.name))) text.now) 0 ops.now }
    ensures within { IfSome result (λ i. i < length ops.now) }
{
    match after_name(name, text, plain) {
        Some(rest) => own_place(ops, rest, plain),
        None => None,
    }
}

/// Whether the operations of an interface end with a procedure that it gets.
fn is_given_null(back: Back, interface: &Interface, k: usize, ops: &[Op]) -> bool
    requires { Leads back k (plain_interface interface.now) ops.now }
    ensures { result ≡ gets_null back (plain_interface interface.now) }
{
    match ops.get(interface.ops.len()) {
        Some(op) => op.interface as usize == k,
        None => false,
    }
}

/// How many operations an interface has.
fn count_of(back: Back, interface: &Interface, k: usize, ops: &[Op]) -> usize
    requires { Leads back k (plain_interface interface.now) ops.now }
    ensures value { result ≡ length (operations back (plain_interface interface.now)) }
    ensures within { result ≤ length ops.now }
{
    let own = interface.ops.len();
    if is_given_null(back, interface, k, ops) {
        own + 1
    } else {
        own
    }
}

/// Name of an operation in a record: that of its interface, a dot, and its own.
pub fn dotted(alloc: Global, interfaces: &[Interface], op: &Op) -> Result<Octets, NoMemory>
    ensures { IfOk result (λ o. o ≡ dotted (map plain_interface interfaces.now) op.now) }
{
    let interface = interface_name(interfaces, op.interface);
    let room = interface
        .len()
        .saturating_add(op.name.len())
        .saturating_add(1);
    let mut name = Octets::with_room(alloc, room)?;
    name.append(interface)?;
    name.append(b".")?;
    name.append(op.name.as_slice())?;
    Ok(name)
}

/// The first operation that a string names, with its number.
pub(crate) fn op_named<'a>(bound: &'a Bound, text: &str) -> Result<Option<(u32, &'a Op)>, NoMemory>
    ensures found { IfOk result (λ o. option_map (λ p. (p.0, p.1.now)) o ≡ op_named bound.now text.now) }
    ensures there { IfOk result (λ o. IfSome o (λ p. slice_get bound.now.ops p.0 ≡ Some p.1.now)) }
    ensures placed { IfOk result (λ o. IfSome o (λ p. IsPlaced bound.now p.1.now)) }
{
    let ops = bound.ops().as_slice();
    let plain = text.is_ascii();
    let mut from = 0;
    for (k, interface) in bound.unit().interfaces().as_slice().iter().enumerate() {
        let rest = &ops[from..];
        let count = count_of(bound.back(), interface, k, rest);
        if let Some(place) = place_in(interface.name.as_slice(), &rest[..count], text, plain) {
            // More operations than numbers are more than memory holds.
            let Ok(number) = u32::try_from(from + place) else {
                return Err(NoMemory);
            };
            return Ok(Some((number, &ops[from + place])));
        }
        from += count;
    }
    Ok(None)
}

/// The operation of a number, as its file has it.
#[tactic(auto, using(crate::proofs::Sources::lists))]
fn source_in<'a>(
    interfaces: &'a [Interface],
    back: Back,
    ops: &[Op],
    k: u32,
) -> Option<&'a Operation>
    requires { homes ops.now ≡ homes_from back 0 (map plain_interface interfaces.now) }
    ensures { option_map (λ o. plain_operation o.now) result
        ≡ slice_index_or (sources back (map plain_interface interfaces.now)) k None }
{
    let mut left = k as usize;
    let mut from = 0;
    for (j, interface) in interfaces.iter().enumerate() {
        let operations = interface.ops.as_slice();
        if left < operations.len() {
            return Some(&operations[left]);
        }
        let count = count_of(back, interface, j, &ops[from..]);
        // The last is a procedure that the interface gets.
        if left < count {
            return None;
        }
        left -= count;
        from += count;
    }
    None
}

fn source(bound: &Bound, k: u32) -> Option<&Operation>
    ensures { option_map (λ o. plain_operation o.now) result ≡ source bound.now k }
{
    source_in(
        bound.unit().interfaces().as_slice(),
        bound.back(),
        bound.ops().as_slice(),
        k,
    )
}

/// Whether an operation has no answer in its file.
pub(crate) fn is_oneway(bound: &Bound, k: u32) -> bool
    ensures { result ≡ is_oneway bound.now k }
{
    match source(bound, k) {
        Some(op) => op.oneway,
        None => false,
    }
}

/// The exceptions of an operation.
pub(crate) fn raises(bound: &Bound, k: u32) -> &[Raise]
    ensures { map plain_raise result.now ≡ raises bound.now k }
{
    match source(bound, k) {
        Some(op) => op.raises.as_slice(),
        None => &[],
    }
}

/// The name of the exception at a place, whole, for the line that has it.
#[tactic(auto, using(crate::proofs::Sources::lists))]
pub(crate) fn raise_name(alloc: Global, raises: &[Raise], k: usize) -> Result<Name, NoMemory>
    ensures { IfOk result (λ name. name ≡ raise_name (map plain_raise raises.now) k) }
{
    match raises.get(k) {
        Some(raise) => {
            let name = raise.name.get().whole(alloc)?;
            Ok(name)
        }
        None => Ok(Name::new(alloc)),
    }
}
