//! The operations of interfaces, as requests name them.

ghost use Rattle.std.specs.Prelude.{◌≡◌, ℕ, ◌<◌, ◌≤◌, ◌^◌, ◌-◌, [], length, map, slice_index_or, IfSome, true};
ghost use Rattle.wire_def.specs.declared.head.Order.{Order};
ghost use Rattle.aoi.specs.Plain.{PlainRaise, plain_interface, plain_operation, plain_raise};
ghost use Rattle.back_cdr.specs.Leads.{reply_lead};
ghost use Rattle.back_cdr.specs.Targets as defs;
ghost use Rattle.back_cdr.specs.Targets.{HasShortNames, IsCdr, no_target, target_in, target_of, targets};

use aoi::{FullName, Interface, Operation, Raise};
use kit_shared::Shared;
use pres::Bound;
use wire_def::{Back, Order};

/// The most octets of an id that is compared: so one comparison takes a bounded time.
const MOST_COMPARED: usize = 16_384;

/// The most octets of each piece of an id that are marked: the last ones, since ids of one module begin alike.
const MOST_MARKED: usize = 32;

/// The order of the messages that a back end sends.
pub(crate) fn order_of(back: Back) -> Order
    ensures { result ≡ defs.order_of back }
{
    match back {
        Back::CdrLittle => Order::Little,
        _ => Order::Big,
    }
}

/// The operation at a place, counted from 0 over all interfaces, and its interface.
fn operation_at(interfaces: &[Interface], place: usize) -> (&Interface, &Operation)
    requires { place < length (targets (map plain_interface interfaces.now)) }
    ensures { slice_index_or (targets (map plain_interface interfaces.now)) place no_target
        ≡ target_in (plain_interface result.0.now) (plain_operation result.1.now) }
{
    let Some((i, others)) = interfaces.split_first() else {
        unreachable!()
    };
    let ops = i.ops.as_slice();
    if place < ops.len() {
        (i, &ops[place])
    } else {
        operation_at(others, place - ops.len())
    }
}

/// Each operation of a bound unit is one that requests name, and they are few. It does nothing.
pub(crate) fn operations_are_targets(bound: &Bound)
    requires { IsCdr bound.now.back }
    ensures many { length (targets bound.now.unit.interfaces) ≡ length bound.now.ops }
    ensures few { length bound.now.ops < 2 ^ 32 }
{
    let _ops = bound.ops();
    bound.unit().interfaces_are_apart();
}

/// No name of an operation of a bound unit is too long, and no id of an exception. It does nothing.
pub(crate) fn names_are_short(bound: &Bound)
    ensures { (op : ℕ) → HasShortNames (target_of bound.now op) }
{
    let _ops = bound.ops();
}

/// The operation of a bound unit, and its interface.
pub(crate) fn operation_of(bound: &Bound, op: u32) -> (&Interface, &Operation)
    requires cdr { IsCdr bound.now.back }
    requires op { op < length bound.now.ops }
    ensures { target_in (plain_interface result.0.now) (plain_operation result.1.now)
        ≡ target_of bound.now op }
{
    operations_are_targets(bound);
    operation_at(bound.unit().interfaces().as_slice(), op as usize)
}

/// The repository id of an exception, by its place from 1.
fn id_at(raises: &[Raise], arm: u32) -> &Shared<FullName>
    requires some { 0 < arm }
    requires there { arm ≤ length raises.now }
    ensures { result.now
        ≡ slice_index_or (map (λ (r : PlainRaise). r.id) (map plain_raise raises.now)) (arm - 1) [] }
{
    &raises[arm as usize - 1].id
}

/// The repository id of an operation's exception, by its place from 1.
pub(crate) fn exception_of(bound: &Bound, op: u32, arm: u32) -> &Shared<FullName>
    requires cdr { IsCdr bound.now.back }
    requires op { op < length bound.now.ops }
    requires some { 0 < arm }
    requires there { arm ≤ length (target_of bound.now op).ids }
    ensures { result.now ≡ slice_index_or (target_of bound.now op).ids (arm - 1) [] }
{
    let (_, called) = operation_of(bound, op);
    id_at(called.raises.as_slice(), arm)
}

/// The repository id of an operation's exception, by its place from 0, where there is one.
fn raised_id(bound: &Bound, op: u32, place: usize) -> Option<&Shared<FullName>>
    requires cdr { IsCdr bound.now.back }
    requires op { op < length bound.now.ops }
    ensures { IfSome result (λ id. id.now ≡ slice_index_or (target_of bound.now op).ids place []) }
{
    let (_, called) = operation_of(bound, op);
    match called.raises.as_slice().get(place) {
        Some(raise) => Some(&raise.id),
        None => None,
    }
}

/// Whether two ids are known to be the same, piece by piece: one that is longer than those that are compared counts
/// as another.
fn are_one_id(id: &Shared<FullName>, other: &Shared<FullName>) -> bool
    ensures { result ≡ true → id.now ≡ other.now }
{
    let (prefix, own) = id.get().parts();
    let (other_prefix, other_own) = other.get().parts();
    !id.get().is_longer(MOST_COMPARED) && prefix == other_prefix && own == other_own
}

/// Whether the exceptions of two operations with a place from 0 are known to have one id.
fn raise_one_id(bound: &Bound, op: u32, p: u32, place: usize) -> bool
    requires cdr { IsCdr bound.now.back }
    requires op { op < length bound.now.ops }
    requires p { p < length bound.now.ops }
    ensures { result ≡ true → slice_index_or (target_of bound.now op).ids place []
        ≡ slice_index_or (target_of bound.now p).ids place [] }
{
    match (raised_id(bound, op, place), raised_id(bound, p, place)) {
        (Some(id), Some(other)) => are_one_id(id, other),
        _ => false,
    }
}

/// Whether the replies to two operations with an arm are known to have one head, in each version: those of answers do,
/// and those of exceptions of one id.
pub fn have_one_lead(bound: &Bound, op: u32, p: u32, arm: u32) -> bool
    requires cdr { IsCdr bound.now.back }
    requires op { op < length bound.now.ops }
    requires p { p < length bound.now.ops }
    ensures { result ≡ true → (m : ℕ) (r : Order) (id : ℕ)
        → reply_lead m r (target_of bound.now op) arm id ≡ reply_lead m r (target_of bound.now p) arm id }
{
    if arm == 0 {
        true
    } else {
        raise_one_id(bound, op, p, arm as usize - 1)
    }
}

/// A number of some octets after those of another number, which others seldom have. It proves nothing.
fn mark_after(before: u32, octets: &[u8]) -> u32 {
    let mut mark = before;
    for at in octets.len().saturating_sub(MOST_MARKED)..octets.len() {
        mark = mark.wrapping_mul(31).wrapping_add(octets[at] as u32);
    }
    mark
}

/// A number of an id that others seldom have. It proves nothing.
fn mark_of(id: &FullName) -> u32 {
    let (prefix, own) = id.parts();
    mark_after(mark_after(0, prefix), own)
}

/// A number of the head of an operation's replies with an arm, which heads that differ seldom have. It proves nothing.
pub fn lead_mark(bound: &Bound, op: u32, arm: u32) -> u32
    requires cdr { IsCdr bound.now.back }
    requires op { op < length bound.now.ops }
{
    if arm == 0 {
        return 0;
    }
    match raised_id(bound, op, arm as usize - 1) {
        Some(id) => mark_of(id.get()),
        None => 0,
    }
}
