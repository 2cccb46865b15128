//! The heads that are sent, as code.

ghost use Rattle.std.specs.Prelude.{◌≡◌, ◌+◌, ◌<◌, ◌≤◌, ◌^◌, ◌∷◌, [], length, take, IfOk};
ghost use Rattle.cast_stub.specs.Block.{chunk, op_seen, patch};
ghost use Rattle.cast_stub.specs.declared.put.Put.TheVariants as put;
ghost use Rattle.cast_stub.specs.declared.put.HeadField.TheVariants.{Id};
ghost use Rattle.stub_lower.specs.Leads.{Leads, AreChunks};
ghost use Rattle.giop_head.specs.Header.{IsMinor};
ghost use Rattle.back_cdr.specs.Coded.{IsCoded, id_place, with_id};
ghost use Rattle.back_cdr.specs.Leads.{lead, reply_lead};
ghost use Rattle.back_cdr.specs.Targets.{IsCdr, has_body, target_of};
ghost use Rattle.back_cdr.specs.Targets as defs;

use crate::bodies::has_body;
use crate::printing::{answer, request, user};
use crate::targets::{exception_of, names_are_short, operation_of, order_of};
use cast_stub::{Constant, HeadField, Put, Puts, SendCode, SendOp, SendOps, SendSubs};
use kit_base::NoMemory;
use pres::Bound;
use std::alloc::Global;
use wire_def::{Back, Order};

/// One chunk of octets.
#[tactic(auto, using(crate::proofs::Coding::coding))]
fn constant(alloc: Global, octets: Constant) -> Result<SendOp, NoMemory>
    requires { length octets < 2 ^ 32 }
    ensures { IfOk result (λ op. op_seen op ≡ chunk (length octets) (put.Const 0 octets ∷ [])) }
{
    let size = octets.len() as u32;
    let mut puts = Puts::new(alloc);
    puts.push(Put::Const(0, octets))?;
    Ok(SendOp::Chunk(size, puts))
}

/// One chunk of the request's id.
#[tactic(auto, using(crate::proofs::Coding::coding))]
fn id(alloc: Global, order: Order) -> Result<SendOp, NoMemory>
    ensures { IfOk result (λ op. op_seen op ≡ chunk 4 (put.Head 0 Id 4 order ∷ [])) }
{
    let mut puts = Puts::new(alloc);
    puts.push(Put::Head(0, HeadField::Id, 4, order))?;
    Ok(SendOp::Chunk(4, puts))
}

/// Where the id of a head is.
fn id_place(minor: u8) -> usize
    ensures value { result ≡ id_place minor }
    ensures most { result ≤ 16 }
{
    if minor == 0 { 16 } else { 12 }
}

/// The octets before the id.
fn before_id(alloc: Global, place: usize, octets: &Constant) -> Result<Constant, NoMemory>
    requires { place + 4 ≤ length octets.now }
    ensures { IfOk result (λ o. o ≡ take place octets.now) }
{
    Ok(Constant::of(alloc, octets.first(alloc, place)?))
}

/// Chunks of these octets, with the request's id from this place on.
fn chunks_of(
    alloc: Global,
    order: Order,
    place: usize,
    octets: &Constant,
) -> Result<SendCode, NoMemory>
    requires many { place + 4 ≤ length octets.now }
    requires few { length octets.now < 2 ^ 32 }
    ensures { IfOk result (λ code. IsCoded order place octets.now code) }
{
    let mut ops = SendOps::with_room(alloc, 3)?;
    ops.push(constant(alloc, before_id(alloc, place, octets)?)?)?;
    ops.push(id(alloc, order)?)?;
    ops.push(constant(alloc, octets.after(alloc, place + 4)?)?)?;
    Ok(SendCode {
        ops,
        subs: SendSubs::new(alloc),
    })
}

/// Code that is these octets, with the request's id from this place on.
fn code_of(
    alloc: Global,
    order: Order,
    place: usize,
    octets: &Constant,
) -> Result<SendCode, NoMemory>
    requires many { place + 4 ≤ length octets.now }
    requires few { length octets.now < 2 ^ 32 }
    ensures means { IfOk result (λ code. Leads (λ h. with_id order place octets.now h.id) code) }
    ensures chunks { IfOk result AreChunks }
{
    chunks_of(alloc, order, place, octets)
}

/// The order of the messages that are sent.
pub(crate) fn sent_order(bound: &Bound) -> Order
    ensures { result ≡ defs.order_of bound.now.back }
{
    order_of(bound.back())
}

/// The octets of the head of a request, with 0 as its id.
fn call_octets(
    alloc: Global,
    order: Order,
    bound: &Bound,
    op: u32,
    minor: u8,
) -> Result<Constant, NoMemory>
    requires cdr { IsCdr bound.now.back }
    requires op { op < length bound.now.ops }
    ensures { IfOk result (λ o. o
        ≡ lead minor (has_body bound.now op) order (target_of bound.now op) 0) }
{
    names_are_short(bound);
    let (i, called) = operation_of(bound, op);
    request(
        alloc,
        minor,
        has_body(bound, op),
        order,
        !called.oneway,
        &i.name,
        called.name.as_slice(),
    )
}

/// The octets of the head of a reply, with 0 as its id.
fn reply_octets(
    alloc: Global,
    order: Order,
    bound: &Bound,
    op: u32,
    arm: u32,
    minor: u8,
) -> Result<Constant, NoMemory>
    requires cdr { IsCdr bound.now.back }
    requires op { op < length bound.now.ops }
    requires arm { arm ≤ length (target_of bound.now op).ids }
    ensures { IfOk result (λ o. o ≡ reply_lead minor order (target_of bound.now op) arm 0) }
{
    names_are_short(bound);
    if arm == 0 {
        answer(alloc, minor, order)
    } else {
        user(alloc, minor, order, exception_of(bound, op, arm).get())
    }
}

/// The head of an operation's request in a version: the object's key is the name of its interface. The size is
/// set by `size_patch`.
pub fn lead_call(alloc: Global, bound: &Bound, op: u32, minor: u8) -> Result<SendCode, NoMemory>
    requires cdr { IsCdr bound.now.back }
    requires op { op < length bound.now.ops }
    requires minor { IsMinor minor }
    ensures means { IfOk result (λ code. Leads (λ h. lead minor (has_body bound.now op)
        (defs.order_of bound.now.back) (target_of bound.now op) h.id) code) }
    ensures chunks { IfOk result AreChunks }
{
    names_are_short(bound);
    let order = sent_order(bound);
    let octets = call_octets(alloc, order, bound, op, minor)?;
    code_of(alloc, order, id_place(minor), &octets)
}

/// The head of a reply to an operation in a version: arm 0 is the answer, arm k the k-th of its exceptions. The
/// size is set by `size_patch`.
pub fn lead_reply(
    alloc: Global,
    bound: &Bound,
    op: u32,
    arm: u32,
    minor: u8,
) -> Result<SendCode, NoMemory>
    requires cdr { IsCdr bound.now.back }
    requires op { op < length bound.now.ops }
    requires arm { arm ≤ length (target_of bound.now op).ids }
    requires minor { IsMinor minor }
    ensures means { IfOk result (λ code. Leads
        (λ h. reply_lead minor (defs.order_of bound.now.back) (target_of bound.now op) arm h.id) code) }
    ensures chunks { IfOk result AreChunks }
{
    names_are_short(bound);
    let order = sent_order(bound);
    let octets = reply_octets(alloc, order, bound, op, arm, minor)?;
    code_of(alloc, order, id_place(minor), &octets)
}

/// The operation that sets the size of a message, once all of it is there: the number of octets
/// after the 12 of the header.
#[tactic(auto, using(crate::proofs::Coding::patching))]
pub fn size_patch(back: Back) -> SendOp
    ensures { op_seen result ≡ patch 8 12 (defs.order_of back) }
{
    SendOp::Patch(8, 12, order_of(back))
}
