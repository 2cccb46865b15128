//! The heads that are sent, as code.

ghost use Rattle.std.specs.Prelude.{◌≡◌, ◌<◌, IfOk, length};
ghost use Rattle.wire_def.specs.declared.encoding.Back.TheVariants.{Mach};
ghost use Rattle.wire_def.specs.declared.head.Order.TheVariants.{Little};
ghost use Rattle.cast_stub.specs.declared.put.Put.TheVariants as put;
ghost use Rattle.cast_stub.specs.Block.{op_seen, patch};
ghost use Rattle.stub_lower.specs.Leads.{Leads, AreChunks};
ghost use Rattle.back_mach.specs.Words.{words};
ghost use Rattle.back_mach.specs.Coded.{IsChunk, last_words, reply_puts, request_puts};
ghost use Rattle.back_mach.specs.Leads.{lead, reply_form, reply_head, reply_lead_length};
ghost use Rattle.back_mach.specs.Routines.{routine_of};
ghost use Rattle.head_arms.specs.Raised.{exceptions};

use crate::putting::{MOVE_SEND_ONCE, reply_id, request_bits};
use crate::reply::RETURN;
use crate::routines::{Routine, routine_of};
use cast_stub::{Constant, HeadField, Put, Puts, SendCode, SendOp, SendOps, SendSubs};
use head_arms::exceptions_of;
use kit_base::{NoMemory, Octets};
use pres::Bound;
use std::alloc::Global;
use wire_def::{Head, Order};

/// Words, one after the other.
fn octets_of(alloc: Global, numbers: &[u32]) -> Result<Octets, NoMemory>
    ensures { IfOk result (λ o. o ≡ words numbers.now) }
{
    let mut octets = Octets::new(alloc);
    for number in numbers {
        octets.append(&number.to_le_bytes())?;
    }
    Ok(octets)
}

/// Words from an offset of a chunk on.
fn constant(alloc: Global, off: u32, numbers: &[u32]) -> Result<Put, NoMemory>
    ensures { IfOk result (λ p. p ≡ put.Const off (words numbers.now)) }
{
    Ok(Put::Const(off, Constant::of(alloc, octets_of(alloc, numbers)?)))
}

/// A number of the head at an offset of a chunk.
fn number(off: u32, field: HeadField) -> Put
    ensures { result ≡ put.Head off field 4 Little }
{
    Put::Head(off, field, 4, Order::Little)
}

/// Code that is one chunk.
#[tactic(auto, using(crate::proofs::Coding::coding))]
fn chunk_of(alloc: Global, size: u32, puts: Puts) -> Result<SendCode, NoMemory>
    ensures { IfOk result (λ code. IsChunk size puts code) }
{
    let mut ops = SendOps::new(alloc);
    ops.push(SendOp::Chunk(size, puts))?;
    Ok(SendCode {
        ops,
        subs: SendSubs::new(alloc),
    })
}

/// The puts of the head of a request.
fn request_puts(alloc: Global, routine: Routine) -> Result<Puts, NoMemory>
    ensures { IfOk result (λ puts. puts ≡ request_puts routine) }
{
    let mut puts = Puts::new(alloc);
    puts.push(constant(alloc, 0, &[request_bits(routine.wants), 0])?)?;
    puts.push(number(8, HeadField::Remote))?;
    if routine.wants {
        puts.push(number(12, HeadField::Local))?;
        puts.push(constant(alloc, 16, &[0, routine.id])?)?;
    } else {
        puts.push(constant(alloc, 12, &[0, 0, routine.id])?)?;
    }
    Ok(puts)
}

/// The words of the head of a reply with an arm, behind the id, where so many exceptions are raised.
fn last_words(alloc: Global, arms: u32, arm: u32) -> Result<Put, NoMemory>
    ensures { IfOk result (λ p. p ≡ put.Const 24 (words (last_words arms arm))) }
{
    if arms == 0 {
        constant(alloc, 24, &[RETURN, 0])
    } else {
        constant(alloc, 24, &[RETURN, 0, RETURN, arm])
    }
}

/// The puts of the head of a reply with an arm, where so many exceptions are raised.
fn reply_puts(alloc: Global, arms: u32, arm: u32) -> Result<Puts, NoMemory>
    ensures { IfOk result (λ puts. puts ≡ reply_puts arms arm) }
{
    let mut puts = Puts::new(alloc);
    puts.push(constant(alloc, 0, &[MOVE_SEND_ONCE, 0])?)?;
    puts.push(number(8, HeadField::Remote))?;
    puts.push(constant(alloc, 12, &[0, 0])?)?;
    puts.push(number(20, HeadField::Id))?;
    puts.push(last_words(alloc, arms, arm)?)?;
    Ok(puts)
}

/// How many octets the head of a reply has, where so many exceptions are raised.
fn reply_length(arms: u32) -> u32
    ensures { result ≡ reply_lead_length arms }
{
    if arms == 0 { 32 } else { 40 }
}

/// One chunk of the head of a request.
fn request_code(alloc: Global, routine: Routine) -> Result<SendCode, NoMemory>
    ensures { IfOk result (λ code. IsChunk 24 (request_puts routine) code) }
{
    let puts = request_puts(alloc, routine)?;
    chunk_of(alloc, 24, puts)
}

/// One chunk of the head of a reply with an arm, where so many exceptions are raised.
fn reply_code(alloc: Global, arms: u32, arm: u32) -> Result<SendCode, NoMemory>
    ensures { IfOk result
        (λ code. IsChunk (reply_lead_length arms) (reply_puts arms arm) code) }
{
    let puts = reply_puts(alloc, arms, arm)?;
    chunk_of(alloc, reply_length(arms), puts)
}

/// The head of an operation's request. The size is set by `size_patch`.
pub fn lead_call(alloc: Global, bound: &Bound, op: u32) -> Result<SendCode, NoMemory>
    requires mach { bound.now.back ≡ Mach }
    requires op { op < length bound.now.ops }
    ensures means { IfOk result (λ code. Leads (λ h. lead (routine_of bound.now op) h) code) }
    ensures chunks { IfOk result AreChunks }
{
    request_code(alloc, routine_of(bound, op))
}

/// The head of a reply to an operation with an arm: 0 for the answer, k for the k-th exception. Its
/// id is that of the head that it is run with, which `reply_head` gives, and the size is set by
/// `size_patch`.
pub fn lead_reply(alloc: Global, bound: &Bound, op: u32, arm: u32) -> Result<SendCode, NoMemory>
    requires mach { bound.now.back ≡ Mach }
    requires op { op < length bound.now.ops }
    ensures means { IfOk result (λ code.
        Leads (λ h. reply_form (exceptions bound.now op) arm h) code) }
    ensures chunks { IfOk result AreChunks }
{
    reply_code(alloc, exceptions_of(bound, op), arm)
}

/// A head with the id of the reply to an operation, for the code of its replies.
pub fn reply_head(bound: &Bound, op: u32, head: &Head) -> Head
    requires mach { bound.now.back ≡ Mach }
    requires op { op < length bound.now.ops }
    ensures { result ≡ reply_head (routine_of bound.now op) head.now }
{
    Head {
        id: reply_id(routine_of(bound, op).id),
        ..*head
    }
}

/// The operation that sets the size of a message, once all of it is there: the number of all its
/// octets.
#[tactic(auto, using(crate::proofs::Coding::patching))]
pub fn size_patch() -> SendOp
    ensures { op_seen result ≡ patch 4 0 Little }
{
    SendOp::Patch(4, 0, Order::Little)
}
