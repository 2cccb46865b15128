//! The heads that are sent, as code.

ghost use Rattle.std.specs.Prelude.{◌≡◌, ◌<◌, ◌≤◌, ◌∷◌, length, IfOk};
ghost use Rattle.wire_def.specs.declared.encoding.Back.TheVariants.{Xdr};
ghost use Rattle.stub_lower.specs.Leads.{Leads, AreChunks};
ghost use Rattle.back_xdr.specs.Coded.{IsCoded};
ghost use Rattle.raw_buf.specs.Words.{words};
ghost use Rattle.back_xdr.specs.Leads.{lead, reply_lead};
ghost use Rattle.back_xdr.specs.Procedures.{procedure_of};
ghost use Rattle.head_arms.specs.Raised.{exceptions};

use crate::procedures::procedure_of;
use cast_stub::{Constant, HeadField, Put, Puts, SendCode, SendOp, SendOps, SendSubs};
use head_arms::exceptions_of;
use kit_base::{NoMemory, Octets};
use pres::Bound;
use std::alloc::Global;
use wire_def::Order;

/// Words, one after another.
fn octets_of(alloc: Global, numbers: &[u32]) -> Result<Octets, NoMemory>
    ensures { IfOk result (λ o. o ≡ words numbers.now) }
{
    let mut octets = Octets::with_room(alloc, numbers.len().saturating_mul(4))?;
    for number in numbers {
        octets.append(&number.to_be_bytes())?;
    }
    Ok(octets)
}

/// One chunk: the transaction, and words after it.
#[tactic(auto, using(crate::proofs::Coding::coding))]
fn chunk_of(alloc: Global, numbers: &[u32]) -> Result<SendCode, NoMemory>
    requires few { length numbers.now ≤ 9 }
    ensures { IfOk result (λ code. IsCoded numbers.now code) }
{
    let size = 4 + 4 * numbers.len() as u32;
    let mut puts = Puts::with_room(alloc, 2)?;
    puts.push(Put::Head(0, HeadField::Id, 4, Order::Big))?;
    puts.push(Put::Const(4, Constant::of(alloc, octets_of(alloc, numbers)?)))?;
    let mut ops = SendOps::new(alloc);
    ops.push(SendOp::Chunk(size, puts))?;
    Ok(SendCode {
        ops,
        subs: SendSubs::new(alloc),
    })
}

/// Code that is the transaction, and words after it.
fn code_of(alloc: Global, numbers: &[u32]) -> Result<SendCode, NoMemory>
    requires few { length numbers.now ≤ 9 }
    ensures means { IfOk result (λ code. Leads (λ h. words (h.id ∷ numbers.now)) code) }
    ensures chunks { IfOk result AreChunks }
{
    chunk_of(alloc, numbers)
}

/// The head of an operation's call, with empty credentials and verifier.
pub fn lead_call(alloc: Global, bound: &Bound, op: u32) -> Result<SendCode, NoMemory>
    requires xdr { bound.now.back ≡ Xdr }
    requires op { op < length bound.now.ops }
    ensures means { IfOk result (λ code. Leads (λ h. lead (procedure_of bound.now op) h.id) code) }
    ensures chunks { IfOk result AreChunks }
{
    let called = procedure_of(bound, op);
    let numbers = [
        0,
        2,
        called.program,
        called.version,
        called.number,
        0,
        0,
        0,
        0,
    ];
    code_of(alloc, &numbers)
}

/// The head of a reply with an arm, where so many exceptions are raised.
fn reply_code(alloc: Global, arms: u32, arm: u32) -> Result<SendCode, NoMemory>
    ensures means { IfOk result (λ code. Leads (λ h. reply_lead arms arm h.id) code) }
    ensures chunks { IfOk result AreChunks }
{
    if arms == 0 {
        code_of(alloc, &[1, 0, 0, 0, 0])
    } else {
        code_of(alloc, &[1, 0, 0, 0, 0, arm])
    }
}

/// The head of a reply to an operation with an arm: 0 for the answer, k for the k-th exception.
pub fn lead_reply(alloc: Global, bound: &Bound, op: u32, arm: u32) -> Result<SendCode, NoMemory>
    requires op { op < length bound.now.ops }
    ensures means { IfOk result (λ code.
        Leads (λ h. reply_lead (exceptions bound.now op) arm h.id) code) }
    ensures chunks { IfOk result AreChunks }
{
    reply_code(alloc, exceptions_of(bound, op), arm)
}
