//! The pass.

ghost use Rattle.std.specs.Prelude.{◌≡◌, [], map, option_map, OnOk, IfOk};
ghost use Rattle.cast_stub.specs.Block.{switch, op_seen, code_seen, cases_seen};
ghost use Rattle.chunker.specs.Chunked.{chunked, cases_chunked};
ghost use Rattle.chunker.specs.Contract.{IsChunked};
ghost use Rattle.cast_stub.specs.KeptAt.{SendsAsAt, IsCoveredAsAt, ChecksAs, CallsAs, RowsAs, KeepsOthers, StoresWithin, MovesWithin, RunsAreShort};
ghost use Rattle.chunker.specs.Makes.{Takes};
ghost use Rattle.chunker.specs.Phases.{IsPhase, AtPhase, unknown};

use crate::leaving::{looped, perhaps, switched};
use crate::phase::{Phase, by_fours, unknown};
use crate::run::{Run, close, put_align, put_chunk, put_other};
use cast_stub::{Path, Puts, SendCases, SendCode, SendLast, SendOp, SendOps, SendSubs};
use kit_base::NoMemory;
use std::alloc::Global;

/// The room that operations take, where chunks and aligns that stand together become one.
fn room_for(ops: &SendOps) -> usize {
    let mut room = 0usize;
    let mut is_open = false;
    for op in ops.as_slice() {
        let joins = matches!(op, SendOp::Chunk(_, _) | SendOp::Align(_));
        if !(is_open && joins) {
            room = room.saturating_add(1);
        }
        is_open = joins;
    }
    room
}

/// The operations, from a place of the phase on.
#[cycle(chunk)]
fn chunk_ops(alloc: Global, ops: SendOps, phase: Phase) -> Result<SendOps, NoMemory>
    requires phase { IsPhase phase }
    ensures { IfOk result (λ os. code_seen os ≡ chunked phase 0 [] (code_seen ops)) }
{
    let mut run = Run {
        out: SendOps::with_room(alloc, room_for(&ops))?,
        phase,
        size: 0,
        puts: Puts::new(alloc),
    };
    for op in ops.into_items() {
        put_op(alloc, op, &mut run)?;
    }
    close(alloc, &mut run)?;
    Ok(run.out)
}

/// The body of every other number.
#[cycle(chunk)]
fn chunk_last(alloc: Global, last: SendLast, phase: Phase) -> Result<Option<SendOps>, NoMemory>
    requires phase { IsPhase phase }
    ensures { IfOk result (λ o. option_map code_seen o
        ≡ option_map (λ b. chunked phase 0 [] (code_seen b)) last) }
{
    match last {
        Some(body) => Ok(Some(chunk_ops(alloc, body.into_value(), phase)?)),
        None => Ok(None),
    }
}

/// A switch, each of its bodies by itself.
#[cycle(chunk)]
fn chunk_switch(
    alloc: Global,
    path: Path,
    cases: SendCases,
    last: SendLast,
    phase: Phase,
) -> Result<SendOp, NoMemory>
    requires phase { IsPhase phase }
    ensures { IfOk result (λ o. op_seen o
        ≡ switch path (cases_chunked phase (cases_seen cases last))) }
{
    let mut bodies = SendCases::new(alloc);
    for (number, body) in cases.into_entries() {
        bodies.push((number, chunk_ops(alloc, body, phase)?))?;
    }
    let other = chunk_last(alloc, last, phase)?;
    SendOp::switch(alloc, path, bodies, other)
}

/// Puts an operation.
#[cycle(chunk)]
fn put_op(alloc: Global, op: SendOp, run: &mut Run) -> Result<(), NoMemory>
    requires phase { IsPhase run.old.phase }
    ensures { OnOk result (Takes (op_seen op) run.old run.new) }
{
    match op {
        SendOp::Ensure(n) => put_other(alloc, SendOp::Ensure(n), run.phase, run),
        SendOp::EnsureRow(path, unit, extra) => {
            put_other(alloc, SendOp::EnsureRow(path, unit, extra), run.phase, run)
        }
        SendOp::Align(a) => put_align(alloc, a, run),
        SendOp::Chunk(size, puts) => put_chunk(alloc, size, puts, run),
        SendOp::RowCopy(path) => put_other(alloc, SendOp::RowCopy(path), unknown(), run),
        SendOp::RowSwap(path) => put_other(alloc, SendOp::RowSwap(path), unknown(), run),
        SendOp::RowWide(path, order) => {
            put_other(
                alloc,
                SendOp::RowWide(path, order),
                by_fours(run.phase),
                run,
            )
        }
        SendOp::Each(path, body) => {
            let phase = looped(run.phase, &body);
            let inner = chunk_ops(alloc, body, phase)?;
            put_other(alloc, SendOp::Each(path, inner), phase, run)
        }
        SendOp::Switch(path, cases, last) => {
            let phase = switched(run.phase, &cases, &last);
            let made = chunk_switch(alloc, path, cases.into_value(), last, run.phase)?;
            put_other(alloc, made, phase, run)
        }
        SendOp::Some(path, body) => {
            let phase = perhaps(run.phase, &body);
            let inner = chunk_ops(alloc, body, run.phase)?;
            put_other(alloc, SendOp::Some(path, inner), phase, run)
        }
        SendOp::Call(k, path) => put_other(alloc, SendOp::Call(k, path), unknown(), run),
        SendOp::Patch(at, sub, order) => {
            put_other(alloc, SendOp::Patch(at, sub, order), run.phase, run)
        }
    }
}

/// The codes that calls name, each from any place on.
fn chunk_subs(alloc: Global, subs: SendSubs) -> Result<SendSubs, NoMemory>
    ensures { IfOk result (λ ss. map code_seen ss
        ≡ map (λ s. chunked unknown 0 [] (code_seen s)) subs) }
{
    let mut made = SendSubs::new(alloc);
    for sub in subs.into_items() {
        made.push(chunk_ops(alloc, sub, unknown())?)?;
    }
    Ok(made)
}

/// The code with one chunk in the place of chunks, and aligns of known padding, that stand together, where it
/// begins at a position of the phase.
pub fn chunk(alloc: Global, code: SendCode, phase: Phase) -> Result<SendCode, NoMemory>
    requires phase { IsPhase phase }
    // What it keeps, wherever the given code sends something.
    ensures same { IfOk result (λ c. SendsAsAt (AtPhase phase) code c) }
    ensures covered { IfOk result (λ c. IsCoveredAsAt (AtPhase phase) code c) }
    ensures checks { IfOk result (λ c. ChecksAs code c) }
    ensures calls { IfOk result (λ c. CallsAs code c) }
    ensures rows { IfOk result (λ c. RowsAs code c) }
    ensures others { IfOk result (λ c. KeepsOthers code c) }
    // What it bounds.
    ensures stores { IfOk result (λ c. StoresWithin code c) }
    ensures moves { IfOk result (λ c. MovesWithin 7 code c) }
    ensures short { IfOk result (λ c. RunsAreShort 7 c) }
    // What it changes.
    ensures chunked { IfOk result (λ c. IsChunked phase code c) }
{
    Ok(SendCode {
        ops: chunk_ops(alloc, code.ops, phase)?,
        subs: chunk_subs(alloc, code.subs)?,
    })
}
