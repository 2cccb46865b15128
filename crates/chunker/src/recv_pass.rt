//! The pass over code that receives.

ghost use Rattle.std.specs.Prelude.{◌≡◌, [], map, OnOk, IfOk};
ghost use Rattle.cast_stub.specs.RecvBlock.{op_seen, code_seen};
ghost use Rattle.chunker.specs.RecvChunked.{chunked};
ghost use Rattle.chunker.specs.RecvContract.{IsRecvChunked};
ghost use Rattle.chunker.specs.RecvKept.{ReceivesAsAt, IsSoundAsAt, KeepsOtherRecvs, RunsTestFew};
ghost use Rattle.chunker.specs.RecvMakes.{Takes};
ghost use Rattle.chunker.specs.Phases.{IsPhase, AtPhase, unknown};

use crate::phase::{Phase, by_fours, unknown};
use crate::recv_leaving::{looped, perhaps, switched};
use crate::recv_run::{RecvRun, close, put_any, put_need, put_other, put_take, put_zero};
use cast_stub::copies::copy_path;
use cast_stub::{Gets, RecvCases, RecvCode, RecvOp, RecvOps, RecvSubs};
use kit_base::NoMemory;
use std::alloc::Global;

/// A number and its body, as one of the bodies of a switch.
fn recv_case(n: &i128, body: RecvOps) -> (i128, RecvOps)
    ensures number { result.0 ≡ n.now }
    ensures body { result.1 ≡ body }
{
    (*n, body)
}

/// The operations, from a place of the phase on.
#[cycle(chunk_recv)]
fn chunk_ops(alloc: Global, ops: &RecvOps, phase: Phase) -> Result<RecvOps, NoMemory>
    requires phase { IsPhase phase }
    ensures { IfOk result (λ os. code_seen os ≡ chunked phase 0 [] 0 (code_seen ops.now)) }
{
    let mut run = RecvRun {
        out: RecvOps::new(alloc),
        phase,
        size: 0,
        gets: Gets::new(alloc),
        seen: 0,
    };
    for op in ops.as_slice() {
        put_op(alloc, op, &mut run)?;
    }
    close(alloc, &mut run)?;
    Ok(run.out)
}

/// Puts an operation.
#[cycle(chunk_recv)]
fn put_op(alloc: Global, op: &RecvOp, run: &mut RecvRun) -> Result<(), NoMemory>
    requires phase { IsPhase run.old.phase }
    ensures { OnOk result (Takes (op_seen op.now) run.old run.new) }
{
    match op {
        RecvOp::Need(octets) => put_need(*octets, run),
        RecvOp::NeedRow(path, unit, extra) => {
            let same = RecvOp::NeedRow(copy_path(alloc, path)?, *unit, *extra);
            put_other(alloc, same, run.phase, run)
        }
        RecvOp::SkipAny(a) => put_any(alloc, *a, run),
        RecvOp::SkipZero(a) => put_zero(alloc, *a, run),
        RecvOp::Take(size, gets) => put_take(alloc, *size, gets, run),
        RecvOp::Desc(path, name, size, factor) => {
            let same = RecvOp::Desc(copy_path(alloc, path)?, *name, *size, *factor);
            put_other(alloc, same, unknown(), run)
        }
        RecvOp::Row(path, order) => {
            let same = RecvOp::Row(copy_path(alloc, path)?, *order);
            put_other(alloc, same, unknown(), run)
        }
        RecvOp::RowWide(path, order) => {
            let same = RecvOp::RowWide(copy_path(alloc, path)?, *order);
            put_other(alloc, same, by_fours(run.phase), run)
        }
        RecvOp::Each(path, body) => {
            let phase = looped(run.phase, body);
            let inner = chunk_ops(alloc, body, phase)?;
            let made = RecvOp::Each(copy_path(alloc, path)?, inner);
            put_other(alloc, made, phase, run)
        }
        RecvOp::Switch(path, cases, last) => {
            let phase = switched(run.phase, cases, last);
            let mut bodies = RecvCases::new(alloc);
            for case in cases.as_slice() {
                bodies.push(recv_case(&case.0, chunk_ops(alloc, &case.1, run.phase)?))?;
            }
            let other = match last {
                Some(body) => Some(chunk_ops(alloc, body, run.phase)?),
                None => None,
            };
            let made = RecvOp::switch(alloc, copy_path(alloc, path)?, bodies, other)?;
            put_other(alloc, made, phase, run)
        }
        RecvOp::Some(path, body) => {
            let phase = perhaps(run.phase, body);
            let inner = chunk_ops(alloc, body, run.phase)?;
            let made = RecvOp::Some(copy_path(alloc, path)?, inner);
            put_other(alloc, made, phase, run)
        }
        RecvOp::Call(k, path) => {
            let same = RecvOp::Call(*k, copy_path(alloc, path)?);
            put_other(alloc, same, unknown(), run)
        }
    }
}

/// The codes that calls name, each from any place on.
fn chunk_subs(alloc: Global, subs: &RecvSubs) -> Result<RecvSubs, NoMemory>
    ensures { IfOk result (λ ss. map code_seen ss
        ≡ map (λ s. chunked unknown 0 [] 0 (code_seen s)) subs.now) }
{
    let mut made = RecvSubs::new(alloc);
    for sub in subs.as_slice() {
        made.push(chunk_ops(alloc, sub, unknown())?)?;
    }
    Ok(made)
}

/// The code with one test in the place of tests, and one take in the place of takes, that stand together, where it
/// begins at a position of the phase. Skips of a known number of octets are among them; what they test is read.
pub fn chunk_recv(alloc: Global, code: &RecvCode, phase: Phase) -> Result<RecvCode, NoMemory>
    requires phase { IsPhase phase }
    // What it keeps, wherever the given code does not stray.
    ensures same { IfOk result (λ c. ReceivesAsAt (AtPhase phase) code.now c) }
    ensures sound { IfOk result (λ c. IsSoundAsAt (AtPhase phase) code.now c) }
    ensures others { IfOk result (λ c. KeepsOtherRecvs code.now c) }
    // What it bounds.
    ensures few { IfOk result (λ c. RunsTestFew 7 c) }
    // What it changes.
    ensures chunked { IfOk result (λ c. IsRecvChunked phase code.now c) }
{
    Ok(RecvCode {
        ops: chunk_ops(alloc, &code.ops, phase)?,
        subs: chunk_subs(alloc, &code.subs)?,
    })
}
