//! What is known behind code that receives, of what is known before it.

ghost use Rattle.std.specs.Prelude.{◌≡◌};
ghost use Rattle.cast_stub.specs.RecvBlock.{Recv, op_seen, code_seen, cases_seen};
ghost use Rattle.chunker.specs.RecvLeft.{leave, looped, perhaps, switched};
ghost use Rattle.chunker.specs.Phases.{IsPhase};

use crate::leaving::{leave_align, meet_end, or_unknown};
use crate::phase::{Phase, by_fours, meet, shift, unknown};
use cast_stub::{RecvCases, RecvLast, RecvOp, RecvOps};

/// Behind operations.
#[cycle(leave)]
pub(crate) fn leave(ops: &RecvOps, phase: Phase) -> Phase
    requires phase { IsPhase phase }
    ensures is { result ≡ leave phase (code_seen ops.now) }
    ensures phase { IsPhase result }
{
    let mut end = phase;
    for op in ops.as_slice() {
        end = leave_op(op, end);
    }
    end
}

/// Behind an operation.
#[cycle(leave)]
#[tactic(auto, using(crate::proofs::RecvPieces::leaving))]
fn leave_op(op: &RecvOp, phase: Phase) -> Phase
    requires phase { IsPhase phase }
    ensures is { (r : Recv) → leave phase (op_seen op.now r) ≡ leave result r }
    ensures phase { IsPhase result }
{
    match op {
        RecvOp::Need(_) => phase,
        RecvOp::NeedRow(_, _, _) => phase,
        RecvOp::SkipAny(a) => leave_align(*a, phase),
        RecvOp::SkipZero(a) => leave_align(*a, phase),
        RecvOp::Take(size, _) => shift(phase, *size),
        RecvOp::Desc(_, _, _, _) => unknown(),
        RecvOp::Row(_, _) => unknown(),
        RecvOp::RowWide(_, _) => by_fours(phase),
        RecvOp::Each(_, body) => meet(phase, leave(body, unknown())),
        RecvOp::Switch(_, cases, last) => switched(phase, cases, last),
        RecvOp::Some(_, body) => meet(phase, leave(body, phase)),
        RecvOp::Call(_, _) => unknown(),
    }
}

/// Behind a switch.
#[cycle(leave)]
pub(crate) fn switched(phase: Phase, cases: &RecvCases, last: &RecvLast) -> Phase
    requires phase { IsPhase phase }
    ensures is { result ≡ switched phase (cases_seen cases.now last.now) }
    ensures phase { IsPhase result }
{
    let mut end = None;
    for case in cases.as_slice() {
        end = Some(meet_end(end, leave(&case.1, phase)));
    }
    match last {
        Some(body) => meet_end(end, leave(body, phase)),
        None => or_unknown(end),
    }
}

/// Before each turn of a loop, and behind the last.
pub(crate) fn looped(phase: Phase, body: &RecvOps) -> Phase
    ensures is { result ≡ looped phase (code_seen body.now) }
    ensures phase { IsPhase result }
{
    let turn = leave(body, unknown());
    meet(phase, turn)
}

/// Behind a body that may be run.
pub(crate) fn perhaps(phase: Phase, body: &RecvOps) -> Phase
    requires phase { IsPhase phase }
    ensures is { result ≡ perhaps phase (code_seen body.now) }
    ensures phase { IsPhase result }
{
    meet(phase, leave(body, phase))
}
