//! What is known behind code, of what is known before it.

ghost use Rattle.std.specs.Prelude.{◌≡◌, IfSome};
ghost use Rattle.cast_stub.specs.Block.{Block, op_seen, code_seen, cases_seen};
ghost use Rattle.chunker.specs.Left.{leave, looped, perhaps, switched, meet_end, or_unknown, cases_leave};
ghost use Rattle.chunker.specs.Phases.{IsPhase, aligned};

use crate::phase::{Phase, at_multiple, by_fours, gap, is_known, is_width, meet, shift, unknown};
use cast_stub::{SendCases, SendLast, SendOp, SendOps};

/// Behind operations.
#[cycle(leave)]
pub(crate) fn leave(ops: &SendOps, phase: Phase) -> Phase
    requires phase { IsPhase phase }
    ensures is { result ≡ leave phase (code_seen ops.now) }
    ensures phase { IsPhase result }
{
    let mut end = phase;
    for op in ops.as_slice() {
        end = leave_op(op, end);
    }
    end
}

/// Behind an operation.
#[cycle(leave)]
#[tactic(auto, using(crate::proofs::Pieces::leaving))]
fn leave_op(op: &SendOp, phase: Phase) -> Phase
    requires phase { IsPhase phase }
    ensures is { (r : Block) → leave phase (op_seen op.now r) ≡ leave result r }
    ensures phase { IsPhase result }
{
    match op {
        SendOp::Ensure(_) => phase,
        SendOp::EnsureRow(_, _, _) => phase,
        SendOp::Align(a) => leave_align(*a, phase),
        SendOp::Chunk(size, _) => shift(phase, *size),
        SendOp::RowCopy(_) => unknown(),
        SendOp::RowSwap(_) => unknown(),
        SendOp::RowWide(_, _) => by_fours(phase),
        SendOp::Each(_, body) => meet(phase, leave(body, unknown())),
        SendOp::Switch(_, cases, last) => switched(phase, cases, last),
        SendOp::Some(_, body) => meet(phase, leave(body, phase)),
        SendOp::Call(_, _) => unknown(),
        SendOp::Patch(_, _, _) => phase,
    }
}

/// Behind a switch.
#[cycle(leave)]
pub(crate) fn switched(phase: Phase, cases: &SendCases, last: &SendLast) -> Phase
    requires phase { IsPhase phase }
    ensures is { result ≡ switched phase (cases_seen cases.now last.now) }
    ensures phase { IsPhase result }
{
    let mut end = None;
    for case in cases.as_slice() {
        end = Some(meet_end(end, leave(&case.1, phase)));
    }
    match last {
        Some(body) => meet_end(end, leave(body, phase)),
        None => or_unknown(end),
    }
}

/// Behind zeros up to a multiple.
pub(crate) fn leave_align(a: u32, phase: Phase) -> Phase
    requires phase { IsPhase phase }
    ensures is { result ≡ aligned phase a }
    ensures phase { IsPhase result }
{
    if !is_width(a) {
        return phase;
    }
    if is_known(phase, a) {
        shift(phase, gap(phase.r, a))
    } else {
        at_multiple(a)
    }
}

/// What two ends say, or one where there is no other.
pub(crate) fn meet_end(end: Option<Phase>, phase: Phase) -> Phase
    requires phase { IsPhase phase }
    ensures is { result ≡ meet_end end phase }
    ensures phase { IsPhase result }
{
    match end {
        Some(other) => meet(other, phase),
        None => phase,
    }
}

/// An end, or nothing where there is none.
pub(crate) fn or_unknown(end: Option<Phase>) -> Phase
    requires end { IfSome end IsPhase }
    ensures is { result ≡ or_unknown end }
    ensures phase { IsPhase result }
{
    match end {
        Some(phase) => phase,
        None => unknown(),
    }
}

/// Before each turn of a loop, and behind the last.
pub(crate) fn looped(phase: Phase, body: &SendOps) -> Phase
    ensures is { result ≡ looped phase (code_seen body.now) }
    ensures phase { IsPhase result }
{
    let turn = leave(body, unknown());
    meet(phase, turn)
}

/// Behind a body that may be run.
pub(crate) fn perhaps(phase: Phase, body: &SendOps) -> Phase
    requires phase { IsPhase phase }
    ensures is { result ≡ perhaps phase (code_seen body.now) }
    ensures phase { IsPhase result }
{
    meet(phase, leave(body, phase))
}
