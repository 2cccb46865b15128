//! Code that ensures nothing.

ghost use Rattle.std.specs.Prelude.{◌≡◌, ◌&&◌, IfOk};
ghost use Rattle.cast_stub.specs.Block.{Block, op_seen, code_seen, cases_seen};
ghost use Rattle.stub_cover.specs.Covers.{is_plain, are_plain};
ghost use Rattle.stub_rooms.specs.CoversLap.{is_plain_lap};

use crate::covers_lap::{Lap, Walk};
use cast_stub::{SendCases, SendLast, SendOp, SendOps};
use kit_base::NoMemory;
use stub_places::spend_op;

/// Whether operations neither ensure nor call, nor does a body of theirs.
#[cycle(plain)]
#[tactic(auto, using(crate::proofs::CoversPieces::seen))]
fn is_plain(ops: &SendOps, walk: &Walk<'_>, left: &mut u64) -> Result<bool, NoMemory>
    ensures { IfOk result (λ b. b ≡ is_plain (code_seen ops.now)) }
{
    let inner = walk.deeper()?;
    for op in ops.as_slice() {
        spend_op(left, op)?;
        let plain = is_plain_op(op, &inner, left)?;
        if !plain {
            return Ok(false);
        }
    }
    Ok(true)
}

/// Whether an operation neither ensures nor calls, nor does a body of it.
#[cycle(plain)]
#[tactic(auto, using(crate::proofs::CoversPieces::seen))]
fn is_plain_op(op: &SendOp, walk: &Walk<'_>, left: &mut u64) -> Result<bool, NoMemory>
    ensures { IfOk result (λ b. (r : Block) → is_plain (op_seen op.now r) ≡ (b && is_plain r)) }
{
    match op {
        SendOp::Ensure(_) => Ok(false),
        SendOp::EnsureRow(_, _, _) => Ok(false),
        SendOp::Align(_) => Ok(true),
        SendOp::Chunk(_, _) => Ok(true),
        SendOp::RowCopy(_) => Ok(true),
        SendOp::RowSwap(_) => Ok(true),
        SendOp::RowWide(_, _) => Ok(true),
        SendOp::Each(_, body) => is_plain(body, walk, left),
        SendOp::Switch(_, cases, last) => are_plain(cases, last, walk, left),
        SendOp::Some(_, body) => is_plain(body, walk, left),
        SendOp::Call(_, _) => Ok(false),
        SendOp::Patch(_, _, _) => Ok(true),
    }
}

/// Whether the bodies of a switch neither ensure nor call.
#[cycle(plain)]
fn are_plain(
    cases: &SendCases,
    last: &SendLast,
    walk: &Walk<'_>,
    left: &mut u64,
) -> Result<bool, NoMemory>
    ensures { IfOk result (λ b. b ≡ are_plain (cases_seen cases.now last.now)) }
{
    for case in cases.as_slice() {
        let plain = is_plain(&case.1, walk, left)?;
        if !plain {
            return Ok(false);
        }
    }
    match last {
        Some(body) => is_plain(body, walk, left),
        None => Ok(true),
    }
}

/// Whether a turn neither ensures nor calls.
pub(crate) fn is_plain_lap(lap: Lap<'_>, walk: &Walk<'_>, left: &mut u64) -> Result<bool, NoMemory>
    ensures { IfOk result (λ b. b ≡ is_plain_lap lap.entry) }
{
    match lap {
        Lap::Octets(_) => Ok(true),
        Lap::Body(body, _) => is_plain(body, walk, left),
    }
}
