//! What replaces a loop of code that receives over a row or text.

ghost use Rattle.std.specs.Prelude.{◌≡◌, Some, OnOk, IfOk};
ghost use Rattle.mint.specs.Types.{row_of};
ghost use Rattle.cast_stub.specs.Layouts.{order_of, element_width};
ghost use Rattle.cast_stub.specs.RecvAppend.{append};
ghost use Rattle.cast_stub.specs.RecvBlock.{finish, need_row, row_block, op_seen, code_seen};
ghost use Rattle.cast_stub.specs.Traces.{descs};
ghost use Rattle.copy_inline.specs.RecvRowed.{array_rowed};

use crate::sorts::{Sort, sort_of};
use cast_stub::copies::copy_path;
use cast_stub::layouts::{order_of, width_of};
use cast_stub::recv_copying::{add, gets_after};
use cast_stub::{Gets, Path, RecvOp, RecvOps};
use kit_base::NoMemory;
use mint::kind::{Count, Kind};
use std::alloc::Global;
use wire_def::Encoding;

/// One test of a text's octets, and the text, after the operations of `out`.
#[tactic(auto, using(crate::proofs::RecvRowEmitting::emitting))]
pub(crate) fn put_text(
    alloc: Global,
    enc: Encoding,
    path: &Path,
    out: &mut RecvOps,
) -> Result<(), NoMemory>
    ensures { OnOk result (code_seen out.new
        ≡ append (code_seen out.old) (need_row path.now 1 0 (row_block path.now (order_of enc) finish))) }
{
    let text = RecvOp::Row(copy_path(alloc, path)?, order_of(enc));
    put_tested(alloc, path, 1, text, out)
}

/// One test of the octets of a row at a path, of numbers of a width, and the operation that takes them,
/// after the operations of `out`.
fn put_tested(
    alloc: Global,
    path: &Path,
    width: u32,
    row: RecvOp,
    out: &mut RecvOps,
) -> Result<(), NoMemory>
    ensures { OnOk result
        (code_seen out.new ≡ append (code_seen out.old) (need_row path.now width 0 (op_seen row finish))) }
{
    add(out, RecvOp::NeedRow(copy_path(alloc, path)?, width, 0))?;
    add(out, row)
}

/// What replaces a loop over a row, after the operations of `out`.
#[tactic(auto, using(crate::proofs::RecvRowEmitting::emitting))]
pub(crate) fn put_row(
    alloc: Global,
    enc: Encoding,
    kind: Kind,
    count: Count,
    path: &Path,
    body: &RecvOps,
    out: &mut RecvOps,
) -> Result<(), NoMemory>
    requires { descs (code_seen body.now) ≡ Some 0 }
    ensures { OnOk result (code_seen out.new
        ≡ append (code_seen out.old)
        (array_rowed enc (row_of kind count) path.now (code_seen body.now) finish)) }
{
    let order = order_of(enc);
    let width = element_width(enc, kind);
    match sort_of(enc, kind, count) {
        Sort::Block => {
            let row = RecvOp::Row(copy_path(alloc, path)?, order);
            put_tested(alloc, path, width, row, out)
        }
        Sort::Wide => {
            let row = RecvOp::RowWide(copy_path(alloc, path)?, order);
            put_tested(alloc, path, width, row, out)
        }
        Sort::Looped => {
            let turn = copy_turn(alloc, body)?;
            add(out, RecvOp::Each(copy_path(alloc, path)?, turn))
        }
    }
}

/// The octets of a number of a row.
#[tactic(auto, using(crate::proofs::RecvRowEmitting::emitting))]
fn element_width(enc: Encoding, kind: Kind) -> u32
    ensures { (c : Count) → result ≡ element_width enc (row_of kind c) }
{
    if kind == Kind::Octet {
        1
    } else {
        width_of(enc, kind)
    }
}

/// The same gets.
#[tactic(auto, using(crate::proofs::RecvRowEmitting::copied))]
pub(crate) fn copy_gets(alloc: Global, gets: &Gets) -> Result<Gets, NoMemory>
    ensures { IfOk result (λ gs. gs ≡ gets.now) }
{
    gets_after(alloc, &Path::new(alloc), gets)
}

/// The same tests, skips and takes.
#[tactic(auto, using(crate::proofs::RecvRowEmitting::emitting))]
fn copy_turn(alloc: Global, ops: &RecvOps) -> Result<RecvOps, NoMemory>
    requires { descs (code_seen ops.now) ≡ Some 0 }
    ensures { IfOk result (λ os. code_seen os ≡ code_seen ops.now) }
{
    let mut out = RecvOps::new(alloc);
    for op in ops.as_slice() {
        put_copy(alloc, op, &mut out)?;
    }
    Ok(out)
}

/// The same test, skip or take, after the operations of `out`.
#[tactic(auto, using(crate::proofs::RecvRowEmitting::emitting))]
fn put_copy(alloc: Global, op: &RecvOp, out: &mut RecvOps) -> Result<(), NoMemory>
    requires { descs (op_seen op.now finish) ≡ Some 0 }
    ensures { OnOk result (code_seen out.new ≡ append (code_seen out.old) (op_seen op.now finish)) }
{
    match op {
        RecvOp::Need(n) => add(out, RecvOp::Need(*n)),
        RecvOp::SkipAny(a) => add(out, RecvOp::SkipAny(*a)),
        RecvOp::SkipZero(a) => add(out, RecvOp::SkipZero(*a)),
        RecvOp::Take(size, gets) => add(out, RecvOp::Take(*size, copy_gets(alloc, gets)?)),
        RecvOp::NeedRow(_, _, _)
        | RecvOp::Desc(_, _, _, _)
        | RecvOp::Row(_, _)
        | RecvOp::RowWide(_, _)
        | RecvOp::Each(_, _)
        | RecvOp::Switch(_, _, _)
        | RecvOp::Some(_, _)
        | RecvOp::Call(_, _) => unreachable!(),
    }
}
