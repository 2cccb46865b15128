//! A row operation in the place of each loop of code that receives over a row or text that travels as a
//! block or wide.

ghost use Rattle.std.specs.Prelude.{◌≡◌, ◌<◌, [], length, OnOk, IfOk};
ghost use Rattle.mint.specs.Types.{type_at, unfolded, others_at, ArmsBelow, IsBelow};
ghost use Rattle.wire_def.specs.Places.{IsPlace};
ghost use Rattle.cast_stub.specs.Kept.{StaysSoundAt};
ghost use Rattle.cast_stub.specs.RecvAppend.{append};
ghost use Rattle.cast_stub.specs.RecvBlock.{finish, op_seen, code_seen, cases_seen};
ghost use Rattle.copy_inline.specs.RecvCallFree.{HasNoCall};
ghost use Rattle.cast_stub.specs.PartTypes.{ty_at, present_at, arms_at};
ghost use Rattle.copy_inline.specs.Ready.{OfType};
ghost use Rattle.copy_inline.specs.RecvReady.{LoopIs, IsReady, CasesReady};
ghost use Rattle.copy_inline.specs.RecvRowBodies.{ArmsReady, AreRowed, IsRowedBody};
ghost use Rattle.copy_inline.specs.Rowed.{by_type};
ghost use Rattle.copy_inline.specs.RecvRowed.{loop_rowed, rowed, cases_rowed};
ghost use Rattle.copy_inline.specs.RecvRows.{GivesTheSame, IsGiven, IsRowed};

use crate::recv_arrays::{copy_gets, put_row, put_text};
use cast_stub::copies::copy_path;
use cast_stub::recv_copying::add;
use cast_stub::{Path, RecvCases, RecvCode, RecvLast, RecvOp, RecvOps, RecvSubs};
use hoist::node_at;
use kit_base::NoMemory;
use mint::node::{Arms, Node};
use mint::table::{Mint, NodeId};
use std::alloc::Global;
use wire_def::Encoding;

/// The operations, with their rows as blocks, for a value of the node.
#[cycle(rows)]
#[tactic(auto, using(crate::proofs::RecvRowEmitting::emitting))]
fn rows_ops(
    alloc: Global,
    enc: Encoding,
    mint: &Mint,
    id: NodeId,
    ops: &RecvOps,
) -> Result<RecvOps, NoMemory>
    requires id { id < length mint.now }
    requires ready { IsReady enc (type_at mint.now id) (code_seen ops.now) }
    ensures { IfOk result (λ os. code_seen os ≡ rowed enc (type_at mint.now id) (code_seen ops.now)) }
{
    let mut out = RecvOps::new(alloc);
    for op in ops.as_slice() {
        put_op(alloc, enc, mint, id, op, &mut out)?;
    }
    Ok(out)
}

/// The operation, or what replaces it, after those of `out`.
#[cycle(rows)]
#[tactic(auto, using(crate::proofs::RecvRowEmitting::emitting))]
fn put_op(
    alloc: Global,
    enc: Encoding,
    mint: &Mint,
    id: NodeId,
    op: &RecvOp,
    out: &mut RecvOps,
) -> Result<(), NoMemory>
    requires id { id < length mint.now }
    requires ready { IsReady enc (type_at mint.now id) (op_seen op.now finish) }
    ensures { OnOk result (code_seen out.new
        ≡ append (code_seen out.old) (rowed enc (type_at mint.now id) (op_seen op.now finish))) }
{
    match op {
        RecvOp::Need(n) => add(out, RecvOp::Need(*n)),
        RecvOp::SkipAny(a) => add(out, RecvOp::SkipAny(*a)),
        RecvOp::SkipZero(a) => add(out, RecvOp::SkipZero(*a)),
        RecvOp::Take(size, gets) => add(out, RecvOp::Take(*size, copy_gets(alloc, gets)?)),
        RecvOp::Desc(path, name, size, mul) => {
            add(
                out,
                RecvOp::Desc(copy_path(alloc, path)?, *name, *size, *mul),
            )
        }
        RecvOp::Each(path, body) => put_loop(alloc, enc, mint, id, path, body, out),
        RecvOp::Some(path, body) => {
            let inner = some_body(alloc, enc, mint, id, path, body)?;
            add(out, RecvOp::Some(copy_path(alloc, path)?, inner))
        }
        RecvOp::Switch(path, cases, last) => {
            let (bodies, other) = switch_bodies(alloc, enc, mint, id, path, cases, last)?;
            let same = copy_path(alloc, path)?;
            add(out, RecvOp::switch(alloc, same, bodies, other)?)
        }
        RecvOp::NeedRow(_, _, _) | RecvOp::Row(_, _) | RecvOp::RowWide(_, _) | RecvOp::Call(_, _) =>
            unreachable!(),
    }
}

/// What replaces a loop over the part at a path, after the operations of `out`.
#[cycle(rows)]
#[tactic(auto, using(crate::proofs::RecvRowEmitting::emitting))]
fn put_loop(
    alloc: Global,
    enc: Encoding,
    mint: &Mint,
    id: NodeId,
    path: &Path,
    body: &RecvOps,
    out: &mut RecvOps,
) -> Result<(), NoMemory>
    requires id { id < length mint.now }
    requires ready { LoopIs enc (ty_at path.now (type_at mint.now id)) (code_seen body.now)
        (λ u. IsReady enc u (code_seen body.now)) }
    ensures { OnOk result (code_seen out.new
        ≡ append (code_seen out.old) (loop_rowed enc (ty_at path.now (type_at mint.now id)) path.now
        (code_seen body.now) (λ u. rowed enc u (code_seen body.now)) finish)) }
{
    let Some(part) = node_at(mint, id, path.as_slice()) else {
        unreachable!()
    };
    let Some(node) = mint.node(part) else {
        unreachable!()
    };
    match node {
        Node::Text(_) => put_text(alloc, enc, path, out),
        Node::Row(kind, count) => put_row(alloc, enc, *kind, *count, path, body, out),
        Node::Items(item, _) => {
            let inner = rows_ops(alloc, enc, mint, *item, body)?;
            add(out, RecvOp::Each(copy_path(alloc, path)?, inner))
        }
        Node::Void
        | Node::Num(_)
        | Node::Enum(_)
        | Node::Group(_)
        | Node::Choice(_, _, _)
        | Node::Maybe(_) => unreachable!(),
    }
}

/// The body for a value that may be there.
#[cycle(rows)]
#[tactic(auto, using(crate::proofs::RecvRowEmitting::emitting))]
fn some_body(
    alloc: Global,
    enc: Encoding,
    mint: &Mint,
    id: NodeId,
    path: &Path,
    body: &RecvOps,
) -> Result<RecvOps, NoMemory>
    requires id { id < length mint.now }
    requires ready { OfType (present_at path.now (type_at mint.now id))
        (λ u. IsReady enc u (code_seen body.now)) }
    ensures { IfOk result (λ b. code_seen b ≡ by_type (present_at path.now (type_at mint.now id))
        (code_seen body.now) (λ u. rowed enc u (code_seen body.now))) }
{
    let Some(part) = node_at(mint, id, path.as_slice()) else {
        unreachable!()
    };
    let Some(Node::Maybe(item)) = mint.node(part) else {
        unreachable!()
    };
    rows_ops(alloc, enc, mint, *item, body)
}

/// The bodies of a switch, and that of every other number.
#[cycle(rows)]
#[tactic(auto, using(crate::proofs::RecvRowEmitting::emitting))]
fn switch_bodies(
    alloc: Global,
    enc: Encoding,
    mint: &Mint,
    id: NodeId,
    path: &Path,
    cases: &RecvCases,
    last: &RecvLast,
) -> Result<(RecvCases, Option<RecvOps>), NoMemory>
    requires id { id < length mint.now }
    requires ready { OfType (arms_at path.now (type_at mint.now id))
        (λ arms. CasesReady enc arms (cases_seen cases.now last.now)) }
    ensures { IfOk result (λ b. cases_seen b.0 b.1
        ≡ by_type (arms_at path.now (type_at mint.now id)) (cases_seen cases.now last.now)
        (λ arms. cases_rowed enc arms (cases_seen cases.now last.now))) }
{
    let Some(part) = node_at(mint, id, path.as_slice()) else {
        unreachable!()
    };
    let Some(Node::Choice(_, arms, other)) = mint.node(part) else {
        unreachable!()
    };
    let bodies = rows_cases(alloc, enc, mint, part, arms, cases)?;
    let rest = rows_last(alloc, enc, mint, part, *other, last)?;
    Ok((bodies, rest))
}

/// The bodies of arms, each by itself.
#[cycle(rows)]
#[tactic(auto, using(crate::proofs::RecvRowEmitting::emitting))]
fn rows_cases(
    alloc: Global,
    enc: Encoding,
    mint: &Mint,
    id: NodeId,
    arms: &Arms,
    cases: &RecvCases,
) -> Result<RecvCases, NoMemory>
    requires id { id < length mint.now }
    requires arms { ArmsBelow id arms.now }
    requires ready { ArmsReady enc (unfolded mint.now) arms.now cases.now }
    ensures { IfOk result (λ bodies. AreRowed enc (unfolded mint.now) arms.now cases.now bodies) }
{
    let arms = arms.as_slice();
    let cases = cases.as_slice();
    let mut bodies = RecvCases::new(alloc);
    for i in 0..cases.len() {
        bodies.push(rows_case(alloc, enc, mint, id, &arms[i], &cases[i])?)?;
    }
    Ok(bodies)
}

/// The body of an arm.
#[cycle(rows)]
#[tactic(auto, using(crate::proofs::RecvRowEmitting::emitting))]
fn rows_case(
    alloc: Global,
    enc: Encoding,
    mint: &Mint,
    id: NodeId,
    arm: &(i128, NodeId),
    case: &(i128, RecvOps),
) -> Result<(i128, RecvOps), NoMemory>
    requires id { id < length mint.now }
    requires arm { arm.now.1 < id }
    requires ready { IsReady enc (type_at mint.now arm.now.1) (code_seen case.now.1) }
    ensures { IfOk result (λ body. IsRowedBody enc (type_at mint.now arm.now.1) case.now body) }
{
    Ok((case.0, rows_ops(alloc, enc, mint, arm.1, &case.1)?))
}

/// The body of every other number.
#[cycle(rows)]
#[tactic(auto, using(crate::proofs::RecvRowEmitting::emitting))]
fn rows_last(
    alloc: Global,
    enc: Encoding,
    mint: &Mint,
    id: NodeId,
    other: Option<NodeId>,
    last: &RecvLast,
) -> Result<Option<RecvOps>, NoMemory>
    requires id { id < length mint.now }
    requires other { IsBelow id other }
    requires ready { CasesReady enc (others_at (unfolded mint.now) other) (cases_seen [] last.now) }
    ensures { IfOk result (λ rest. cases_seen [] rest
        ≡ cases_rowed enc (others_at (unfolded mint.now) other) (cases_seen [] last.now)) }
{
    match last {
        Some(body) => match other {
            Some(child) => Ok(Some(rows_ops(alloc, enc, mint, child, body)?)),
            None => unreachable!(),
        },
        None => Ok(None),
    }
}

/// The code with a row operation in the place of each loop over a row or text that travels as a block or
/// wide, for a value of the node over the encoding. The code is what `inline_recv` gives for the node, with
/// one shape of loops over numbers. One test of all octets of such a row is made in the place of one a
/// number.
pub fn rows_recv(
    alloc: Global,
    enc: Encoding,
    code: &RecvCode,
    mint: &Mint,
    id: NodeId,
) -> Result<RecvCode, NoMemory>
    requires id { id < length mint.now }
    requires given { IsGiven enc (type_at mint.now id) code.now }
    // What it keeps.
    ensures same { IfOk result (λ r. GivesTheSame (type_at mint.now id) code.now r) }
    ensures sound { IfOk result (λ r. StaysSoundAt (IsPlace enc) enc (type_at mint.now id) code.now r) }
    ensures subs { IfOk result (λ r. r.subs ≡ []) }
    ensures calls { IfOk result (λ r. HasNoCall (code_seen r.ops)) }
    // What it changes.
    ensures rowed { IfOk result (λ r. IsRowed enc (type_at mint.now id) code.now r) }
{
    Ok(RecvCode {
        ops: rows_ops(alloc, enc, mint, id, &code.ops)?,
        subs: RecvSubs::new(alloc),
    })
}
