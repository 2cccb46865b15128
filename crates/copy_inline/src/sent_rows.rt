//! A row operation in the place of each loop over a row or text that travels as a block or wide.

ghost use Rattle.std.specs.Prelude.{◌≡◌, ◌<◌, [], length, OnOk, IfOk};
ghost use Rattle.mint.specs.Types.{type_at, unfolded, others_at, row_of, ArmsBelow, IsBelow};
ghost use Rattle.cast_stub.specs.Append.{append};
ghost use Rattle.cast_stub.specs.Block.{stop, op_seen, code_seen, cases_seen};
ghost use Rattle.cast_stub.specs.CallFree.{HasNoCall};
ghost use Rattle.cast_stub.specs.Kept.{Anywhere, ChecksTheSame, SendsTheSameAt, StaysCoveredAt};
ghost use Rattle.cast_stub.specs.PartTypes.{ty_at, present_at, arms_at};
ghost use Rattle.copy_inline.specs.Ready.{OfType, LoopIs, IsReady, CasesReady};
ghost use Rattle.copy_inline.specs.RowBodies.{ArmsReady, AreRowed, IsRowedBody};
ghost use Rattle.copy_inline.specs.Rowed.{array_rowed, row_or_loop, loop_rowed, by_type, rowed, cases_rowed};
ghost use Rattle.copy_inline.specs.Sorts.{is_image};
ghost use Rattle.copy_inline.specs.Rows.{GivesBlocks, IsGiven, IsRowed};

use crate::sorts::{Sort, sort_of};
use cast_stub::copying::add;
use cast_stub::layouts::order_of;
use cast_stub::{Path, SendCases, SendCode, SendLast, SendOp, SendOps, SendSubs};
use hoist::node_at;
use kit_base::NoMemory;
use mint::kind::{Count, Kind};
use mint::node::{Arms, Node};
use mint::table::{Mint, NodeId};
use std::alloc::Global;
use wire_def::{Encoding, Order};

/// The operations, with their rows as blocks, for a value of the node.
#[cycle(rows)]
#[tactic(auto, using(crate::proofs::RowEmitting::emitting))]
fn rows_ops(
    alloc: Global,
    enc: Encoding,
    mint: &Mint,
    id: NodeId,
    ops: SendOps,
) -> Result<SendOps, NoMemory>
    requires id { id < length mint.now }
    requires ready { IsReady enc (type_at mint.now id) (code_seen ops) }
    ensures { IfOk result (λ os. code_seen os ≡ rowed enc (type_at mint.now id) (code_seen ops)) }
{
    let mut out = SendOps::with_room(alloc, ops.len())?;
    for op in ops.into_items() {
        put_op(alloc, enc, mint, id, op, &mut out)?;
    }
    Ok(out)
}

/// The operation, or what replaces it, after those of `out`.
#[cycle(rows)]
#[tactic(auto, using(crate::proofs::RowEmitting::emitting))]
fn put_op(
    alloc: Global,
    enc: Encoding,
    mint: &Mint,
    id: NodeId,
    op: SendOp,
    out: &mut SendOps,
) -> Result<(), NoMemory>
    requires id { id < length mint.now }
    requires ready { IsReady enc (type_at mint.now id) (op_seen op stop) }
    ensures { OnOk result (code_seen out.new
        ≡ append (code_seen out.old) (rowed enc (type_at mint.now id) (op_seen op stop))) }
{
    match op {
        SendOp::Ensure(n) => add(out, SendOp::Ensure(n)),
        SendOp::EnsureRow(path, unit, extra) => add(out, SendOp::EnsureRow(path, unit, extra)),
        SendOp::Align(a) => add(out, SendOp::Align(a)),
        SendOp::Chunk(size, puts) => add(out, SendOp::Chunk(size, puts)),
        SendOp::Patch(at, sub, order) => add(out, SendOp::Patch(at, sub, order)),
        SendOp::Each(path, body) => {
            let looped = loop_op(alloc, enc, mint, id, path, body)?;
            add(out, looped)
        }
        SendOp::Some(path, body) => {
            let inner = some_body(alloc, enc, mint, id, &path, body)?;
            add(out, SendOp::Some(path, inner))
        }
        SendOp::Switch(path, cases, last) => {
            let cases = cases.into_value();
            let (bodies, other) = switch_bodies(alloc, enc, mint, id, &path, cases, last)?;
            add(out, SendOp::switch(alloc, path, bodies, other)?)
        }
        SendOp::RowCopy(_) | SendOp::RowSwap(_) | SendOp::RowWide(_, _) | SendOp::Call(_, _) => {
            unreachable!()
        }
    }
}

/// What replaces a loop over the part at a path.
#[cycle(rows)]
#[tactic(auto, using(crate::proofs::RowEmitting::emitting))]
fn loop_op(
    alloc: Global,
    enc: Encoding,
    mint: &Mint,
    id: NodeId,
    path: Path,
    body: SendOps,
) -> Result<SendOp, NoMemory>
    requires id { id < length mint.now }
    requires ready { LoopIs enc (ty_at path (type_at mint.now id)) (code_seen body)
        (λ u. IsReady enc u (code_seen body)) }
    ensures { IfOk result (λ o. op_seen o stop ≡ loop_rowed enc (ty_at path (type_at mint.now id))
        path (code_seen body) (λ u. rowed enc u (code_seen body)) stop) }
{
    let Some(part) = node_at(mint, id, path.as_slice()) else {
        unreachable!()
    };
    let Some(node) = mint.node(part) else {
        unreachable!()
    };
    match node {
        Node::Text(_) => Ok(SendOp::RowCopy(path)),
        Node::Row(kind, count) => Ok(row_op(enc, *kind, *count, path, body)),
        Node::Items(item, _) => {
            let inner = rows_ops(alloc, enc, mint, *item, body)?;
            Ok(SendOp::Each(path, inner))
        }
        Node::Void
        | Node::Num(_)
        | Node::Enum(_)
        | Node::Group(_)
        | Node::Choice(_, _, _)
        | Node::Maybe(_) => unreachable!(),
    }
}

/// What replaces a loop over a row.
#[tactic(auto, using(crate::proofs::RowEmitting::emitting))]
fn row_op(enc: Encoding, kind: Kind, count: Count, path: Path, body: SendOps) -> SendOp
    ensures { op_seen result stop ≡ array_rowed enc (row_of kind count) path (code_seen body) stop }
{
    let order = order_of(enc);
    match sort_of(enc, kind, count) {
        Sort::Block => block_op(order, kind, path),
        Sort::Wide => SendOp::RowWide(path, order),
        Sort::Looped => SendOp::Each(path, body),
    }
}

/// A row as it is, or with the octets of each number reversed.
#[tactic(auto, using(crate::proofs::RowEmitting::emitting))]
fn block_op(order: Order, kind: Kind, path: Path) -> SendOp
    ensures { op_seen result stop ≡ row_or_loop Sort.Block (is_image order kind) order path stop stop }
{
    if order == Order::Little || kind.width() == 1 {
        SendOp::RowCopy(path)
    } else {
        SendOp::RowSwap(path)
    }
}

/// The body for a value that may be there.
#[cycle(rows)]
#[tactic(auto, using(crate::proofs::RowEmitting::emitting))]
fn some_body(
    alloc: Global,
    enc: Encoding,
    mint: &Mint,
    id: NodeId,
    path: &Path,
    body: SendOps,
) -> Result<SendOps, NoMemory>
    requires id { id < length mint.now }
    requires ready { OfType (present_at path.now (type_at mint.now id))
        (λ u. IsReady enc u (code_seen body)) }
    ensures { IfOk result (λ b. code_seen b ≡ by_type (present_at path.now (type_at mint.now id))
        (code_seen body) (λ u. rowed enc u (code_seen body))) }
{
    let Some(part) = node_at(mint, id, path.as_slice()) else {
        unreachable!()
    };
    let Some(Node::Maybe(item)) = mint.node(part) else {
        unreachable!()
    };
    rows_ops(alloc, enc, mint, *item, body)
}

/// The bodies of a switch, and that of every other number.
#[cycle(rows)]
#[tactic(auto, using(crate::proofs::RowEmitting::emitting))]
fn switch_bodies(
    alloc: Global,
    enc: Encoding,
    mint: &Mint,
    id: NodeId,
    path: &Path,
    cases: SendCases,
    last: SendLast,
) -> Result<(SendCases, Option<SendOps>), NoMemory>
    requires id { id < length mint.now }
    requires ready { OfType (arms_at path.now (type_at mint.now id))
        (λ arms. CasesReady enc arms (cases_seen cases last)) }
    ensures { IfOk result (λ b. cases_seen b.0 b.1
        ≡ by_type (arms_at path.now (type_at mint.now id)) (cases_seen cases last)
        (λ arms. cases_rowed enc arms (cases_seen cases last))) }
{
    let Some(part) = node_at(mint, id, path.as_slice()) else {
        unreachable!()
    };
    let Some(Node::Choice(_, arms, other)) = mint.node(part) else {
        unreachable!()
    };
    let bodies = rows_cases(alloc, enc, mint, part, arms, cases)?;
    let rest = rows_last(alloc, enc, mint, part, *other, last)?;
    Ok((bodies, rest))
}

/// The bodies of arms, each by itself.
#[cycle(rows)]
#[tactic(auto, using(crate::proofs::RowEmitting::emitting))]
fn rows_cases(
    alloc: Global,
    enc: Encoding,
    mint: &Mint,
    id: NodeId,
    arms: &Arms,
    cases: SendCases,
) -> Result<SendCases, NoMemory>
    requires id { id < length mint.now }
    requires arms { ArmsBelow id arms.now }
    requires ready { ArmsReady enc (unfolded mint.now) arms.now cases }
    ensures { IfOk result (λ bodies. AreRowed enc (unfolded mint.now) arms.now cases bodies) }
{
    let arms = arms.as_slice();
    let mut bodies = SendCases::new(alloc);
    for case in cases.into_entries() {
        let arm = &arms[bodies.len()];
        bodies.push(rows_case(alloc, enc, mint, id, arm, case)?)?;
    }
    Ok(bodies)
}

/// The body of an arm.
#[cycle(rows)]
#[tactic(auto, using(crate::proofs::RowEmitting::emitting))]
fn rows_case(
    alloc: Global,
    enc: Encoding,
    mint: &Mint,
    id: NodeId,
    arm: &(i128, NodeId),
    case: (i128, SendOps),
) -> Result<(i128, SendOps), NoMemory>
    requires id { id < length mint.now }
    requires arm { arm.now.1 < id }
    requires ready { IsReady enc (type_at mint.now arm.now.1) (code_seen case.1) }
    ensures { IfOk result (λ body. IsRowedBody enc (type_at mint.now arm.now.1) case body) }
{
    let (n, body) = case;
    Ok((n, rows_ops(alloc, enc, mint, arm.1, body)?))
}

/// The body of every other number.
#[cycle(rows)]
#[tactic(auto, using(crate::proofs::RowEmitting::emitting))]
fn rows_last(
    alloc: Global,
    enc: Encoding,
    mint: &Mint,
    id: NodeId,
    other: Option<NodeId>,
    last: SendLast,
) -> Result<Option<SendOps>, NoMemory>
    requires id { id < length mint.now }
    requires other { IsBelow id other }
    requires ready { CasesReady enc (others_at (unfolded mint.now) other) (cases_seen [] last) }
    ensures { IfOk result (λ rest. cases_seen [] rest
        ≡ cases_rowed enc (others_at (unfolded mint.now) other) (cases_seen [] last)) }
{
    match last {
        Some(body) => match other {
            Some(child) => Ok(Some(rows_ops(alloc, enc, mint, child, body.into_value())?)),
            None => unreachable!(),
        },
        None => Ok(None),
    }
}

/// The code with a row operation in the place of each loop over a row or text that travels as a block or
/// wide, for a value of the node over the encoding. The code is what `hoist` gives of a lead of chunks,
/// inlined code for the node with one shape of loops over numbers, and at most one patch.
pub fn rows(
    alloc: Global,
    enc: Encoding,
    code: SendCode,
    mint: &Mint,
    id: NodeId,
) -> Result<SendCode, NoMemory>
    requires id { id < length mint.now }
    requires given { IsGiven enc (type_at mint.now id) code }
    // What it keeps.
    ensures same { IfOk result (λ r. SendsTheSameAt Anywhere (type_at mint.now id) code r) }
    ensures covered { IfOk result (λ r. StaysCoveredAt Anywhere (type_at mint.now id) code r) }
    ensures checks { IfOk result (λ r. ChecksTheSame (type_at mint.now id) code r) }
    ensures subs { IfOk result (λ r. r.subs ≡ []) }
    ensures calls { IfOk result (λ r. HasNoCall (code_seen r.ops)) }
    // What it changes.
    ensures rowed { IfOk result (λ r. IsRowed enc (type_at mint.now id) code r) }
    ensures blocks { IfOk result (λ r. GivesBlocks enc (type_at mint.now id) r) }
{
    Ok(SendCode {
        ops: rows_ops(alloc, enc, mint, id, code.ops)?,
        subs: SendSubs::new(alloc),
    })
}
