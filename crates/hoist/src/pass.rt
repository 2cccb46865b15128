//! The pass: ensures before operations, from the last operation to the first.

ghost use Rattle.std.specs.Prelude.{◌≡◌, ◌<◌, [], length, reverse, IfOk};
ghost use Rattle.mint.specs.Types.{type_at, unfolded, others_at, ArmsBelow, IsBelow};
ghost use Rattle.cast_stub.specs.Block.{stop, op_seen, code_seen, cases_seen};
ghost use Rattle.storage_class.specs.Spans.{AreClasses};
ghost use Rattle.cast_stub.specs.PartTypes.{present_at, arms_at};
ghost use Rattle.cast_stub.specs.Bare.{RowsAreBare};
ghost use Rattle.cast_stub.specs.Rowless.{HasNoRow};
ghost use Rattle.hoist.specs.Pass.{EnsuresRows, IsGiven, IsSparing};
ghost use Rattle.cast_stub.specs.Kept.{ChangesOnlyEnsures, IsCoveredFor, SendsTheSame};
ghost use Rattle.hoist.specs.Hoisted.{closed, hoisted, cases_hoisted, kept, items_at, or_void, or_none, InType, IsTaken, CasesTaken, WhereApart};
ghost use Rattle.hoist.specs.Seen.{AreHoisted, ArmsTaken, IsHoisted, after, plan_seen, span_roles, InFront};

use crate::ahead::{Ahead, Plan, flush, raise, settle};
use crate::parts::node_at;
use crate::plans::{each_plan, some_plan, switch_plan};
use cast_stub::{Path, SendCases, SendCode, SendLast, SendOp, SendOps, SendSubs};
use kit_base::{Boxed, NoMemory};
use mint::node::{Arms, Node};
use mint::table::{Mint, NodeId};
use std::alloc::Global;
use storage_class::Classes;

/// Operations in their order, given from the last to the first.
fn in_order(alloc: Global, back: Vec<SendOp>) -> Result<SendOps, NoMemory>
    ensures { IfOk result (λ ops. ops ≡ reverse back.items) }
{
    let mut rest = back;
    let mut ops = SendOps::with_room(alloc, rest.len())?;
    while let Some(op) = rest.pop() {
        ops.push(op)?;
    }
    Ok(ops)
}

/// The room that operations and their ensures take, of which one at most stands before each, and one before all.
fn room_of(many: usize) -> usize {
    many.saturating_mul(2).saturating_add(1)
}

/// The operations with ensures before them, for a value of the node.
#[cycle(hoist)]
pub(crate) fn hoist_ops(
    alloc: Global,
    mint: &Mint,
    classes: &Classes,
    id: NodeId,
    ops: SendOps,
) -> Result<SendOps, NoMemory>
    requires id { id < length mint.now }
    requires classes { AreClasses mint.now classes.now }
    requires taken { IsTaken (span_roles classes.now.enc) (type_at mint.now id) (code_seen ops) }
    ensures { IfOk result (λ os. code_seen os
        ≡ closed (hoisted (span_roles classes.now.enc) (type_at mint.now id) (code_seen ops))) }
{
    let mut rest = ops.into_items();
    let mut back = Vec::with_capacity(alloc, room_of(rest.len()))?;
    let mut ahead = Ahead::Nothing;
    while let Some(op) = rest.pop() {
        ahead = hoist_op(alloc, mint, classes, id, op, &mut back, ahead)?;
    }
    flush(&mut back, ahead)?;
    in_order(alloc, back)
}

/// An operation before those that were visited.
#[cycle(hoist)]
fn hoist_op(
    alloc: Global,
    mint: &Mint,
    classes: &Classes,
    id: NodeId,
    op: SendOp,
    back: &mut Vec<SendOp>,
    ahead: Ahead,
) -> Result<Ahead, NoMemory>
    requires id { id < length mint.now }
    requires classes { AreClasses mint.now classes.now }
    requires taken { IsTaken (span_roles classes.now.enc) (type_at mint.now id) (op_seen op stop) }
    ensures { IfOk result (λ then. InFront classes.now.enc (type_at mint.now id) op
        (after back.old.items ahead) (after back.new.items then)) }
{
    match op {
        SendOp::Align(a) => {
            back.push(SendOp::Align(a))?;
            raise(ahead, a.saturating_sub(1))
        }
        SendOp::Chunk(size, puts) => {
            back.push(SendOp::Chunk(size, puts))?;
            raise(ahead, size)
        }
        SendOp::Patch(at, sub, order) => {
            back.push(SendOp::Patch(at, sub, order))?;
            Ok(ahead)
        }
        SendOp::Each(path, body) => {
            let plan = each_plan(mint, classes, id, &path, &body)?;
            let inner = each_body(alloc, mint, classes, id, &path, body, plan)?;
            let then = settle(alloc, back, ahead, plan, &path)?;
            back.push(SendOp::Each(path, inner))?;
            Ok(then)
        }
        SendOp::Some(path, body) => {
            let plan = some_plan(mint, classes, id, &path, &body)?;
            let inner = some_body(alloc, mint, classes, id, &path, body, plan)?;
            let then = settle(alloc, back, ahead, plan, &path)?;
            back.push(SendOp::Some(path, inner))?;
            Ok(then)
        }
        SendOp::Switch(path, cases, last) => {
            let plan = switch_plan(mint, classes, id, &path, &cases, &last)?;
            let (bodies, other) = switch_bodies(
                alloc, mint, classes, id, &path, cases, last, plan,
            )?;
            let then = settle(alloc, back, ahead, plan, &path)?;
            back.push(SendOp::Switch(path, bodies, other))?;
            Ok(then)
        }
        SendOp::Ensure(_)
        | SendOp::EnsureRow(_, _, _)
        | SendOp::RowCopy(_)
        | SendOp::RowSwap(_)
        | SendOp::RowWide(_, _)
        | SendOp::Call(_, _) => unreachable!(),
    }
}

/// The body of a loop.
#[cycle(hoist)]
fn each_body(
    alloc: Global,
    mint: &Mint,
    classes: &Classes,
    id: NodeId,
    path: &Path,
    body: SendOps,
    plan: Plan,
) -> Result<SendOps, NoMemory>
    requires id { id < length mint.now }
    requires classes { AreClasses mint.now classes.now }
    requires taken { WhereApart (plan_seen path.now plan) (InType (items_at path.now (type_at mint.now id))
        (λ u. IsTaken (span_roles classes.now.enc) u (code_seen body))) }
    ensures { IfOk result (λ b. code_seen b ≡ kept (plan_seen path.now plan) (code_seen body)
        (closed (hoisted (span_roles classes.now.enc) (or_void (items_at path.now (type_at mint.now id)))
        (code_seen body)))) }
{
    match plan {
        Plan::Small(_, _) | Plan::Loop(_) => Ok(body),
        Plan::Apart => {
            let Some(part) = node_at(mint, id, path.as_slice()) else {
                unreachable!()
            };
            let Some(Node::Items(item, _)) = mint.node(part) else {
                unreachable!()
            };
            hoist_ops(alloc, mint, classes, *item, body)
        }
    }
}

/// The body for a value that may be there.
#[cycle(hoist)]
fn some_body(
    alloc: Global,
    mint: &Mint,
    classes: &Classes,
    id: NodeId,
    path: &Path,
    body: SendOps,
    plan: Plan,
) -> Result<SendOps, NoMemory>
    requires id { id < length mint.now }
    requires classes { AreClasses mint.now classes.now }
    requires taken { WhereApart (plan_seen path.now plan) (InType (present_at path.now (type_at mint.now id))
        (λ u. IsTaken (span_roles classes.now.enc) u (code_seen body))) }
    ensures { IfOk result (λ b. code_seen b ≡ kept (plan_seen path.now plan) (code_seen body)
        (closed (hoisted (span_roles classes.now.enc) (or_void (present_at path.now (type_at mint.now id)))
        (code_seen body)))) }
{
    match plan {
        Plan::Small(_, _) | Plan::Loop(_) => Ok(body),
        Plan::Apart => {
            let Some(part) = node_at(mint, id, path.as_slice()) else {
                unreachable!()
            };
            let Some(Node::Maybe(item)) = mint.node(part) else {
                unreachable!()
            };
            hoist_ops(alloc, mint, classes, *item, body)
        }
    }
}

/// The bodies of a switch, and that of every other number.
#[cycle(hoist)]
fn switch_bodies(
    alloc: Global,
    mint: &Mint,
    classes: &Classes,
    id: NodeId,
    path: &Path,
    cases: Boxed<SendCases>,
    last: SendLast,
    plan: Plan,
) -> Result<(Boxed<SendCases>, SendLast), NoMemory>
    requires id { id < length mint.now }
    requires classes { AreClasses mint.now classes.now }
    requires taken { WhereApart (plan_seen path.now plan) (InType (arms_at path.now (type_at mint.now id))
        (λ arms. CasesTaken (span_roles classes.now.enc) arms (cases_seen cases last))) }
    ensures { IfOk result (λ b. cases_seen b.0 b.1
        ≡ kept (plan_seen path.now plan) (cases_seen cases last)
        (cases_hoisted (span_roles classes.now.enc) (or_none (arms_at path.now (type_at mint.now id)))
        (cases_seen cases last))) }
{
    match plan {
        Plan::Small(_, _) | Plan::Loop(_) => Ok((cases, last)),
        Plan::Apart => {
            let Some(part) = node_at(mint, id, path.as_slice()) else {
                unreachable!()
            };
            let Some(Node::Choice(_, arms, other)) = mint.node(part) else {
                unreachable!()
            };
            let bodies = hoist_cases(alloc, mint, classes, part, arms, cases.into_value())?;
            let rest = hoist_last(alloc, mint, classes, part, *other, last)?;
            Ok((Boxed::new(alloc, bodies)?, rest))
        }
    }
}

/// The bodies of arms, each by itself.
#[cycle(hoist)]
fn hoist_cases(
    alloc: Global,
    mint: &Mint,
    classes: &Classes,
    id: NodeId,
    arms: &Arms,
    cases: SendCases,
) -> Result<SendCases, NoMemory>
    requires id { id < length mint.now }
    requires classes { AreClasses mint.now classes.now }
    requires arms { ArmsBelow id arms.now }
    requires taken { ArmsTaken classes.now.enc (unfolded mint.now) arms.now cases }
    ensures { IfOk result
        (λ bodies. AreHoisted classes.now.enc (unfolded mint.now) arms.now cases bodies) }
{
    let arms = arms.as_slice();
    let mut bodies = SendCases::new(alloc);
    for case in cases.into_entries() {
        let arm = &arms[bodies.len()];
        bodies.push(hoist_case(alloc, mint, classes, id, arm, case)?)?;
    }
    Ok(bodies)
}

/// The body of an arm.
#[cycle(hoist)]
fn hoist_case(
    alloc: Global,
    mint: &Mint,
    classes: &Classes,
    id: NodeId,
    arm: &(i128, NodeId),
    case: (i128, SendOps),
) -> Result<(i128, SendOps), NoMemory>
    requires id { id < length mint.now }
    requires classes { AreClasses mint.now classes.now }
    requires arm { arm.now.1 < id }
    requires taken { IsTaken (span_roles classes.now.enc) (type_at mint.now arm.now.1)
        (code_seen case.1) }
    ensures { IfOk result (λ body. IsHoisted classes.now.enc (type_at mint.now arm.now.1) case body) }
{
    let (n, body) = case;
    Ok((n, hoist_ops(alloc, mint, classes, arm.1, body)?))
}

/// The body of every other number.
#[cycle(hoist)]
fn hoist_last(
    alloc: Global,
    mint: &Mint,
    classes: &Classes,
    id: NodeId,
    other: Option<NodeId>,
    last: SendLast,
) -> Result<SendLast, NoMemory>
    requires id { id < length mint.now }
    requires classes { AreClasses mint.now classes.now }
    requires other { IsBelow id other }
    requires taken { CasesTaken (span_roles classes.now.enc) (others_at (unfolded mint.now) other)
        (cases_seen [] last) }
    ensures { IfOk result (λ rest. cases_seen [] rest
        ≡ cases_hoisted (span_roles classes.now.enc) (others_at (unfolded mint.now) other)
        (cases_seen [] last)) }
{
    match last {
        Some(body) => match other {
            Some(child) => {
                let hoisted = hoist_ops(alloc, mint, classes, child, body.into_value())?;
                Ok(Some(Boxed::new(alloc, hoisted)?))
            }
            None => unreachable!(),
        },
        None => Ok(None),
    }
}

/// Code with ensures before its operations, as few as one for each region of a value. The code
/// is a lead of chunks, inlined code for the node, and at most one patch.
pub fn hoist(
    alloc: Global,
    code: SendCode,
    mint: &Mint,
    id: NodeId,
    classes: &Classes,
) -> Result<SendCode, NoMemory>
    requires id { id < length mint.now }
    requires classes { AreClasses mint.now classes.now }
    requires given { IsGiven (type_at mint.now id) code }
    // What it keeps.
    ensures same { IfOk result (λ r. SendsTheSame code r) }
    ensures adds { IfOk result (λ r. ChangesOnlyEnsures code r) }
    ensures no_row { IfOk result (λ r. HasNoRow r) }
    ensures subs { IfOk result (λ r. r.subs ≡ []) }
    // The room that it ensures.
    ensures covered { IfOk result (λ r. IsCoveredFor (type_at mint.now id) code r) }
    ensures sparing { IfOk result (λ r. IsSparing classes.now.enc (type_at mint.now id) code r) }
    ensures big { IfOk result (λ r. EnsuresRows classes.now.enc (type_at mint.now id) r) }
    ensures rows { IfOk result (λ r. RowsAreBare (type_at mint.now id) (code_seen r.ops)) }
{
    mint.types_are_sound();
    Ok(SendCode {
        ops: hoist_ops(alloc, mint, classes, id, code.ops)?,
        subs: SendSubs::new(alloc),
    })
}
