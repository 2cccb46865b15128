//! The most octets that code appends.

ghost use Rattle.std.specs.Prelude.{◌≡◌, ◌≤◌, ◌<◌, ◌+◌, ◌*◌, ◌^◌, ℕ, [], length, option_map, IfOk, OnErr, None, Some, if◌then◌else◌};
ghost use Rattle.std.specs.Ordering.{int_eq};
ghost use Rattle.mint.specs.Types.{Scalar, scalar_type, type_at, unfolded, others_at, ArmsBelow, IsBelow};
ghost use Rattle.mint.specs.Types.{arms_at as mint_arms};
ghost use Rattle.cast_stub.specs.Block.{Block, op_seen, code_seen, cases_seen};
ghost use Rattle.cast_stub.specs.Parts.{on_some};
ghost use Rattle.hoist.specs.Bound.{bound, most, plus, times, greater, cases_bound};
ghost use Rattle.cast_stub.specs.PartTypes.{element_at, present_at, arms_at};

use crate::parts::node_at;
use cast_stub::{Path, SendCases, SendLast, SendOp, SendOps};
use kit_base::NoMemory;
use mint::kind::Count;
use mint::node::{Arms, Node};
use mint::table::{Mint, NodeId};

/// The sum, which is a u32, or none where memory runs out.
fn plus(a: Option<u32>, b: Option<u32>) -> Result<Option<u32>, NoMemory>
    ensures ok { IfOk result (λ n. n ≡ plus a b) }
    ensures err { OnErr result ((m : ℕ) × (n : ℕ) × (a ≡ Some m) × (b ≡ Some n) × (2 ^ 32 ≤ m + n)) }
{
    let Some(a) = a else {
        return Ok(None);
    };
    let Some(b) = b else {
        return Ok(None);
    };
    match a.checked_add(b) {
        Some(sum) => Ok(Some(sum)),
        None => Err(NoMemory),
    }
}

/// So many times, by the greatest count.
fn times(count: Count, turn: Option<u32>) -> Result<Option<u32>, NoMemory>
    ensures ok { IfOk result (λ n. n ≡ times (most count) turn) }
    ensures err { OnErr result
        ((m : ℕ) × (n : ℕ) × (most count ≡ Some m) × (turn ≡ Some n) × (2 ^ 32 ≤ m * n)) }
{
    let (Count::Exactly(m) | Count::AtMost(m)) = count else {
        return Ok(None);
    };
    let Some(n) = turn else {
        return Ok(None);
    };
    match m.checked_mul(n) {
        Some(product) => Ok(Some(product)),
        None => Err(NoMemory),
    }
}

/// The most that operations on a number append.
#[tactic(auto, using(crate::proofs::Nodes::nodes))]
pub(crate) fn number_bound(ops: &SendOps) -> Result<Option<u32>, NoMemory>
    ensures { IfOk result (λ n. (s : Scalar) → n ≡ bound (scalar_type s) (code_seen ops.now)) }
{
    let list = ops.as_slice();
    let mut sum = Some(0);
    for i in (0..list.len()).rev() {
        sum = plus(number_op_bound(&list[i]), sum)?;
    }
    Ok(sum)
}

#[tactic(auto, using(crate::proofs::Nodes::nodes))]
fn number_op_bound(op: &SendOp) -> Option<u32>
    ensures { (s : Scalar) → (r : Block)
        → bound (scalar_type s) (op_seen op.now r) ≡ plus result (bound (scalar_type s) r) }
{
    match op {
        SendOp::Align(a) => Some(a.saturating_sub(1)),
        SendOp::Chunk(size, _) => Some(*size),
        SendOp::Patch(_, _, _) => Some(0),
        SendOp::Ensure(_) => None,
        SendOp::EnsureRow(_, _, _) => None,
        SendOp::RowCopy(_) => None,
        SendOp::RowSwap(_) => None,
        SendOp::RowWide(_, _) => None,
        SendOp::Each(_, _) => None,
        SendOp::Switch(_, _, _) => None,
        SendOp::Some(_, _) => None,
        SendOp::Call(_, _) => None,
    }
}

/// The most octets that code without ensures, rows as a block and calls appends, on a value of the
/// node, if they are bounded.
#[cycle(bound)]
#[tactic(auto, using(crate::proofs::Nodes::nodes))]
pub fn bound(mint: &Mint, id: NodeId, ops: &SendOps) -> Result<Option<u32>, NoMemory>
    requires { id < length mint.now }
    ensures { IfOk result (λ n. n ≡ bound (type_at mint.now id) (code_seen ops.now)) }
{
    let list = ops.as_slice();
    let mut sum = Some(0);
    for i in (0..list.len()).rev() {
        sum = plus(op_bound(mint, id, &list[i])?, sum)?;
    }
    Ok(sum)
}

#[cycle(bound)]
#[tactic(auto, using(crate::proofs::Nodes::nodes))]
fn op_bound(mint: &Mint, id: NodeId, op: &SendOp) -> Result<Option<u32>, NoMemory>
    requires { id < length mint.now }
    ensures { IfOk result (λ n. (r : Block)
        → bound (type_at mint.now id) (op_seen op.now r) ≡ plus n (bound (type_at mint.now id) r)) }
{
    match op {
        SendOp::Align(a) => Ok(Some(a.saturating_sub(1))),
        SendOp::Chunk(size, _) => Ok(Some(*size)),
        SendOp::Patch(_, _, _) => Ok(Some(0)),
        SendOp::Each(path, body) => loop_bound(mint, id, path, body),
        SendOp::Some(path, body) => some_bound(mint, id, path, body),
        SendOp::Switch(path, cases, other) => switch_bound(mint, id, path, cases, other),
        SendOp::Ensure(_) => Ok(None),
        SendOp::EnsureRow(_, _, _) => Ok(None),
        SendOp::RowCopy(_) => Ok(None),
        SendOp::RowSwap(_) => Ok(None),
        SendOp::RowWide(_, _) => Ok(None),
        SendOp::Call(_, _) => Ok(None),
    }
}

/// The most that a loop over the part at a path appends.
#[cycle(bound)]
#[tactic(auto, using(crate::proofs::Nodes::nodes))]
pub(crate) fn loop_bound(
    mint: &Mint,
    id: NodeId,
    path: &Path,
    body: &SendOps,
) -> Result<Option<u32>, NoMemory>
    requires { id < length mint.now }
    ensures { IfOk result (λ n. n ≡ on_some (element_at path.now (type_at mint.now id))
        (λ e. times (most e.1) (bound e.0 (code_seen body.now)))) }
{
    let Some(count) = count_at(mint, id, path) else {
        return Ok(None);
    };
    times(count, turn_bound(mint, id, path, body)?)
}

/// The count of the list at a path.
fn count_at(mint: &Mint, id: NodeId, path: &Path) -> Option<Count>
    requires { id < length mint.now }
    ensures { result ≡ option_map (λ e. e.1) (element_at path.now (type_at mint.now id)) }
{
    let Some(part) = node_at(mint, id, path.as_slice()) else {
        return None;
    };
    let Some(node) = mint.node(part) else {
        unreachable!()
    };
    match node {
        Node::Items(_, count) | Node::Text(count) | Node::Row(_, count) => Some(*count),
        Node::Void
        | Node::Num(_)
        | Node::Enum(_)
        | Node::Group(_)
        | Node::Choice(_, _, _)
        | Node::Maybe(_) => None,
    }
}

/// The most that one turn of a loop over the part at a path appends.
#[cycle(bound)]
#[tactic(auto, using(crate::proofs::Nodes::nodes))]
pub(crate) fn turn_bound(
    mint: &Mint,
    id: NodeId,
    path: &Path,
    body: &SendOps,
) -> Result<Option<u32>, NoMemory>
    requires { id < length mint.now }
    ensures { IfOk result
        (λ n. n ≡ on_some (element_at path.now (type_at mint.now id)) (λ e. bound e.0 (code_seen body.now))) }
{
    let Some(part) = node_at(mint, id, path.as_slice()) else {
        return Ok(None);
    };
    let Some(node) = mint.node(part) else {
        unreachable!()
    };
    match node {
        Node::Items(item, _) => bound(mint, *item, body),
        Node::Text(_) | Node::Row(_, _) => number_bound(body),
        Node::Void
        | Node::Num(_)
        | Node::Enum(_)
        | Node::Group(_)
        | Node::Choice(_, _, _)
        | Node::Maybe(_) => Ok(None),
    }
}

#[cycle(bound)]
#[tactic(auto, using(crate::proofs::Nodes::nodes))]
pub(crate) fn some_bound(
    mint: &Mint,
    id: NodeId,
    path: &Path,
    body: &SendOps,
) -> Result<Option<u32>, NoMemory>
    requires { id < length mint.now }
    ensures { IfOk result
        (λ n. n ≡ on_some (present_at path.now (type_at mint.now id)) (λ u. bound u (code_seen body.now))) }
{
    let Some(part) = node_at(mint, id, path.as_slice()) else {
        return Ok(None);
    };
    let Some(node) = mint.node(part) else {
        unreachable!()
    };
    match node {
        Node::Maybe(item) => bound(mint, *item, body),
        Node::Void
        | Node::Num(_)
        | Node::Enum(_)
        | Node::Text(_)
        | Node::Row(_, _)
        | Node::Group(_)
        | Node::Items(_, _)
        | Node::Choice(_, _, _) => Ok(None),
    }
}

#[cycle(bound)]
#[tactic(auto, using(crate::proofs::Nodes::nodes))]
pub(crate) fn switch_bound(
    mint: &Mint,
    id: NodeId,
    path: &Path,
    cases: &SendCases,
    last: &SendLast,
) -> Result<Option<u32>, NoMemory>
    requires { id < length mint.now }
    ensures { IfOk result (λ n. n ≡ on_some (arms_at path.now (type_at mint.now id))
        (λ arms. cases_bound arms (cases_seen cases.now last.now))) }
{
    let Some(part) = node_at(mint, id, path.as_slice()) else {
        return Ok(None);
    };
    let Some(node) = mint.node(part) else {
        unreachable!()
    };
    match node {
        Node::Choice(_, arms, other) => arms_bound(mint, part, arms, *other, cases, last),
        Node::Void
        | Node::Num(_)
        | Node::Enum(_)
        | Node::Text(_)
        | Node::Row(_, _)
        | Node::Group(_)
        | Node::Items(_, _)
        | Node::Maybe(_) => Ok(None),
    }
}

#[cycle(bound)]
#[tactic(auto, using(crate::proofs::Nodes::nodes))]
fn arms_bound(
    mint: &Mint,
    id: NodeId,
    arms: &Arms,
    other: Option<NodeId>,
    cases: &SendCases,
    last: &SendLast,
) -> Result<Option<u32>, NoMemory>
    requires id { id < length mint.now }
    requires arms { ArmsBelow id arms.now }
    requires other { IsBelow id other }
    ensures { IfOk result (λ n. n ≡ cases_bound (mint_arms (unfolded mint.now) arms.now other)
        (cases_seen cases.now last.now)) }
{
    let arms = arms.as_slice();
    let bodies = cases.as_slice();
    if arms.len() != bodies.len() {
        return Ok(None);
    }
    let mut most = last_bound(mint, id, other, last)?;
    for i in (0..arms.len()).rev() {
        most = arm_bound(mint, id, &arms[i], &bodies[i], most)?;
    }
    Ok(most)
}

#[cycle(bound)]
#[tactic(auto, using(crate::proofs::Nodes::nodes))]
fn last_bound(
    mint: &Mint,
    id: NodeId,
    other: Option<NodeId>,
    last: &SendLast,
) -> Result<Option<u32>, NoMemory>
    requires id { id < length mint.now }
    requires other { IsBelow id other }
    ensures { IfOk result
        (λ n. n ≡ cases_bound (others_at (unfolded mint.now) other) (cases_seen [] last.now)) }
{
    match last {
        Some(body) => match other {
            Some(child) => bound(mint, child, body),
            None => Ok(None),
        },
        None => match other {
            Some(_) => Ok(None),
            None => Ok(Some(0)),
        },
    }
}

#[cycle(bound)]
#[tactic(auto, using(crate::proofs::Nodes::nodes))]
fn arm_bound(
    mint: &Mint,
    id: NodeId,
    arm: &(i128, NodeId),
    case: &(i128, SendOps),
    rest: Option<u32>,
) -> Result<Option<u32>, NoMemory>
    requires id { id < length mint.now }
    requires arm { arm.now.1 < id }
    ensures { IfOk result (λ n. n ≡ (if int_eq arm.now.0 case.now.0
        then greater (bound (type_at mint.now arm.now.1) (code_seen case.now.1)) rest
        else None)) }
{
    if !is_same(&arm.0, &case.0) {
        return Ok(None);
    }
    Ok(greater(bound(mint, arm.1, &case.1)?, rest))
}

fn is_same(m: &i128, n: &i128) -> bool
    ensures { result ≡ int_eq m.now n.now }
{
    *m == *n
}

/// The greater of two bounds.
fn greater(a: Option<u32>, b: Option<u32>) -> Option<u32>
    ensures { result ≡ greater a b }
{
    match (a, b) {
        (Some(m), Some(n)) => Some(m.max(n)),
        _ => None,
    }
}
