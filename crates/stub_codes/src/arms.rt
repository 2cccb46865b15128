//! The arms of what comes back from an operation, by the table that is bound.

ghost use Rattle.std.specs.Prelude.{◌≡◌, ◌↔◌, ◌<◌, ◌≤◌, ℕ, length};
ghost use Rattle.mint.specs.Types.{type_at};
ghost use Rattle.pres.specs.Bindings.{IsBinding};
ghost use Rattle.back_cdr.specs.Targets.{IsCdr, target_of};
ghost use Rattle.stub_codes.specs.Replies.{reply_type, AreArms, HasArm, arm_type};

use mint::node::{Arms, Node};
use mint::table::NodeId;
use pres::Bound;

/// The node of what comes back from an operation.
fn reply_of(bound: &Bound, op: u32) -> NodeId
    requires { op < length bound.now.ops }
    ensures node { result < length bound.now.nodes }
    ensures type_ { type_at bound.now.nodes result ≡ reply_type bound.now op }
{
    match bound.ops().get(op as usize) {
        Some(operation) => operation.reply,
        None => unreachable!(),
    }
}

/// What is bound stands for its unit, and each operation has an answer. It does nothing.
fn replies_are_arms(bound: &Bound, op: u32)
    requires { op < length bound.now.ops }
    ensures stands { IsBinding bound.now }
    ensures answer { HasArm bound.now op 0 }
{
    let _ops = bound.ops();
}

/// The arms of what comes back from an operation, each at the place of its number.
pub(crate) fn arms_of(bound: &Bound, op: u32) -> &Arms
    requires { op < length bound.now.ops }
    ensures many { (k : ℕ) → HasArm bound.now op k ↔ k < length result.now }
    ensures each { AreArms bound.now op result.now }
{
    replies_are_arms(bound, op);
    let Some(choice) = bound.mint().node(reply_of(bound, op)) else {
        unreachable!()
    };
    let Node::Choice(_, arms, _) = choice else {
        unreachable!()
    };
    arms
}

/// The node of the value of an arm of what comes back from an operation.
pub fn arm_node(bound: &Bound, op: u32, arm: u32) -> NodeId
    requires op { op < length bound.now.ops }
    requires arm { HasArm bound.now op arm }
    ensures node { result < length bound.now.nodes }
    ensures type_ { type_at bound.now.nodes result ≡ arm_type bound.now op arm }
{
    match arms_of(bound, op).get(arm as usize) {
        Some((_, id)) => *id,
        None => unreachable!(),
    }
}

/// Over CDR each arm above 0 has the id of an exception. It does nothing.
pub(crate) fn arms_have_ids(bound: &Bound, op: u32, arm: u32)
    requires op { op < length bound.now.ops }
    requires arm { HasArm bound.now op arm }
    ensures { IsCdr bound.now.back → arm ≤ length (target_of bound.now op).ids }
{
    let _ops = bound.ops();
}
