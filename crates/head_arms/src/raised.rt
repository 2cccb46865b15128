//! How many exceptions operations raise.

ghost use Rattle.std.specs.Prelude.{◌≡◌, ◌<◌, length, map, slice_index_or};
ghost use Rattle.pres.specs.Bindings.{IsBinding};
ghost use Rattle.pres.specs.declared.ops.Op.{Op as OpRecord};
ghost use Rattle.head_arms.specs.Raised.{exceptions};

use mint::node::Node;
use mint::table::NodeId;
use pres::Bound;

/// The node of what comes back from an operation.
fn reply_of(bound: &Bound, op: u32) -> NodeId
    requires { op < length bound.now.ops }
    ensures node { result ≡ slice_index_or (map (λ (o : OpRecord). o.reply) bound.now.ops) op 0 }
    ensures stands { IsBinding bound.now }
{
    match bound.ops().get(op as usize) {
        Some(operation) => operation.reply,
        None => unreachable!(),
    }
}

/// How many exceptions an operation raises: the arms of what comes back from it, but for the answer.
pub fn exceptions_of(bound: &Bound, op: u32) -> u32
    requires { op < length bound.now.ops }
    ensures { result ≡ exceptions bound.now op }
{
    let id = reply_of(bound, op);
    let mint = bound.mint();
    mint.types_are_sound();
    let Some(reply) = mint.node(id) else {
        unreachable!()
    };
    let Node::Choice(_, arms, _) = reply else {
        unreachable!()
    };
    arms.len() as u32 - 1
}
