//! The nodes of parts.

ghost use Rattle.std.specs.Prelude.{◌≡◌, ◌<◌, ◌≤◌, length, option_map, IfSome};
ghost use Rattle.mint.specs.Types.{type_at};
ghost use Rattle.cast_stub.specs.PartTypes.{ty_at};

use mint::node::Node;
use mint::table::{Mint, NodeId};

/// The node of the part at a path.
#[tactic(auto, using(crate::proofs::Nodes::nodes))]
pub fn node_at(mint: &Mint, id: NodeId, path: &[u32]) -> Option<NodeId>
    requires { id < length mint.now }
    ensures is { option_map (type_at mint.now) result ≡ ty_at path.now (type_at mint.now id) }
    ensures below { IfSome result (λ r. r ≤ id) }
{
    let Some((first, rest)) = path.split_first() else {
        return Some(id);
    };
    let Some(Node::Group(ids)) = mint.node(id) else {
        return None;
    };
    match ids.get(*first as usize) {
        Some(child) => node_at(mint, *child, rest),
        None => None,
    }
}
