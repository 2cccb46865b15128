//! Whether the requests of an operation have bodies.

ghost use Rattle.std.specs.Prelude.{◌≡◌, ◌<◌, length};
ghost use Rattle.mint.specs.Types.{type_at, unfolded, fields_at, AreBelow};
ghost use Rattle.wire_def.specs.Hollow.{is_hollow, are_hollow};
ghost use Rattle.back_cdr.specs.Targets as defs;

use mint::node::{Node, NodeIds};
use mint::table::{Mint, NodeId};
use pres::Bound;

/// Whether the type of a node has no octets. It calls itself as deep as the type has levels, of which there are
/// at most 32.
#[cycle(hollow)]
fn is_hollow(mint: &Mint, id: NodeId) -> bool
    requires { id < length mint.now }
    ensures { result ≡ is_hollow (type_at mint.now id) }
{
    let Some(node) = mint.node(id) else {
        unreachable!()
    };
    match node {
        Node::Void => true,
        Node::Group(ids) => are_hollow(mint, id, ids),
        Node::Num(_)
        | Node::Enum(_)
        | Node::Text(_)
        | Node::Row(_, _)
        | Node::Items(_, _)
        | Node::Choice(_, _, _)
        | Node::Maybe(_) => false,
    }
}

/// Whether the types of fields have no octets.
#[cycle(hollow)]
fn are_hollow(mint: &Mint, id: NodeId, ids: &NodeIds) -> bool
    requires id { id < length mint.now }
    requires below { AreBelow id ids.now }
    ensures { result ≡ are_hollow (fields_at (unfolded mint.now) ids.now) }
{
    for field in ids.as_slice() {
        if !is_hollow(mint, *field) {
            return false;
        }
    }
    true
}

/// Whether octets follow the head of an operation's requests.
pub(crate) fn has_body(bound: &Bound, op: u32) -> bool
    requires { op < length bound.now.ops }
    ensures { result ≡ defs.has_body bound.now op }
{
    let request = bound.ops().as_slice()[op as usize].request;
    !is_hollow(bound.mint(), request)
}
