//! What operations over parts are, by the sizes of the nodes on the way.

ghost use Rattle.std.specs.Prelude.{◌≡◌, ◌<◌, ◌-◌, length, option_map, IfSome};
ghost use Rattle.mint.specs.Types.{type_at};
ghost use Rattle.storage_class.specs.Classing.{is_fixed, top};
ghost use Rattle.storage_class.specs.Spans.{span, AreClasses};
ghost use Rattle.hoist.specs.Regions.{on_way, is_light, is_alike, role_at, weight_at};
ghost use Rattle.hoist.specs.SpanSizes.{sizes, least, weight_of};
ghost use Rattle.hoist.specs.Seen.{role_seen, span_roles};
ghost use Rattle.cast_stub.specs.PartTypes.{in_group_type};

use crate::parts::node_at;
use mint::node::Node;
use mint::table::{Mint, NodeId};
use storage_class::{Classes, Span};

/// What an operation over a part is.
#[derive(Clone, Copy)]
pub(crate) enum Role {
    /// One of small parts: one less than the greatest length of what it is over.
    Small(u32),
    /// A loop over elements of one length.
    Row,
    Break,
}

/// The greatest length of a node, if there is one.
fn top_of(mint: &Mint, classes: &Classes, id: NodeId) -> Option<u32>
    requires id { id < length mint.now }
    requires classes { AreClasses mint.now classes.now }
    ensures { result ≡ top (span classes.now.enc (type_at mint.now id)) }
{
    classes.span(id).top()
}

/// Whether all values of a node have one length.
fn is_fixed(mint: &Mint, classes: &Classes, id: NodeId) -> bool
    requires id { id < length mint.now }
    requires classes { AreClasses mint.now classes.now }
    ensures { result ≡ is_fixed (span classes.now.enc (type_at mint.now id)) }
{
    matches!(classes.span(id), Span::Fixed(_))
}

/// Whether what is of that length at most is small.
fn is_light(top: Option<u32>) -> bool
    ensures { result ≡ is_light top }
{
    match top {
        Some(n) => n <= 8192,
        None => false,
    }
}

/// The node of a field.
#[tactic(auto, using(crate::proofs::Nodes::nodes))]
fn field_node(mint: &Mint, id: NodeId, i: u32) -> Option<NodeId>
    requires { id < length mint.now }
    ensures is { option_map (type_at mint.now) result ≡ in_group_type i (type_at mint.now id) }
    ensures below { IfSome result (λ r. r < id) }
{
    let Some(Node::Group(ids)) = mint.node(id) else {
        return None;
    };
    match ids.get(i as usize) {
        Some(child) => Some(*child),
        None => None,
    }
}

/// Whether a node on the way to the part at a path is small.
fn is_on_way(mint: &Mint, classes: &Classes, id: NodeId, path: &[u32]) -> bool
    requires id { id < length mint.now }
    requires classes { AreClasses mint.now classes.now }
    ensures { result ≡ on_way (sizes classes.now.enc) path.now (type_at mint.now id) }
{
    if is_light(top_of(mint, classes, id)) {
        return true;
    }
    let Some((first, rest)) = path.split_first() else {
        return false;
    };
    match field_node(mint, id, *first) {
        Some(child) => is_on_way(mint, classes, child, rest),
        None => false,
    }
}

/// Whether the elements of a part are of one length.
fn is_alike(mint: &Mint, classes: &Classes, id: NodeId) -> bool
    requires id { id < length mint.now }
    requires classes { AreClasses mint.now classes.now }
    ensures { result ≡ is_alike (sizes classes.now.enc) (type_at mint.now id) }
{
    let Some(node) = mint.node(id) else {
        unreachable!()
    };
    match node {
        Node::Text(_) | Node::Row(_, _) => true,
        Node::Items(item, _) => is_fixed(mint, classes, *item),
        Node::Void
        | Node::Num(_)
        | Node::Enum(_)
        | Node::Group(_)
        | Node::Choice(_, _, _)
        | Node::Maybe(_) => false,
    }
}

/// The least of lengths.
#[tactic(auto, using(crate::proofs::Least::lengths))]
fn least(f: &[u32; 8]) -> u32
    ensures { result ≡ least f.now }
{
    let low = f[0].min(f[1].min(f[2].min(f[3])));
    let high = f[4].min(f[5].min(f[6].min(f[7])));
    low.min(high)
}

/// One less than the least length of a part, where lengths are known, or than their bound.
fn weight_of(span: Span) -> u32
    ensures { result ≡ weight_of span }
{
    match span {
        Span::Fixed(f) => least(&f).saturating_sub(1),
        Span::Bounded(n) => n.saturating_sub(1),
        Span::Unbounded => 0,
    }
}

/// What an operation over a part weighs where it is small.
fn small_length(mint: &Mint, classes: &Classes, part: Option<NodeId>) -> u32
    requires part { IfSome part (λ r. r < length mint.now) }
    requires classes { AreClasses mint.now classes.now }
    ensures { result ≡ weight_at (sizes classes.now.enc) (option_map (type_at mint.now) part) }
{
    match part {
        Some(id) => weight_of(classes.span(id)),
        None => 0,
    }
}

/// What an operation over a part is that is not small.
fn role_of(mint: &Mint, classes: &Classes, part: Option<NodeId>) -> Role
    requires part { IfSome part (λ r. r < length mint.now) }
    requires classes { AreClasses mint.now classes.now }
    ensures { role_seen result ≡ role_at (sizes classes.now.enc) (option_map (type_at mint.now) part) }
{
    let Some(id) = part else {
        return Role::Break;
    };
    if is_alike(mint, classes, id) {
        Role::Row
    } else {
        Role::Break
    }
}

/// What an operation over the part at a path is.
pub(crate) fn part_role(mint: &Mint, classes: &Classes, id: NodeId, path: &[u32]) -> Role
    requires id { id < length mint.now }
    requires classes { AreClasses mint.now classes.now }
    ensures { role_seen result ≡ span_roles classes.now.enc (type_at mint.now id) path.now }
{
    let part = node_at(mint, id, path);
    if is_on_way(mint, classes, id, path) {
        Role::Small(small_length(mint, classes, part))
    } else {
        role_of(mint, classes, part)
    }
}
