//! The types of places in code: the number of a node, or none where nothing is known.

ghost use Rattle.std.specs.Prelude.{◌≡◌, List, Some, Option};
ghost use Rattle.std.specs.Option.{option_copied};
ghost use Rattle.mint.specs.Kinds.{width};
ghost use Rattle.cast_stub.specs.declared.send.SendOp.{SendOp as Op};
ghost use Rattle.cast_stub.specs.Block.{cases_seen};
ghost use Rattle.cast_stub.specs.Steps.{is_width};
ghost use Rattle.stub_flat.specs.Leaves.{width_of};
ghost use Rattle.stub_flat.specs.Places.{node_of, spot_at, field_spot, element, present, row_kind, has_length, most_of, greatest, arm_spot, rest_spot, has_case, all_have};

use cast_stub::SendCases;
use mint::kind::{Count, Kind};
use mint::node::{Arms, Node, arm_of};
use mint::table::{Mint, NodeId};

/// The number of a node, where it is known.
pub type Spot = Option<NodeId>;

/// The node of a place.
fn node_of(mint: &Mint, spot: Spot) -> Option<&Node>
    ensures { option_copied result ≡ node_of mint.now spot }
{
    match spot {
        Some(id) => mint.node(id),
        None => None,
    }
}

fn field_at(mint: &Mint, spot: Spot, field: u32) -> Spot
    ensures { result ≡ field_spot field (node_of mint.now spot) }
{
    match node_of(mint, spot)? {
        Node::Group(ids) => match ids.get(field as usize) {
            Some(child) => Some(*child),
            None => None,
        },
        Node::Void
        | Node::Num(_)
        | Node::Enum(_)
        | Node::Text(_)
        | Node::Row(_, _)
        | Node::Items(_, _)
        | Node::Choice(_, _, _)
        | Node::Maybe(_) => None,
    }
}

/// The place at a path.
pub fn spot_at(mint: &Mint, path: &[u32], spot: Spot) -> Spot
    ensures { result ≡ spot_at mint.now path.now spot }
{
    let mut there = spot;
    for field in path {
        there = field_at(mint, there, *field);
    }
    there
}

/// The place of an element.
pub fn element_at(mint: &Mint, spot: Spot) -> Spot
    ensures { result ≡ element (node_of mint.now spot) }
{
    match node_of(mint, spot)? {
        Node::Items(item, _) => Some(*item),
        Node::Void
        | Node::Num(_)
        | Node::Enum(_)
        | Node::Text(_)
        | Node::Row(_, _)
        | Node::Group(_)
        | Node::Choice(_, _, _)
        | Node::Maybe(_) => None,
    }
}

/// The place of the value that may be there.
pub fn present_at(mint: &Mint, spot: Spot) -> Spot
    ensures { result ≡ present (node_of mint.now spot) }
{
    match node_of(mint, spot)? {
        Node::Maybe(item) => Some(*item),
        Node::Void
        | Node::Num(_)
        | Node::Enum(_)
        | Node::Text(_)
        | Node::Row(_, _)
        | Node::Group(_)
        | Node::Items(_, _)
        | Node::Choice(_, _, _) => None,
    }
}

/// The kind of the numbers of a row or text.
pub fn row_kind_at(mint: &Mint, spot: Spot) -> Option<Kind>
    ensures { result ≡ row_kind (node_of mint.now spot) }
{
    match node_of(mint, spot)? {
        Node::Row(kind, _) => Some(*kind),
        Node::Text(_) => Some(Kind::Char),
        Node::Void
        | Node::Num(_)
        | Node::Enum(_)
        | Node::Group(_)
        | Node::Items(_, _)
        | Node::Choice(_, _, _)
        | Node::Maybe(_) => None,
    }
}

/// The octets of a number of a kind in an image.
pub fn width(kind: Kind) -> u32
    ensures { result ≡ width kind }
{
    match kind {
        Kind::Octet | Kind::I8 | Kind::U8 | Kind::Char | Kind::Bool => 1,
        Kind::I16 | Kind::U16 => 2,
        Kind::I32 | Kind::U32 => 4,
        Kind::I64 | Kind::U64 => 8,
    }
}

/// The octets of a number of a row, or 0 where its kind is not known.
pub fn width_of(kind: Option<Kind>) -> u32
    ensures { result ≡ width_of kind }
{
    match kind {
        Some(kind) => width(kind),
        None => 0,
    }
}

fn has_length(node: &Node) -> bool
    ensures { result ≡ has_length (Some node.now) }
{
    match node {
        Node::Row(_, _) | Node::Text(_) | Node::Items(_, _) => true,
        Node::Void
        | Node::Num(_)
        | Node::Enum(_)
        | Node::Group(_)
        | Node::Choice(_, _, _)
        | Node::Maybe(_) => false,
    }
}

/// Whether a value there has a length.
pub fn has_length_at(mint: &Mint, spot: Spot) -> bool
    ensures { result ≡ has_length (node_of mint.now spot) }
{
    match node_of(mint, spot) {
        Some(node) => has_length(node),
        None => false,
    }
}

fn most_of(count: Count) -> Option<u32>
    ensures { result ≡ most_of count }
{
    match count {
        Count::Any => None,
        Count::AtMost(n) | Count::Exactly(n) => Some(n),
    }
}

/// The greatest length of a value there, if there is one.
pub fn greatest_at(mint: &Mint, spot: Spot) -> Option<u32>
    ensures { result ≡ greatest (node_of mint.now spot) }
{
    match node_of(mint, spot)? {
        Node::Row(_, count) | Node::Text(count) | Node::Items(_, count) => most_of(*count),
        Node::Void
        | Node::Num(_)
        | Node::Enum(_)
        | Node::Group(_)
        | Node::Choice(_, _, _)
        | Node::Maybe(_) => None,
    }
}

/// The place of the arm of a number, or else of the default arm.
pub fn arm_spot_at(mint: &Mint, spot: Spot, n: &i128) -> Spot
    ensures { result ≡ arm_spot (node_of mint.now spot) n.now }
{
    match node_of(mint, spot)? {
        Node::Choice(_, arms, other) => arm_of(arms, *other, n),
        Node::Void
        | Node::Num(_)
        | Node::Enum(_)
        | Node::Text(_)
        | Node::Row(_, _)
        | Node::Group(_)
        | Node::Items(_, _)
        | Node::Maybe(_) => None,
    }
}

/// Whether a number has a case.
fn has_case(n: &i128, cases: &SendCases) -> bool
    ensures { (last : Option (List Op)) → result ≡ has_case n.now (cases_seen cases.now last) }
{
    cases.find(n).is_some()
}

/// Whether each arm has a case.
fn all_have(arms: &Arms, cases: &SendCases) -> bool
    ensures { (last : Option (List Op)) → result ≡ all_have arms.now (cases_seen cases.now last) }
{
    for arm in arms.as_slice() {
        if !has_case(&arm.0, cases) {
            return false;
        }
    }
    true
}

/// The place of the body of every other number.
pub fn rest_spot_at(mint: &Mint, spot: Spot, cases: &SendCases) -> Spot
    ensures { (last : Option (List Op))
        → result ≡ rest_spot (node_of mint.now spot) (cases_seen cases.now last) }
{
    match node_of(mint, spot)? {
        Node::Choice(_, arms, other) => { if all_have(arms, cases) { *other } else { None } }
        Node::Void
        | Node::Num(_)
        | Node::Enum(_)
        | Node::Text(_)
        | Node::Row(_, _)
        | Node::Group(_)
        | Node::Items(_, _)
        | Node::Maybe(_) => None,
    }
}

/// Whether a number is a width, or an alignment.
pub fn is_width(a: u32) -> bool
    ensures { result ≡ is_width a }
{
    a == 1 || a == 2 || a == 4 || a == 8
}
