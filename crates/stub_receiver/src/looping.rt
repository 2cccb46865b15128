//! What a loop goes over.

ghost use Rattle.mint.specs.Types.{type_at};
ghost use Rattle.cast_stub.specs.Draft.{raw};
ghost use Rattle.stub_receiver.specs.Looping.{GoesOver};
ghost use Rattle.stub_receiver.specs.Drawn.{drawn};

use crate::draft::Filling;
use mint::node::Node;
use mint::table::Mint;

/// Elements that a loop goes over, of a node, and how many they are.
#[derive(Clone, Copy)]
pub enum Elements {
    /// Values of a node.
    Values(u32, u32),
    /// The numbers of a node's row or text.
    Numbers(u32, u32),
    /// A draft without elements.
    Nothing,
}

/// The elements of a draft, where its length is known.
pub fn elements_of(mint: &Mint, part: &Filling) -> Elements
    ensures { GoesOver mint.now result (drawn mint.now part.now) }
{
    match part {
        Filling::Listed(item, n) => Elements::Values(*item, *n),
        Filling::Lined(id, n) => Elements::Numbers(*id, *n),
        Filling::Raw(id) => elements_at(mint, *id),
        Filling::Digit(_) => Elements::Nothing,
        Filling::Tagged(_, _) => Elements::Nothing,
        Filling::Flagged(_) => Elements::Nothing,
        Filling::Done(_) => Elements::Nothing,
        Filling::Fields(_) => Elements::Nothing,
    }
}

/// The elements of a node of which nothing was read: the fewest that there may be.
fn elements_at(mint: &Mint, id: u32) -> Elements
    ensures { GoesOver mint.now result (raw (type_at mint.now id)) }
{
    let Some(node) = mint.node(id) else {
        return Elements::Nothing;
    };
    match node {
        Node::Items(item, count) => Elements::Values(*item, count.least()),
        Node::Text(count) => Elements::Numbers(id, count.least()),
        Node::Row(_, count) => Elements::Numbers(id, count.least()),
        Node::Void => Elements::Nothing,
        Node::Num(_) => Elements::Nothing,
        Node::Enum(_) => Elements::Nothing,
        Node::Group(_) => Elements::Nothing,
        Node::Choice(_, _, _) => Elements::Nothing,
        Node::Maybe(_) => Elements::Nothing,
    }
}
