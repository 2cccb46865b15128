//! Rows of elements.

ghost use Rattle.std.specs.Prelude.{[], ◌∷◌, ◌++◌, length, IfOk, IfErr, OnOk};
ghost use Rattle.pres.specs.Drafts.{Grows, IsDrawn, IsPlaced, Overflows, drawn, elements_at};

use crate::draft::Draft;
use crate::{BindErr, Shape};
use mint::kind::{Count, Kind};
use mint::node::Node;
use mint::table::NodeId;

/// What each element of a row is.
#[derive(Clone, Copy, Debug, PartialEq, Eq)]
pub(crate) enum Element {
    /// A number of a kind whose numbers stand together: it has no node.
    Packed(Kind),
    /// A node.
    Drawn(NodeId),
}

impl Draft {
    /// Draws the node of a row of elements.
    pub(crate) fn draw_row(&mut self, element: Element, count: Count) -> Result<NodeId, BindErr>
        requires { IsPlaced (length (drawn self.old)) element }
        ensures grows { OnOk result
            (Grows self.old self.new (elements_at (drawn self.old) element count ∷ [])) }
        ensures id { IfOk result (λ id. IsDrawn self.new id (elements_at (drawn self.old) element count)) }
        ensures cause { IfErr result
            (λ e. Overflows (drawn self.old ++ elements_at (drawn self.old) element count ∷ []) e) }
    {
        match element {
            Element::Packed(kind) => self.push(Node::Row(kind, count), Shape::Plain),
            Element::Drawn(id) => self.push(Node::Items(id, count), Shape::Plain),
        }
    }
}
