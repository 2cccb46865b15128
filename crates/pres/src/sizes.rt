//! How deep types are, and over how many nodes they spread.

ghost use Rattle.std.specs.Prelude.{◌≡◌, ◌<◌, ◌≤◌, length, map, IfOk};
ghost use Rattle.kit_base.specs.Limits.{most_nodes};
ghost use Rattle.mint.specs.Types.{HasChildrenBelow, AreBelow, ArmsBelow, IsBelow};
ghost use Rattle.pres.specs.Drafts.{drawn};
ghost use Rattle.pres.specs.Sizes.{beside, over, sized, no_size, inside_at, after_at, other_at, size_at, size_of};

use crate::draft::Draft;
use kit_base::NoMemory;
use kit_base::limits::{DEEPEST, MOST_OPERATION_NODES};
use mint::node::{Arms, Node, NodeIds};
use mint::table::NodeId;
use std::alloc::Global;

/// The least depth that is refused.
const DEEP: u32 = DEEPEST + 1;

/// The least number of nodes that is refused.
const WIDE: u32 = MOST_OPERATION_NODES as u32 + 1;

/// A depth and a number of nodes, up to the least that are refused.
#[derive(Clone, Copy, Debug, PartialEq, Eq)]
pub(crate) struct Size {
    pub(crate) depth: u32,
    pub(crate) nodes: u32,
}

impl Size {
    /// Of nothing.
    fn none() -> Size
        ensures { result ≡ no_size }
    {
        Size { depth: 0, nodes: 0 }
    }

    /// Of a node without children.
    fn leaf() -> Size
        ensures { result ≡ sized 1 1 }
    {
        Size { depth: 1, nodes: 1 }
    }

    /// Of what is side by side.
    fn beside(self, other: Size) -> Size
        ensures { result ≡ beside self other }
    {
        Size {
            depth: self.depth.max(other.depth).min(DEEP),
            nodes: self.nodes.saturating_add(other.nodes).min(WIDE),
        }
    }

    /// Of a node over others.
    fn over(self) -> Size
        ensures { result ≡ over self }
    {
        Size {
            depth: self.depth.saturating_add(1).min(DEEP),
            nodes: self.nodes.saturating_add(1).min(WIDE),
        }
    }
}

fn size_inside(sizes: &[Size], ids: &NodeIds) -> Size
    requires { AreBelow (length sizes.now) ids.now }
    ensures { result ≡ inside_at sizes.now ids.now }
{
    let mut size = Size::none();
    let list = ids.as_slice();
    for i in 0..list.len() {
        size = sizes[list[list.len() - 1 - i] as usize].beside(size);
    }
    size
}

fn size_after(sizes: &[Size], arms: &Arms, other: Option<NodeId>) -> Size
    requires arms { ArmsBelow (length sizes.now) arms.now }
    requires other { IsBelow (length sizes.now) other }
    ensures { result ≡ after_at sizes.now arms.now other }
{
    let mut size = size_other(sizes, other);
    let list = arms.as_slice();
    for i in 0..list.len() {
        size = sizes[list[list.len() - 1 - i].1 as usize].beside(size);
    }
    size
}

fn size_other(sizes: &[Size], other: Option<NodeId>) -> Size
    requires { IsBelow (length sizes.now) other }
    ensures { result ≡ other_at sizes.now other }
{
    match other {
        Some(id) => sizes[id as usize],
        None => Size::none(),
    }
}

/// The size of a node, over those of the nodes before it.
fn size_at(sizes: &[Size], node: &Node) -> Size
    requires { HasChildrenBelow (length sizes.now) node.now }
    ensures { result ≡ size_at sizes.now node.now }
{
    match node {
        Node::Group(ids) => size_inside(sizes, ids).over(),
        Node::Items(item, _) | Node::Maybe(item) => sizes[*item as usize].over(),
        Node::Choice(_, arms, other) => size_after(sizes, arms, *other).over(),
        _ => Size::leaf(),
    }
}

impl Draft {
    /// The sizes of all nodes.
    pub(crate) fn sizes(&self, alloc: Global) -> Result<Vec<Size>, NoMemory>
        ensures value { IfOk result (λ sizes. sizes.items ≡ map size_of (drawn self.now)) }
        ensures few { length (drawn self.now) ≤ most_nodes }
    {
        let mut sizes = Vec::new(alloc);
        for id in 0..self.len() {
            let size = size_at(&sizes, &self.entry(id as NodeId).node);
            sizes.push(size)?;
        }
        Ok(sizes)
    }
}
