//! A table of nodes.

ghost use Rattle.std.specs.Prelude.{◌≡◌, ℕ, [], ◌∷◌, ◌++◌, ◌<◌, ◌≤◌, length, slice_get, None, OnOk, OnErr, IfSome};
ghost use Rattle.std.specs.Option.{option_copied};
ghost use Rattle.kit_base.specs.Limits.{most_nodes, deepest, heaviest_blank};
ghost use Rattle.mint.specs.Blank.{depth};
ghost use Rattle.mint.specs.Measured.{size_of};
ghost use Rattle.mint.specs.Sound.{IsSound, refusal};
ghost use Rattle.mint.specs.Types.{level, type_at, unfolded, HasChildrenBelow};
ghost use Rattle.mint.specs.Values.{weight};

use crate::node::Node;
use crate::size::Size;
use kit_base::NoMemory;
use std::alloc::Global;
use std::marker::Model;

/// The number of a node in its table, from 0.
pub type NodeId = u32;

#[derive(Drop)]
struct Entry {
    node: Node,
    size: Size,
}

/// A table of nodes, the children of each before it.
#[derive(Drop)]
pub struct Mint {
    entries: Vec<Entry>,
}

impl Model for Mint {
    ghost use Rattle.std.specs.Prelude.{List, map};
    ghost use Rattle.mint.specs.declared.node.Node.{Node};
    ghost use Rattle.mint.specs.declared.table.Entry.{Entry};

    ghost Value = { List Node };

    ghost use Rattle.mint.specs.Measured.{AreMeasured};

    ghost view = { λ a. map (λ (e : Entry). e.node) a.entries.items };

    ghost invariant = { λ a. AreMeasured (map (λ (e : Entry). e.node) a.entries.items) (map (λ (e : Entry). e.size) a.entries.items) };
}

impl Mint {
    /// A table without nodes.
    pub fn new(alloc: Global) -> Mint
        ensures { result ≡ [] }
    {
        Mint {
            entries: Vec::new(alloc),
        }
    }

    /// The number of nodes.
    pub fn len(&self) -> usize
        ensures value { result ≡ length self.now }
        ensures most { result ≤ most_nodes }
    {
        self.entries.len()
    }

    /// The node with a number, if there is one.
    pub fn node(&self, id: NodeId) -> Option<&Node>
        ensures found { option_copied result ≡ slice_get self.now id }
        ensures below { IfSome result (λ n. HasChildrenBelow id n.now) }
        ensures is { IfSome result (λ n. type_at self.now id ≡ level (unfolded self.now) n.now) }
        ensures sound { IsSound (type_at self.now id) }
    {
        match self.entries.get(id as usize) {
            Some(entry) => Some(&entry.node),
            None => None,
        }
    }

    /// A law: the type of each node is sound. The function does nothing.
    pub fn types_are_sound(&self)
        ensures { (id : ℕ) → IsSound (type_at self.now id) }
    {
        let _count = self.entries.len();
    }

    /// The size of the type of a node.
    pub(crate) fn size(&self, id: NodeId) -> Size
        requires { id < length self.now }
        ensures value { result ≡ size_of (type_at self.now id) }
        ensures depth { result.depth ≤ deepest }
        ensures weight { result.weight ≤ heaviest_blank }
    {
        self.entries[id as usize].size
    }

    /// Appends a node that is not refused.
    pub(crate) fn put(&mut self, node: Node, size: Size) -> Result<(), NoMemory>
        requires taken { refusal self.old node ≡ None }
        requires size { size ≡ size_of (level (unfolded self.old) node) }
        ensures ok { OnOk result (self.new ≡ self.old ++ node ∷ []) }
        ensures err { OnErr result (self.new ≡ self.old) }
    {
        self.entries.push(Entry { node, size })?;
        Ok(())
    }
}
