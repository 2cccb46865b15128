//! Nodes of a unit, before they are in a table.

ghost use Rattle.std.specs.Prelude.{map, ◌≡◌, ◌<◌, ◌≤◌, [], ◌∷◌, ◌++◌, length, IfOk, IfErr, OnOk};
ghost use Rattle.kit_base.specs.Limits.{most_nodes};
ghost use Rattle.mint.specs.Types.{HasChildrenBelow};
ghost use Rattle.pres.specs.declared.draft.Entry.{Entry as EntryRecord};
ghost use Rattle.pres.specs.Drafts.{IsSketch, Grows, IsDrawn, Overflows, drawn, known};
ghost use Rattle.pres.specs.Faces.{at, level};
ghost use Rattle.pres.specs.Named.{IsNamed};

use crate::{BindErr, Shape};
use kit_base::NoMemory;
use kit_base::limits::MOST_NODES;
use mint::node::{Node, NodeIds};
use mint::table::NodeId;
use std::alloc::Global;
use std::marker::Model;

/// A node with its shape.
#[derive(Drop)]
pub(crate) struct Entry {
    pub(crate) node: Node,
    pub(crate) shape: Shape,
}

/// Nodes with their shapes, and the nodes of the unit's types so far.
#[derive(Drop)]
pub(crate) struct Draft {
    entries: Vec<Entry>,
    types: NodeIds,
}

impl Model for Draft {
    ghost use Rattle.std.specs.Prelude.{map};
    ghost use Rattle.pres.specs.declared.draft.Entry.{Entry};
    ghost use Rattle.pres.specs.Drafts.{Sketch, IsSketch};

    ghost Value = { Sketch };

    ghost view = { λ d. record { nodes = map (λ (e : Entry). e.node) d.entries.items; shapes = map (λ (e : Entry). e.shape) d.entries.items; types = d.types } };

    ghost invariant = { λ d. IsSketch (record { nodes = map (λ (e : Entry). e.node) d.entries.items; shapes = map (λ (e : Entry). e.shape) d.entries.items; types = d.types }) };
}

impl Draft {
    /// Without nodes.
    pub(crate) fn new(alloc: Global) -> Draft
        ensures nodes { drawn result ≡ [] }
        ensures types { known result ≡ [] }
    {
        Draft {
            entries: Vec::new(alloc),
            types: NodeIds::new(alloc),
        }
    }

    /// Appends a node, and gives its number.
    pub(crate) fn push(&mut self, node: Node, shape: Shape) -> Result<NodeId, BindErr>
        requires below { HasChildrenBelow (length (drawn self.old)) node }
        requires named { IsNamed node shape }
        ensures grows { OnOk result (Grows self.old self.new (level (drawn self.old) node shape ∷ [])) }
        ensures id { IfOk result (λ id. IsDrawn self.new id (level (drawn self.old) node shape)) }
        ensures cause { IfErr result
            (λ e. Overflows (drawn self.old ++ level (drawn self.old) node shape ∷ []) e) }
        ensures memory { IfErr result (λ e. e ≡ BindErr.NoMemory → length (drawn self.old) < most_nodes) }
    {
        let id = self.len();
        if id >= MOST_NODES {
            return Err(BindErr::Many);
        }
        self.put(node, shape)?;
        Ok(id as NodeId)
    }

    fn put(&mut self, node: Node, shape: Shape) -> Result<(), NoMemory>
        requires room { length (drawn self.old) < most_nodes }
        requires below { HasChildrenBelow (length (drawn self.old)) node }
        requires named { IsNamed node shape }
        ensures grows { OnOk result (Grows self.old self.new (level (drawn self.old) node shape ∷ [])) }
        ensures id { OnOk result
            (IsDrawn self.new (length (drawn self.old)) (level (drawn self.old) node shape)) }
    {
        self.entries.push(Entry { node, shape })?;
        Ok(())
    }

    /// Takes a node as that of the next type.
    pub(crate) fn name(&mut self, id: NodeId) -> Result<(), NoMemory>
        requires { id < length (drawn self.old) }
        ensures nodes { OnOk result (drawn self.new ≡ drawn self.old) }
        ensures types { OnOk result (known self.new ≡ known self.old ++ at (drawn self.old) id ∷ []) }
    {
        self.types.push(id)?;
        Ok(())
    }

    /// The node of a type.
    pub(crate) fn type_node(&self, k: u32) -> NodeId
        requires { k < length (known self.now) }
        ensures { IsDrawn self.now result (at (known self.now) k) }
    {
        self.types.as_slice()[k as usize]
    }

    /// A node with its shape.
    pub(crate) fn entry(&self, id: NodeId) -> &Entry
        requires { id < length (drawn self.now) }
        ensures named { IsNamed result.now.node result.now.shape }
        ensures below { HasChildrenBelow id result.now.node }
        ensures is { at (drawn self.now) id ≡ level (drawn self.now) result.now.node result.now.shape }
    {
        &self.entries[id as usize]
    }

    /// How many nodes there are.
    pub(crate) fn len(&self) -> usize
        ensures value { result ≡ length (drawn self.now) }
        ensures few { result ≤ most_nodes }
    {
        self.entries.len()
    }

    /// The nodes with their shapes.
    pub(crate) fn into_entries(self) -> Vec<Entry>
        ensures nodes { map (λ (e : EntryRecord). e.node) result.items ≡ self.nodes }
        ensures shapes { map (λ (e : EntryRecord). e.shape) result.items ≡ self.shapes }
        ensures sketch { IsSketch self }
    {
        let Draft { entries, types: _ } = self;
        entries
    }
}
