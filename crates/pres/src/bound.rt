//! A unit that is bound to a back end.

ghost use Rattle.std.specs.Prelude.{◌≡◌, ◌≤◌, length, slice_get, Some, IfNone, IfSome};
ghost use Rattle.aoi.specs.Plain.{plain};
ghost use Rattle.mint.specs.Types.{HasChildrenBelow, type_at};
ghost use Rattle.pres.specs.Bindings.{IsBinding};
ghost use Rattle.pres.specs.Faces.{face_at, faces, level, type_of};
ghost use Rattle.pres.specs.Named.{IsNamed};
ghost use Rattle.pres.specs.Raises.{IsBound, raise_from, raises};

use crate::raises::RaiseTables;
use crate::{Ops, Pres, Shape};
use aoi::Unit;
use mint::node::Node;
use mint::table::{Mint, NodeId};
use std::marker::Model;
use wire_def::Back;

/// A unit with the nodes that stand for its operations.
#[derive(Drop)]
pub struct Bound {
    mint: Mint,
    pres: Pres,
    ops: Ops,
    tables: RaiseTables,
    unit: Unit,
    back: Back,
}

impl Model for Bound {
    ghost use Rattle.pres.specs.Bindings.{Binding};
    ghost use Rattle.pres.specs.Raises.{IsBound};
    ghost use Rattle.std.specs.Coded.{codes};
    ghost use Rattle.aoi.specs.Plain.{plain};
    ghost use Rattle.aoi.specs.Stored.{coded_shape, coded_members};

    ghost Value = { Binding };

    ghost coded = { Prim.hlevel (codes, coded_shape, coded_members) };

    ghost view = { λ b. record { nodes = b.mint; shapes = b.pres; ops = b.ops; unit = plain b.unit; back = b.back } };

    ghost invariant = { λ b. IsBound (record { nodes = b.mint; shapes = b.pres; ops = b.ops; unit = plain b.unit; back = b.back }) b.tables.items };
}

impl Bound {
    /// Nodes, shapes and operations that stand for a unit, with what finds the exceptions of these.
    pub(crate) fn of_parts(
        mint: Mint,
        pres: Pres,
        ops: Ops,
        tables: RaiseTables,
        unit: Unit,
        back: Back,
    ) -> Bound
        requires { IsBound
            (record { nodes = mint; shapes = pres; ops = ops; unit = plain unit; back = back }) tables.items }
        ensures { result ≡ record { nodes = mint; shapes = pres; ops = ops; unit = plain unit; back = back } }
    {
        Bound {
            mint,
            pres,
            ops,
            tables,
            unit,
            back,
        }
    }

    /// The nodes.
    pub fn mint(&self) -> &Mint
        ensures { result.now ≡ self.now.nodes }
    {
        &self.mint
    }

    /// The shapes of the nodes, in order.
    pub fn pres(&self) -> &Pres
        ensures { result.now ≡ self.now.shapes }
    {
        &self.pres
    }

    /// The operations.
    pub fn ops(&self) -> &Ops
        ensures value { result.now ≡ self.now.ops }
        ensures stands { IsBinding self.now }
    {
        &self.ops
    }

    /// The number of the first exception of an operation whose name a string is, from 1.
    pub fn raise_named(&self, op: u32, text: &str) -> Option<u32>
        ensures { result ≡ raise_from text.now 1 (raises self.now op) }
    {
        match self.tables.get(op as usize) {
            Some(table) => table.number(text),
            None => None,
        }
    }

    /// The unit.
    pub fn unit(&self) -> &Unit
        ensures { plain result.now ≡ self.now.unit }
    {
        &self.unit
    }

    /// The back end.
    pub fn back(&self) -> Back
        ensures { result ≡ self.now.back }
    {
        self.back
    }

    /// A node and its shape.
    pub fn part(&self, id: NodeId) -> Option<(&Node, &Shape)>
        // The node and its shape.
        ensures node { IfSome result (λ p. slice_get self.now.nodes id ≡ Some p.0.now) }
        ensures shape { IfSome result (λ p. slice_get self.now.shapes id ≡ Some p.1.now) }
        ensures none { IfNone result (length self.now.nodes ≤ id) }
        // What they are.
        ensures below { IfSome result (λ p. HasChildrenBelow id p.0.now) }
        ensures named { IfSome result (λ p. IsNamed p.0.now p.1.now) }
        ensures is { IfSome result (λ p. face_at self.now.nodes self.now.shapes id
            ≡ level (faces self.now.nodes self.now.shapes) p.0.now p.1.now) }
        ensures type_ { type_at self.now.nodes id ≡ type_of (face_at self.now.nodes self.now.shapes id) }
    {
        let node = self.mint.node(id)?;
        let shape = self.pres.get(id as usize)?;
        Some((node, shape))
    }
}
