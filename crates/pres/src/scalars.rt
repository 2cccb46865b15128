//! What types stand for where they are scalars.

ghost use Rattle.std.specs.Prelude.{◌≡◌, ◌<◌, map, length, IfOk, IsTrue, Some, IfSome};
ghost use Rattle.std.specs.Option.{option_map};
ghost use Rattle.aoi.specs.Shapes.{seen};
ghost use Rattle.aoi.specs.Sound.{are_distinct};
ghost use Rattle.pres.specs.Drafts.{drawn, known, is_drawable, number_in, enum_in};
ghost use Rattle.pres.specs.Faces.{at, labels_of, sign_of, scalar, number};
ghost use Rattle.pres.specs.Named.{IsTagShape};
ghost use Rattle.pres.specs.Offers.{face_of, packed, sign_in};

use crate::draft::Draft;
use crate::naming::{enum_tag, item_table};
use crate::sorting::labels_of;
use crate::{ItemTable, Shape};
use aoi::Ty;
use kit_base::NoMemory;
use mint::kind::Kind;
use mint::node::{Labels, Node, Tag};
use mint::table::NodeId;
use std::alloc::Global;

/// A kind whose numbers stand together.
fn unless_bool(kind: Kind) -> Option<Kind>
    ensures { result ≡ packed (scalar (number kind)) }
{
    match kind {
        Kind::Bool => None,
        _ => Some(kind),
    }
}

impl Draft {
    /// The kind of a node that is a number.
    fn node_kind(&self, id: NodeId) -> Option<Kind>
        requires { id < length (drawn self.now) }
        ensures { result ≡ number_in (at (drawn self.now) id) }
    {
        match self.entry(id).node {
            Node::Num(kind) => Some(kind),
            _ => None,
        }
    }

    /// The labels and the items of a node that is an enum.
    fn node_enum(&self, id: NodeId) -> Option<(&Labels, &ItemTable)>
        requires { id < length (drawn self.now) }
        ensures value { option_map (λ p. p.1.now) result ≡ enum_in (at (drawn self.now) id) }
        ensures labels { IfSome result (λ p. p.0.now ≡ labels_of p.1.now) }
        ensures distinct { IfSome result (λ p. IsTrue (are_distinct (map (λ i. i.0) p.1.now))) }
    {
        let entry = self.entry(id);
        match (&entry.node, &entry.shape) {
            (Node::Enum(labels), Shape::LabelNames(items)) => Some((labels, items)),
            _ => None,
        }
    }

    /// The labels of a node that is an enum, and its items, each with one more owner.
    fn shared_enum(&self, id: NodeId) -> Result<Option<(Labels, ItemTable)>, NoMemory>
        requires { id < length (drawn self.now) }
        ensures value { IfOk result (λ o. option_map (λ p. p.1) o ≡ enum_in (at (drawn self.now) id)) }
        ensures labels { IfOk result (λ o. IfSome o (λ p. p.0 ≡ labels_of p.1)) }
        ensures distinct { IfOk result
            (λ o. IfSome o (λ p. IsTrue (are_distinct (map (λ i. i.0) p.1)))) }
    {
        match self.node_enum(id) {
            Some((labels, items)) => Ok(Some((labels.share()?, items.share()?))),
            None => Ok(None),
        }
    }

    /// The kind of a type that is a number.
    fn kind(&self, ty: &Ty) -> Option<Kind>
        requires { IsTrue (is_drawable (length (known self.now)) (seen ty.now)) }
        ensures { result ≡ number_in (face_of (known self.now) (seen ty.now)) }
    {
        match ty {
            Ty::Num(kind) => Some(*kind),
            Ty::Named(k) => self.node_kind(self.type_node(*k)),
            _ => None,
        }
    }

    /// The labels and the items of a type that is an enum. Those of a type by its number are its node's, which are not
    /// sorted again.
    fn enum_of(&self, alloc: Global, ty: &Ty) -> Result<Option<(Labels, ItemTable)>, NoMemory>
        requires { IsTrue (is_drawable (length (known self.now)) (seen ty.now)) }
        ensures value { IfOk result
            (λ o. option_map (λ p. p.1) o ≡ enum_in (face_of (known self.now) (seen ty.now))) }
        ensures labels { IfOk result (λ o. IfSome o (λ p. p.0 ≡ labels_of p.1)) }
        ensures distinct { IfOk result
            (λ o. IfSome o (λ p. IsTrue (are_distinct (map (λ i. i.0) p.1)))) }
    {
        match ty {
            Ty::Enum(items) => Ok(Some((
                labels_of(alloc, items.as_slice())?,
                item_table(alloc, items.as_slice())?,
            ))),
            Ty::Named(k) => self.shared_enum(self.type_node(*k)),
            _ => Ok(None),
        }
    }

    /// The kind of elements that stand together.
    pub(crate) fn packed(&self, ty: &Ty) -> Option<Kind>
        requires { IsTrue (is_drawable (length (known self.now)) (seen ty.now)) }
        ensures { result ≡ packed (face_of (known self.now) (seen ty.now)) }
    {
        match self.kind(ty) {
            Some(kind) => unless_bool(kind),
            None => None,
        }
    }

    /// The tag that a type is, and its shape.
    pub(crate) fn tag(&self, alloc: Global, ty: &Ty) -> Result<(Tag, Shape), NoMemory>
        requires { IsTrue (is_drawable (length (known self.now)) (seen ty.now)) }
        ensures named { IfOk result (λ t. IsTagShape t.0 t.1) }
        ensures sign { IfOk result (λ t. sign_of t.0 t.1 ≡ sign_in (face_of (known self.now) (seen ty.now))) }
    {
        let parts = self.enum_of(alloc, ty)?;
        match parts {
            Some((labels, items)) => Ok(enum_tag(labels, items)),
            None => Ok((Tag::Num(self.kind(ty).unwrap_or(Kind::U32)), Shape::Plain)),
        }
    }
}
