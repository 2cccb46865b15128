//! The nodes of types.

ghost use Rattle.std.specs.Prelude.{◌≡◌, [], ◌∷◌, ◌++◌, length, IfOk, IfErr, OnOk, IsTrue, None};
ghost use Rattle.std.specs.Option.{option_map};
ghost use Rattle.aoi.specs.Sound.{names_of};
ghost use Rattle.aoi.specs.Shapes.{seen, members, array, arrayed, structure, optional, enumeration, arms_seen, default_of};
ghost use Rattle.mint.specs.Types.{ArmsBelow, IsBelow};
ghost use Rattle.pres.specs.Faces.{arms_at, choice};
ghost use Rattle.pres.specs.Drafts.{Grows, IsDrawn, AreDrawn, AreArms, IsElement, Overflows, drawn, known, made_within, is_drawable, are_drawable, arms_drawable, faces_inside};
ghost use Rattle.pres.specs.Made.{made, made_inside, made_after};
ghost use Rattle.pres.specs.Offers.{face_of, arms_of, sign_in};

use crate::draft::Draft;
use crate::elements::Element;
use crate::naming::{field_names, item_table, member_names};
use crate::sorting::{labels_of, put_arm};
use crate::{BindErr, FieldTable, Shape};
use aoi::{Field, Items, RaiseFields, Ty};
use kit_base::NoMemory;
use kit_shared::Shared;
use mint::kind::Count;
use mint::node::{Arms, Node, NodeIds};
use mint::table::NodeId;
use std::alloc::Global;

impl Draft {
    /// Draws the nodes of a type after the others, and gives its own.
    #[cycle(draw)]
    pub(crate) fn draw(&mut self, alloc: Global, ty: &Ty) -> Result<NodeId, BindErr>
        requires { IsTrue (is_drawable (length (known self.old)) (seen ty.now)) }
        ensures grows { OnOk result (Grows self.old self.new (made (known self.old) (seen ty.now))) }
        ensures id { IfOk result (λ id. IsDrawn self.new id (face_of (known self.old) (seen ty.now))) }
        ensures cause { IfErr result
            (λ e. Overflows (drawn self.old ++ made (known self.old) (seen ty.now)) e) }
    {
        match ty {
            Ty::Void => self.push(Node::Void, Shape::Plain),
            Ty::Num(kind) => self.push(Node::Num(*kind), Shape::Plain),
            Ty::Enum(items) => self.draw_enum(alloc, items),
            Ty::Text(count) => self.push(Node::Text(*count), Shape::Plain),
            Ty::Array(item, count) => self.draw_arrays(alloc, item, *count, &[]),
            Ty::Arrays(item, count, within) => {
                self.draw_arrays(alloc, item, *count, within.as_slice())
            }
            Ty::Struct(fields) => self.draw_struct(alloc, fields.as_slice()),
            Ty::Union(tag, arms, other) => {
                let other = self.draw_other(alloc, other)?;
                let arms = self.draw_arms(alloc, arms.as_slice())?;
                self.draw_choice(alloc, tag, arms, other)
            }
            Ty::Optional(item) => self.draw_optional(alloc, item),
            Ty::Named(k) => Ok(self.type_node(*k)),
        }
    }

    fn draw_enum(&mut self, alloc: Global, items: &Items) -> Result<NodeId, BindErr>
        requires { IsTrue (is_drawable (length (known self.old)) (enumeration items.now)) }
        ensures grows { OnOk result
            (Grows self.old self.new (made (known self.old) (enumeration items.now))) }
        ensures id { IfOk result
            (λ id. IsDrawn self.new id (face_of (known self.old) (enumeration items.now))) }
        ensures cause { IfErr result
            (λ e. Overflows (drawn self.old ++ made (known self.old) (enumeration items.now)) e) }
    {
        let labels = labels_of(alloc, items.as_slice())?;
        let table = item_table(alloc, items.as_slice())?;
        self.push(Node::Enum(labels), Shape::LabelNames(table))
    }

    /// Draws the nodes of elements, unless they are numbers that stand together.
    #[cycle(draw)]
    fn draw_element(&mut self, alloc: Global, item: &Ty) -> Result<Element, BindErr>
        requires { IsTrue (is_drawable (length (known self.old)) (seen item.now)) }
        ensures grows { OnOk result (Grows self.old self.new (made_within (known self.old) (seen item.now))) }
        ensures element { IfOk result
            (λ e. IsElement self.new e (face_of (known self.old) (seen item.now))) }
        ensures cause { IfErr result
            (λ e. Overflows (drawn self.old ++ made_within (known self.old) (seen item.now)) e) }
    {
        match self.packed(item) {
            Some(kind) => Ok(Element::Packed(kind)),
            None => Ok(Element::Drawn(self.draw(alloc, item)?)),
        }
    }

    /// Draws the nodes of arrays of arrays, the innermost first.
    #[cycle(draw)]
    fn draw_arrays(
        &mut self,
        alloc: Global,
        item: &Ty,
        count: Count,
        within: &[Count],
    ) -> Result<NodeId, BindErr>
        requires { IsTrue
            (is_drawable (length (known self.old)) (array (arrayed (seen item.now) within.now) count)) }
        ensures grows { OnOk result (Grows self.old self.new
            (made (known self.old) (array (arrayed (seen item.now) within.now) count))) }
        ensures id { IfOk result (λ id. IsDrawn self.new id
            (face_of (known self.old) (array (arrayed (seen item.now) within.now) count))) }
        ensures cause { IfErr result (λ e. Overflows
            (drawn self.old ++ made (known self.old) (array (arrayed (seen item.now) within.now) count)) e) }
    {
        let mut element = self.draw_element(alloc, item)?;
        for i in 0..within.len() {
            let inner = within[within.len() - 1 - i];
            let id = self.draw_row(element, inner)?;
            element = Element::Drawn(id);
        }
        self.draw_row(element, count)
    }

    #[cycle(draw)]
    fn draw_optional(&mut self, alloc: Global, item: &Ty) -> Result<NodeId, BindErr>
        requires { IsTrue (is_drawable (length (known self.old)) (optional (seen item.now))) }
        ensures grows { OnOk result
            (Grows self.old self.new (made (known self.old) (optional (seen item.now)))) }
        ensures id { IfOk result
            (λ id. IsDrawn self.new id (face_of (known self.old) (optional (seen item.now)))) }
        ensures cause { IfErr result
            (λ e. Overflows (drawn self.old ++ made (known self.old) (optional (seen item.now))) e) }
    {
        let id = self.draw(alloc, item)?;
        self.push(Node::Maybe(id), Shape::Plain)
    }

    #[cycle(draw)]
    fn draw_struct(&mut self, alloc: Global, fields: &[Field]) -> Result<NodeId, BindErr>
        requires { IsTrue (is_drawable (length (known self.old)) (structure (members fields.now))) }
        ensures grows { OnOk result
            (Grows self.old self.new (made (known self.old) (structure (members fields.now)))) }
        ensures id { IfOk result
            (λ id. IsDrawn self.new id (face_of (known self.old) (structure (members fields.now)))) }
        ensures cause { IfErr result
            (λ e. Overflows (drawn self.old ++ made (known self.old) (structure (members fields.now))) e) }
    {
        let names = field_names(alloc, fields)?;
        self.draw_group(alloc, fields, names)
    }

    /// Draws the nodes of fields by their names.
    #[cycle(draw)]
    pub(crate) fn draw_group(
        &mut self,
        alloc: Global,
        fields: &[Field],
        names: FieldTable,
    ) -> Result<NodeId, BindErr>
        requires drawable { IsTrue
            (is_drawable (length (known self.old)) (structure (members fields.now))) }
        requires names { names ≡ names_of (members fields.now) }
        ensures grows { OnOk result
            (Grows self.old self.new (made (known self.old) (structure (members fields.now)))) }
        ensures id { IfOk result
            (λ id. IsDrawn self.new id (face_of (known self.old) (structure (members fields.now)))) }
        ensures cause { IfErr result
            (λ e. Overflows (drawn self.old ++ made (known self.old) (structure (members fields.now))) e) }
    {
        let ids = self.draw_fields(alloc, fields)?;
        self.push(Node::Group(ids), Shape::FieldNames(names))
    }

    /// Draws the nodes of an exception, whose members are kept once.
    pub(crate) fn draw_exception(
        &mut self,
        alloc: Global,
        fields: &Shared<RaiseFields>,
    ) -> Result<NodeId, BindErr>
        requires { IsTrue (is_drawable (length (known self.old)) (structure (members fields.now))) }
        ensures grows { OnOk result
            (Grows self.old self.new (made (known self.old) (structure (members fields.now)))) }
        ensures id { IfOk result
            (λ id. IsDrawn self.new id (face_of (known self.old) (structure (members fields.now)))) }
        ensures cause { IfErr result
            (λ e. Overflows (drawn self.old ++ made (known self.old) (structure (members fields.now))) e) }
    {
        let names = member_names(alloc, fields)?;
        self.draw_group(alloc, fields.get().as_slice(), names)
    }

    /// Draws the nodes of fields, and gives theirs in order.
    #[cycle(draw)]
    pub(crate) fn draw_fields(
        &mut self,
        alloc: Global,
        fields: &[Field],
    ) -> Result<NodeIds, BindErr>
        requires { IsTrue (are_drawable (length (known self.old)) (members fields.now)) }
        ensures grows { OnOk result
            (Grows self.old self.new (made_inside (known self.old) (members fields.now))) }
        ensures ids { IfOk result
            (λ ids. AreDrawn self.new ids (faces_inside (known self.old) (members fields.now))) }
        ensures cause { IfErr result
            (λ e. Overflows (drawn self.old ++ made_inside (known self.old) (members fields.now)) e) }
    {
        let mut ids = NodeIds::new(alloc);
        for field in fields {
            let id = self.draw(alloc, &field.ty)?;
            ids.push(id)?;
        }
        Ok(ids)
    }

    fn draw_choice(
        &mut self,
        alloc: Global,
        tag: &Ty,
        arms: Arms,
        other: Option<NodeId>,
    ) -> Result<NodeId, BindErr>
        requires tag { IsTrue (is_drawable (length (known self.old)) (seen tag.now)) }
        requires arms { ArmsBelow (length (drawn self.old)) arms }
        requires other { IsBelow (length (drawn self.old)) other }
        ensures grows { OnOk result (Grows self.old self.new (choice
            (sign_in (face_of (known self.old) (seen tag.now))) (arms_at (drawn self.old) arms other) ∷ [])) }
        ensures id { IfOk result (λ id. IsDrawn self.new id (choice
            (sign_in (face_of (known self.old) (seen tag.now))) (arms_at (drawn self.old) arms other))) }
        ensures cause { IfErr result (λ e. Overflows
            (drawn self.old ++ choice (sign_in (face_of (known self.old) (seen tag.now)))
            (arms_at (drawn self.old) arms other) ∷ []) e) }
    {
        let (tag, shape) = self.tag(alloc, tag)?;
        self.push(Node::Choice(tag, arms, other), shape)
    }

    /// Draws the nodes of arms, the last first, and gives the arms by their numbers.
    #[cycle(draw)]
    fn draw_arms(&mut self, alloc: Global, arms: &[(i128, Ty)]) -> Result<Arms, BindErr>
        requires { IsTrue (arms_drawable (length (known self.old)) (arms_seen arms.now None)) }
        ensures grows { OnOk result
            (Grows self.old self.new (made_after (known self.old) (arms_seen arms.now None))) }
        ensures arms { IfOk result
            (λ r. AreArms self.new r None (arms_of (known self.old) (arms_seen arms.now None))) }
        ensures cause { IfErr result
            (λ e. Overflows (drawn self.old ++ made_after (known self.old) (arms_seen arms.now None)) e) }
    {
        let mut sorted = Vec::new(alloc);
        for i in 0..arms.len() {
            let (n, ty) = &arms[arms.len() - 1 - i];
            let id = self.draw(alloc, ty)?;
            put_arm(&mut sorted, n, id)?;
        }
        let mut list = Arms::new(alloc);
        list.append(&sorted)?;
        Ok(list)
    }

    /// Draws the nodes of a default, if there is one.
    #[cycle(draw)]
    fn draw_other(
        &mut self,
        alloc: Global,
        other: &Option<Box<Ty>>,
    ) -> Result<Option<NodeId>, BindErr>
        requires { IsTrue (arms_drawable (length (known self.old))
            (default_of (option_map (λ b. seen b.value) other.now))) }
        ensures grows { OnOk result (Grows self.old self.new
            (made_after (known self.old) (default_of (option_map (λ b. seen b.value) other.now)))) }
        ensures other { IfOk result (λ o. AreArms self.new [] o
            (arms_of (known self.old) (default_of (option_map (λ b. seen b.value) other.now)))) }
        ensures cause { IfErr result (λ e. Overflows (drawn self.old
            ++ made_after (known self.old) (default_of (option_map (λ b. seen b.value) other.now))) e) }
    {
        match other {
            Some(ty) => Ok(Some(self.draw(alloc, ty)?)),
            None => Ok(None),
        }
    }
}
