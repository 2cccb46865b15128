//! The octets of a body, node by node.

use crate::entry::What;
use crate::layout::{filling_of, gap_of, width_of};
use crate::sayings::{Sense, field_path, member_path, number_said, place_path, said_of};
use crate::scalars::{nodes_of_kinds, number_at, value_at};
use crate::sheet::{Halt, Sheet, Told};
use kit_base::NoMemory;
use mint::kind::{Count, Kind};
use mint::node::{Arms, Node, NodeIds, Tag, arm_of};
use mint::table::{Mint, NodeId};
use mint::value::Value;
use pres::{Bound, FieldTable, Shape};
use std::alloc::Global;
use wire_def::Encoding;

/// More levels than any type has.
pub(crate) const LEVELS: u32 = 64;

/// A message with the layout of its body.
#[derive(Drop)]
pub(crate) struct Body<'a> {
    /// The interface file, bound.
    pub(crate) bound: &'a Bound,
    /// A node for each kind of number.
    pub(crate) kinds: Mint,
    /// How the body is laid out.
    pub(crate) encoding: Encoding,
    /// The message.
    pub(crate) message: &'a [u8],
}

impl<'a> Body<'a> {
    /// The body of a message that is laid out so.
    pub(crate) fn new(
        alloc: Global,
        bound: &'a Bound,
        encoding: Encoding,
        message: &'a [u8],
    ) -> Result<Body<'a>, NoMemory> {
        Ok(Body {
            bound,
            kinds: nodes_of_kinds(alloc)?,
            encoding,
            message,
        })
    }
}

impl Body<'_> {
    /// The value of a node from a place on, where it is read.
    pub(crate) fn value(
        &self,
        alloc: Global,
        id: NodeId,
        place: usize,
    ) -> Result<Option<Value>, NoMemory> {
        let mint = self.bound.mint();
        value_at(alloc, self.encoding, mint, id, place, self.message)
    }

    /// The number of a kind that stands by itself at a place, where it is read.
    fn number(&self, alloc: Global, kind: Kind, place: usize) -> Result<Option<i128>, NoMemory> {
        number_at(alloc, self.encoding, &self.kinds, kind, place, self.message)
    }

    /// The octets that align the next number, which has so many.
    pub(crate) fn tell_gap(&self, sheet: &mut Sheet<'_>, width: usize, path: &str) -> Told {
        let gap = gap_of(self.encoding, width, sheet.end());
        tell_padding(sheet, gap, path)
    }

    /// A number of a kind by itself, with what leads to it and what fills its item up. The number, where it is read.
    fn tell_lone(
        &self,
        sheet: &mut Sheet<'_>,
        kind: Kind,
        sense: Sense<'_>,
        path: &str,
    ) -> Result<Option<i128>, Halt> {
        let alloc = sheet.alloc();
        let n = self.number(alloc, kind, sheet.end())?;
        let said = number_said(alloc, path, kind, sense, n)?;
        let width = width_of(self.encoding, kind);
        if let Encoding::Mach = self.encoding {
            tell_descriptor(sheet, 4, path)?;
        }
        self.tell_gap(sheet, width, path)?;
        sheet.tell(width, said)?;
        tell_padding(sheet, filling_of(self.encoding, width), path)?;
        Ok(n)
    }

    /// A length by itself, and what it is.
    pub(crate) fn tell_count(&self, sheet: &mut Sheet<'_>, path: &str) -> Result<usize, Halt> {
        match self.tell_lone(sheet, Kind::U32, Sense::Length, path)? {
            Some(n) => match usize::try_from(n) {
                Ok(n) => Ok(n),
                Err(_) => Err(sheet.fault()),
            },
            None => Err(sheet.fault()),
        }
    }
}

/// So many octets, if any, of what is no value.
fn tell_other(sheet: &mut Sheet<'_>, n: usize, what: What, path: &str) -> Told {
    if n == 0 {
        return Ok(());
    }
    let alloc = sheet.alloc();
    let said = said_of(alloc, what, path, String::new(alloc), String::new(alloc))?;
    sheet.tell(n, said)
}

/// So many octets, if any, that align or fill up.
pub(crate) fn tell_padding(sheet: &mut Sheet<'_>, n: usize, path: &str) -> Told {
    tell_other(sheet, n, What::Padding, path)
}

/// A descriptor of so many octets.
pub(crate) fn tell_descriptor(sheet: &mut Sheet<'_>, n: usize, path: &str) -> Told {
    tell_other(sheet, n, What::Descriptor, path)
}

/// The octet 0 at the end of a text.
pub(crate) fn tell_end(sheet: &mut Sheet<'_>, path: &str) -> Told {
    tell_other(sheet, 1, What::End, path)
}

impl Body<'_> {
    /// The octets of a value of a node, for so many levels of types.
    #[cycle(walk)]
    pub(crate) fn tell(&self, sheet: &mut Sheet<'_>, id: NodeId, levels: u32, path: &str) -> Told {
        let Some((node, shape)) = self.bound.part(id) else {
            return Err(sheet.fault());
        };
        match node {
            Node::Void => Ok(()),
            Node::Num(kind) => self.tell_number(sheet, *kind, Sense::Number, path),
            Node::Enum(_) => self.tell_number(sheet, Kind::I32, Sense::Item(shape), path),
            Node::Text(count) => self.tell_text(sheet, id, *count, path),
            Node::Row(kind, count) => self.tell_row(sheet, id, *kind, *count, path),
            Node::Group(ids) => match shape {
                Shape::FieldNames(names) => self.tell_fields(sheet, ids, Some(names), levels, path),
                _ => self.tell_fields(sheet, ids, None, levels, path),
            },
            Node::Items(item, count) => self.tell_items(sheet, *item, *count, levels, path),
            Node::Choice(tag, arms, other) => {
                self.tell_arm(sheet, shape, tag, arms, *other, levels, path)
            }
            Node::Maybe(item) => self.tell_optional(sheet, *item, levels, path),
        }
    }

    /// A part of a value, one level deeper.
    #[cycle(walk)]
    fn tell_part(&self, sheet: &mut Sheet<'_>, id: NodeId, levels: u32, path: &str) -> Told {
        match levels.checked_sub(1) {
            Some(levels) => self.tell(sheet, id, levels, path),
            None => Err(sheet.fault()),
        }
    }

    /// A number that is a value.
    fn tell_number(&self, sheet: &mut Sheet<'_>, kind: Kind, sense: Sense<'_>, path: &str) -> Told {
        self.tell_lone(sheet, kind, sense, path)?;
        Ok(())
    }

    /// The fields of a struct, by their names, or by their places where they have none.
    #[cycle(walk)]
    fn tell_fields(
        &self,
        sheet: &mut Sheet<'_>,
        ids: &NodeIds,
        names: Option<&FieldTable>,
        levels: u32,
        path: &str,
    ) -> Told {
        for (i, id) in ids.as_slice().iter().enumerate() {
            let inner = field_path(sheet.alloc(), path, names, i)?;
            self.tell_part(sheet, *id, levels, inner.as_str())?;
        }
        Ok(())
    }

    /// A list: its count, where it has one, and its elements.
    #[cycle(walk)]
    fn tell_items(
        &self,
        sheet: &mut Sheet<'_>,
        item: NodeId,
        count: Count,
        levels: u32,
        path: &str,
    ) -> Told {
        let n = match count {
            Count::Exactly(n) => n as usize,
            Count::AtMost(_) | Count::Any => self.tell_count(sheet, path)?,
        };
        for i in 0..n {
            let inner = place_path(sheet.alloc(), path, i)?;
            self.tell_part(sheet, item, levels, inner.as_str())?;
        }
        Ok(())
    }

    /// A union: its discriminant, and the value of its arm.
    #[cycle(walk)]
    fn tell_arm(
        &self,
        sheet: &mut Sheet<'_>,
        shape: &Shape,
        tag: &Tag,
        arms: &Arms,
        other: Option<NodeId>,
        levels: u32,
        path: &str,
    ) -> Told {
        let Some(n) = self.tell_tag(sheet, shape, tag, path)? else {
            return Err(sheet.fault());
        };
        let Some(id) = arm_of(arms, other, &n) else {
            return Err(sheet.fault());
        };
        let inner = member_path(sheet.alloc(), path, "value")?;
        self.tell_part(sheet, id, levels, inner.as_str())
    }

    /// The discriminant of a union, and its number, where it is read.
    fn tell_tag(
        &self,
        sheet: &mut Sheet<'_>,
        shape: &Shape,
        tag: &Tag,
        path: &str,
    ) -> Result<Option<i128>, Halt> {
        let inner = member_path(sheet.alloc(), path, "tag")?;
        let (kind, sense) = match tag {
            Tag::Num(kind) => (*kind, Sense::Number),
            Tag::Enum(_) => (Kind::I32, Sense::Item(shape)),
        };
        self.tell_lone(sheet, kind, sense, inner.as_str())
    }

    /// An optional value: whether it is there, and it.
    #[cycle(walk)]
    fn tell_optional(&self, sheet: &mut Sheet<'_>, item: NodeId, levels: u32, path: &str) -> Told {
        match self.tell_lone(sheet, Kind::Bool, Sense::Presence, path)? {
            Some(0) => Ok(()),
            Some(_) => {
                let inner = place_path(sheet.alloc(), path, 0)?;
                self.tell_part(sheet, item, levels, inner.as_str())
            }
            None => Err(sheet.fault()),
        }
    }
}
