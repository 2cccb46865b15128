//! `! body`: the argument, field or element that an octet of a message belongs to.

use crate::descent::word_at;
use crate::text::{cut, shown, text_of};
use head_kit::{CallHead, CallTarget};
use kit_base::NoMemory;
use kit_base::limits::LONGEST_MESSAGE;
use mint::kind::{Count, Kind};
use mint::node::{Arms, Node, NodeIds, Tag, arm_of};
use mint::table::NodeId;
use plain_wire::{Read, plain_read};
use pres::{Bound, FieldTable, Shape};
use std::alloc::Global;
use wire_def::{Back, Encoding};

/// More levels than any type has.
const LEVELS: u32 = 64;

/// A message with the layout of its body.
#[derive(Clone, Copy)]
pub struct Body<'a> {
    /// The interface file, bound.
    pub bound: &'a Bound,
    /// How the body is laid out.
    pub encoding: Encoding,
    /// The message.
    pub message: &'a [u8],
}

/// A step towards the fault: the part that it is in, and where that begins.
#[derive(Drop)]
struct Inner {
    piece: String,
    id: NodeId,
    at: usize,
}

/// The part of the arguments at which a message goes wrong.
pub fn part_reported(alloc: Global, bound: &Bound, message: &[u8]) -> Result<String, NoMemory> {
    let Some(called) = called_by(bound, message) else {
        return text_of(alloc, "args");
    };
    let CallTarget::Operation(op) = called.naming else {
        return text_of(alloc, "args");
    };
    let body = Body {
        bound,
        encoding: called.encoding,
        message,
    };
    match bound.ops().get(op as usize) {
        Some(op) => path_of(alloc, &body, op.request, called.used),
        None => text_of(alloc, "args"),
    }
}

/// What the head of a message names.
fn called_by(bound: &Bound, message: &[u8]) -> Option<CallHead> {
    match bound.back() {
        Back::Xdr => back_xdr::read_called(bound, message).ok(),
        Back::CdrBig | Back::CdrLittle => back_cdr::read_called(bound, message).ok(),
        Back::Mach => back_mach::read_called(bound, message).ok(),
    }
}

/// The path from the arguments to the innermost part that is not read.
fn path_of(alloc: Global, body: &Body<'_>, id: NodeId, at: usize) -> Result<String, NoMemory> {
    let mut path = text_of(alloc, "args")?;
    let mut node = id;
    let mut place = at;
    for _ in 0..LEVELS {
        match body.step(alloc, node, place)? {
            Some(inner) => {
                path.push_str(inner.piece.as_str())?;
                node = inner.id;
                place = inner.at;
            }
            None => return Ok(path),
        }
    }
    Ok(path)
}

impl Body<'_> {
    /// How many octets a value of a node has from a place on, where it is read.
    fn length(&self, alloc: Global, id: NodeId, at: usize) -> Result<Option<usize>, NoMemory> {
        let mint = self.bound.mint();
        let is_short = self.message.len() <= LONGEST_MESSAGE;
        if id as usize >= mint.len() || at > self.message.len() || !is_short {
            return Ok(None);
        }
        match plain_read(alloc, self.encoding, mint, id, at, self.message)? {
            Read::Value(_, used) => Ok(Some(used)),
            Read::Stop(_) => Ok(None),
        }
    }

    /// Into the part of a node that is not read, where it has parts.
    fn step(&self, alloc: Global, id: NodeId, at: usize) -> Result<Option<Inner>, NoMemory> {
        let Some((node, shape)) = self.bound.part(id) else {
            return Ok(None);
        };
        match node {
            Node::Group(ids) => match shape {
                Shape::FieldNames(names) => self.fields(alloc, ids, Some(names), at),
                _ => self.fields(alloc, ids, None, at),
            },
            Node::Items(item, size) => self.elements(alloc, *item, *size, at),
            Node::Choice(tag, arms, other) => self.arm(alloc, tag, arms, *other, at),
            Node::Maybe(item) => self.present(alloc, *item, at),
            _ => Ok(None),
        }
    }

    /// The first field that is not read, or the first argument where they have no names.
    fn fields(
        &self,
        alloc: Global,
        ids: &NodeIds,
        names: Option<&FieldTable>,
        at: usize,
    ) -> Result<Option<Inner>, NoMemory> {
        let mut place = at;
        for (i, id) in ids.as_slice().iter().enumerate() {
            match self.length(alloc, *id, place)? {
                Some(used) => place = place.saturating_add(used),
                None => {
                    return Ok(Some(Inner {
                        piece: piece_of(alloc, names, i)?,
                        id: *id,
                        at: place,
                    }));
                }
            }
        }
        Ok(None)
    }

    /// The first element that is not read, where the number of elements is.
    fn elements(
        &self,
        alloc: Global,
        item: NodeId,
        size: Count,
        at: usize,
    ) -> Result<Option<Inner>, NoMemory> {
        let Some((count, first)) = self.count(size, at) else {
            return Ok(None);
        };
        let mut place = first;
        for i in 0..count {
            match self.length(alloc, item, place)? {
                Some(used) => place = place.saturating_add(used),
                None => {
                    let piece = format!(in alloc; "[{i}]")?;
                    return Ok(Some(Inner {
                        piece,
                        id: item,
                        at: place,
                    }));
                }
            }
        }
        Ok(None)
    }

    /// How many elements there are, and where the first begins.
    fn count(&self, size: Count, at: usize) -> Option<(u64, usize)> {
        match size {
            Count::Exactly(n) => Some((u64::from(n), at)),
            Count::AtMost(most) => {
                let (n, first) = self.word(4, at)?;
                if n <= u64::from(most) {
                    Some((n, first))
                } else {
                    None
                }
            }
            Count::Any => self.word(4, at),
        }
    }

    /// The arm of a union, where its tag is read.
    fn arm(
        &self,
        alloc: Global,
        tag: &Tag,
        arms: &Arms,
        other: Option<NodeId>,
        at: usize,
    ) -> Result<Option<Inner>, NoMemory> {
        let Some((n, first)) = self.tag(tag, at) else {
            return Ok(None);
        };
        match arm_of(arms, other, &n) {
            Some(id) => {
                let piece = text_of(alloc, ".value")?;
                Ok(Some(Inner {
                    piece,
                    id,
                    at: first,
                }))
            }
            None => Ok(None),
        }
    }

    /// The number of a tag, and where what comes after it begins.
    fn tag(&self, tag: &Tag, at: usize) -> Option<(i128, usize)> {
        match tag {
            Tag::Enum(_) => {
                let (n, first) = self.word(4, at)?;
                Some((signed(n, 4), first))
            }
            Tag::Num(kind) => {
                let width = self.width(*kind);
                let (n, first) = self.word(width, at)?;
                let is_signed = kind.under() > 0;
                Some((
                    if is_signed {
                        signed(n, width)
                    } else {
                        i128::from(n)
                    },
                    first,
                ))
            }
        }
    }

    /// How many octets a number of a kind has here.
    fn width(&self, kind: Kind) -> usize {
        match self.encoding {
            Encoding::Xdr => kind.width().max(4),
            _ => kind.width(),
        }
    }

    /// The optional value, where its flag says that it is there.
    fn present(&self, alloc: Global, item: NodeId, at: usize) -> Result<Option<Inner>, NoMemory> {
        match self.word(4, at) {
            Some((1, first)) => {
                let piece = text_of(alloc, "[0]")?;
                Ok(Some(Inner {
                    piece,
                    id: item,
                    at: first,
                }))
            }
            _ => Ok(None),
        }
    }

    /// The number in the next octets, aligned, and the place after them. In a Mach message none is looked for.
    fn word(&self, width: usize, at: usize) -> Option<(u64, usize)> {
        let first = match self.encoding {
            Encoding::Xdr => at,
            Encoding::CdrBig | Encoding::CdrLittle => aligned(width, at),
            Encoding::Mach => return None,
        };
        let end = first.saturating_add(width);
        let octets = cut(self.message, first, end);
        if octets.is_empty() {
            return None;
        }
        let n = match self.encoding {
            Encoding::CdrLittle => little(octets),
            _ => big(octets),
        };
        Some((n, end))
    }
}

/// The number of some octets, the most significant first.
fn big(octets: &[u8]) -> u64 {
    let mut n = 0u64;
    for octet in octets {
        n = n.wrapping_mul(256).wrapping_add(u64::from(*octet));
    }
    n
}

/// The number of some octets, the least significant first.
fn little(octets: &[u8]) -> u64 {
    let mut n = 0u64;
    for i in (0..octets.len()).rev() {
        n = n.wrapping_mul(256).wrapping_add(u64::from(octets[i]));
    }
    n
}

/// A number of so many octets in two's complement.
fn signed(n: u64, width: usize) -> i128 {
    let whole: i128 = match width {
        1 => 256,
        2 => 65536,
        4 => 4294967296,
        _ => 18446744073709551616,
    };
    let n = i128::from(n);
    if n >= whole / 2 {
        n.saturating_sub(whole)
    } else {
        n
    }
}

/// The next place that is a multiple of a width.
fn aligned(width: usize, at: usize) -> usize {
    let past = match width {
        2 => at % 2,
        4 => at % 4,
        8 => at % 8,
        _ => 0,
    };
    if past == 0 {
        at
    } else {
        at.saturating_add(width.saturating_sub(past))
    }
}

/// The name of a field, or the place of an argument.
fn piece_of(alloc: Global, names: Option<&FieldTable>, i: usize) -> Result<String, NoMemory> {
    match names {
        Some(names) => Ok(format!(in alloc; ".{}", shown(alloc, word_at(names, i))?)?),
        None => Ok(format!(in alloc; "[{i}]")?),
    }
}
