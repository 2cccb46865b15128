//! The paths of a stub's lines, by the names of the interface file.

use crate::completions::first_word;
use crate::descent::word_at;
use crate::stub_items::word_in;
use crate::stub_parts::line_at;
use crate::text::{cut, from, number_in, shown, text_of};
use kit_base::NoMemory;
use mint::node::{Arms, Node, arm_of};
use mint::table::NodeId;
use pres::{Bound, Shape};
use std::alloc::Global;

/// A block that is open, and the line that begins its body.
#[derive(Clone, Copy)]
struct Block<'a> {
    line: &'a [u8],
    way: &'a [u8],
}

/// A path, and the node that it leads to.
#[derive(Drop)]
struct Place<'b> {
    bound: &'b Bound,
    path: String,
    id: Option<NodeId>,
}

/// The path of a line of a stub's text, which begins at an octet; none where it has none, or is one of a code that is called.
pub fn path_said(
    alloc: Global,
    bound: &Bound,
    id: NodeId,
    text: &[u8],
    start: usize,
) -> Result<Option<String>, NoMemory> {
    let mut blocks = Vec::new(alloc);
    let mut at = 0usize;
    for _ in 0..start {
        let line = line_at(text, at);
        if at >= start {
            break;
        }
        match first_word(line) {
            b"sub" => return Ok(None),
            b"chunk" | b"each" | b"switch" | b"some" => blocks.push(Block { line, way: &[] })?,
            b"case" | b"default" => {
                if let Some(block) = blocks.pop() {
                    blocks.push(Block {
                        line: block.line,
                        way: line,
                    })?;
                }
            }
            b"end" => {
                blocks.pop();
            }
            _ => {}
        }
        at = at.saturating_add(line.len()).saturating_add(1);
    }
    let mut place = Place {
        bound,
        path: text_of(alloc, "args")?,
        id: Some(id),
    };
    for block in blocks.as_slice() {
        place.lead(alloc, path_in(block.line))?;
        place.enter(block)?;
    }
    let own = path_in(line_at(text, start));
    if own.is_empty() {
        return Ok(None);
    }
    place.lead(alloc, own)?;
    Ok(Some(place.path))
}

/// The word of a line that is a path, if one is.
fn path_in(line: &[u8]) -> &[u8] {
    for i in 1..4usize {
        let word = word_in(line, i);
        if word.starts_with(b".") {
            return word;
        }
    }
    &[]
}

impl Place<'_> {
    /// Goes along a path of numbers.
    fn lead(&mut self, alloc: Global, path: &[u8]) -> Result<(), NoMemory> {
        let mut rest = from(path, 1);
        for _ in 0..path.len() {
            let length = rest.iter().take_while(|o| **o != b'.').count();
            let Some(i) = number_in(cut(rest, 0, length)) else {
                return Ok(());
            };
            self.field(alloc, i as usize)?;
            rest = from(rest, length.saturating_add(1));
        }
        Ok(())
    }

    /// Goes to a field.
    fn field(&mut self, alloc: Global, i: usize) -> Result<(), NoMemory> {
        let piece = match self.part() {
            Some((_, Shape::FieldNames(names))) => {
                format!(in alloc; ".{}", shown(alloc, word_at(names, i))?)?
            }
            _ => format!(in alloc; "[{i}]")?,
        };
        self.id = match self.part() {
            Some((Node::Group(ids), _)) => ids.get(i).copied(),
            _ => None,
        };
        Ok(self.path.push_str(piece.as_str())?)
    }

    /// The node, and its names.
    fn part(&self) -> Option<(&Node, &Shape)> {
        self.bound.part(self.id?)
    }

    /// Goes to the value of a block's body.
    fn enter(&mut self, block: &Block<'_>) -> Result<(), NoMemory> {
        let (piece, id) = match self.part() {
            Some((Node::Items(item, _), _)) => ("[]", Some(*item)),
            Some((Node::Maybe(item), _)) => ("[0]", Some(*item)),
            Some((Node::Choice(_, arms, other), _)) => (".value", arm_in(arms, *other, block.way)),
            _ => ("[]", None),
        };
        if first_word(block.line) != b"chunk".as_slice() {
            self.id = id;
            self.path.push_str(piece)?;
        }
        Ok(())
    }
}

/// The node of the arm that a line names.
fn arm_in(arms: &Arms, other: Option<NodeId>, way: &[u8]) -> Option<NodeId> {
    let Ok(word) = str::from_utf8(word_in(way, 1)) else {
        return other;
    };
    match word.parse::<i128>() {
        Ok(n) => arm_of(arms, other, &n),
        Err(_) => other,
    }
}
