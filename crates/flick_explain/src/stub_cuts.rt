//! The places of a stub's text at which it may be cut: behind whole operations.

use crate::stub_parts::line_at;
use kit_base::{Listed, NoMemory, Octets};
use std::alloc::Global;

/// A place behind a whole operation, or behind the line that begins a body.
#[derive(Clone, Copy)]
pub struct Cut {
    /// The octet after it.
    pub at: usize,
    /// How many blocks are open there.
    pub open: usize,
    /// How many lines come before it.
    pub lines: usize,
}

/// The places at which a stub may be cut, in order.
pub type Cuts = Listed<Cut>;

/// Whether a line begins a block.
fn begins_block(line: &[u8]) -> bool {
    line.starts_with(b"chunk ")
        || line.starts_with(b"each ")
        || line.starts_with(b"switch ")
        || line.starts_with(b"some ")
}

/// Where a walk over the lines of a stub is.
#[derive(Clone, Copy)]
struct Place {
    cut: Cut,
    in_chunk: bool,
}

/// The place behind a line of an operation.
fn past(place: Place, line: &[u8]) -> Place {
    let is_end = line == b"end".as_slice();
    let open = if begins_block(line) {
        place.cut.open.saturating_add(1)
    } else if is_end {
        place.cut.open.saturating_sub(1)
    } else {
        place.cut.open
    };
    Place {
        cut: behind(place.cut, line, open),
        in_chunk: line.starts_with(b"chunk ") || place.in_chunk && !is_end,
    }
}

/// The place behind a line, with so many blocks open.
fn behind(cut: Cut, line: &[u8], open: usize) -> Cut {
    Cut {
        at: cut.at.saturating_add(line.len()).saturating_add(1),
        open,
        lines: cut.lines.saturating_add(1),
    }
}

/// The places at which the text of a stub may be cut: the first is behind its first line.
pub fn cuts_of(alloc: Global, text: &[u8]) -> Result<Cuts, NoMemory> {
    let mut cuts = Cuts::new(alloc);
    let start = Cut {
        at: 0,
        open: 0,
        lines: 0,
    };
    let mut place = Place {
        cut: behind(start, line_at(text, 0), 0),
        in_chunk: false,
    };
    for _ in 0..text.len() {
        if !place.in_chunk {
            cuts.push(place.cut)?;
        }
        let line = line_at(text, place.cut.at);
        let is_last = line == b"end".as_slice() || line.starts_with(b"sub ") || line.is_empty();
        if place.cut.open == 0 && is_last {
            return Ok(cuts);
        }
        place = past(place, line);
    }
    Ok(cuts)
}

/// Puts the lines that close so many blocks.
pub fn put_ends(out: &mut Octets, open: usize) -> Result<(), NoMemory> {
    for _ in 0..open {
        out.append(b"end\n")?;
    }
    Ok(())
}
