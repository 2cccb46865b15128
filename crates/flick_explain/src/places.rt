//! Places in a text: line and column, and the line with a mark below it.

use crate::text::{cut, from, shown};
use kit_base::NoMemory;
use std::alloc::Global;

/// The octets of a line that are shown.
const SHOWN: usize = 160;

/// How many octets before a place are shown of a long line.
const BEFORE: usize = 80;

/// A place in a file.
#[derive(Clone, Copy)]
pub struct Place {
    /// The line, from 1.
    pub line: usize,
    /// How many octets of the line are before it.
    pub before: usize,
}

/// The line and column of an octet.
pub fn place_of(text: &[u8], at: usize) -> Place {
    let before = cut(text, 0, at);
    let feeds = before.iter().filter(|o| **o == b'\n').count();
    let past = before.iter().rev().take_while(|o| **o != b'\n').count();
    Place {
        line: feeds.saturating_add(1),
        before: past,
    }
}

/// The line that an octet is on.
fn line_at(text: &[u8], at: usize, place: Place) -> &[u8] {
    let rest = from(text, at.saturating_sub(place.before));
    let length = rest.iter().take_while(|o| **o != b'\n').count();
    cut(rest, 0, length)
}

/// `PATH:LINE:COLUMN: MESSAGE`, the line, and a mark below the octet.
pub fn pointed(
    alloc: Global,
    path: &[u8],
    text: &[u8],
    at: usize,
    message: &str,
) -> Result<String, NoMemory> {
    let place = place_of(text, at);
    let mut out = format!(in alloc;
        "{}:{}:{}: {message}\n",
        shown(alloc, path)?,
        place.line,
        place.before.saturating_add(1)
    )?;
    put_line(alloc, &mut out, line_at(text, at, place), place.before)?;
    Ok(out)
}

/// A line, or what is around the place where it is long, and a mark below the place.
fn put_line(alloc: Global, out: &mut String, line: &[u8], before: usize) -> Result<(), NoMemory> {
    let skipped = if before > SHOWN {
        before.saturating_sub(BEFORE)
    } else {
        0
    };
    let rest = from(line, skipped);
    let window = cut(rest, 0, rest.len().min(SHOWN));
    out.push_str(shown(alloc, window)?.as_str())?;
    out.push('\n')?;
    for octet in cut(window, 0, window.len().min(before.saturating_sub(skipped))) {
        out.push(if *octet == 9 { '\t' } else { ' ' })?;
    }
    out.push_str("^\n")?;
    Ok(())
}
