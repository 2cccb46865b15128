//! Tables as text.

use crate::entry::{Entry, What};
use crate::stops::{Stop, Why};
use crate::table::Table;
use kit_base::NoMemory;
use std::alloc::Global;
use wire_def::{FaultKind, HeadErr};

/// How many octets a line has.
const ACROSS: usize = 16;

/// The text of the table of a message: a line for each entry, with the place and the digits of its first sixteen
/// octets; a line for each sixteen octets more; and where it stops.
pub fn print_table(alloc: Global, table: &Table, message: &[u8]) -> Result<String, NoMemory> {
    let mut out = String::new(alloc);
    for entry in table.entries.as_slice() {
        put_entry(alloc, &mut out, entry, message)?;
    }
    if let Some(stop) = &table.stop {
        put_stop(alloc, &mut out, stop, message)?;
    }
    Ok(out)
}

/// The octets from one place up to another, or none where they are not there.
fn cut(octets: &[u8], from: usize, to: usize) -> &[u8] {
    match octets.get(from..to) {
        Some(piece) => piece,
        None => &[],
    }
}

/// The lines of an entry.
fn put_entry(
    alloc: Global,
    out: &mut String,
    entry: &Entry,
    message: &[u8],
) -> Result<(), NoMemory> {
    let first = entry.first;
    let next = first.saturating_add(ACROSS).min(entry.end);
    let digits = spaced(alloc, cut(message, first, next))?;
    let word = word_of(entry.what);
    let said = said_of(alloc, entry)?;
    let line = format!(in alloc; "{first:>7}  {digits:<35}  {word:<10} {said}")?;
    out.push_str(line.as_str().trim_end())?;
    out.push_str("\n")?;
    put_more(alloc, out, next, entry.end, message)
}

/// The lines of the octets of an entry after its first line.
fn put_more(
    alloc: Global,
    out: &mut String,
    first: usize,
    end: usize,
    message: &[u8],
) -> Result<(), NoMemory> {
    let mut at = first;
    for _ in 0..message.len() {
        if at >= end {
            return Ok(());
        }
        let next = at.saturating_add(ACROSS).min(end);
        let digits = spaced(alloc, cut(message, at, next))?;
        let line = format!(in alloc; "{at:>7}  {digits}\n")?;
        out.push_str(line.as_str())?;
        at = next;
    }
    Ok(())
}

/// The digits of at most sixteen octets, with a blank after each four octets.
fn spaced(alloc: Global, octets: &[u8]) -> Result<String, NoMemory> {
    let mut out = String::new(alloc);
    for first in [0usize, 4, 8, 12] {
        let piece = cut(octets, first, octets.len().min(first + 4));
        if first > 0 && !piece.is_empty() {
            out.push(' ')?;
        }
        let digits = kit_digits::encode(alloc, piece)?;
        out.push_str(digits.as_str())?;
    }
    Ok(out)
}

/// The word of what octets are.
fn word_of(what: What) -> &'static str {
    match what {
        What::Head => "head",
        What::Length => "length",
        What::Value => "value",
        What::Optional => "optional",
        What::Descriptor => "descriptor",
        What::Padding => "padding",
        What::End => "end",
        What::Rest => "rest",
    }
}

/// Path, type and value of an entry.
fn said_of(alloc: Global, entry: &Entry) -> Result<String, NoMemory> {
    let mut out = String::new(alloc);
    out.push_str(entry.path.as_str())?;
    if !entry.of_type.as_str().is_empty() {
        out.push_str(": ")?;
        out.push_str(entry.of_type.as_str())?;
    }
    if !entry.value.as_str().is_empty() {
        out.push_str(" = ")?;
        out.push_str(entry.value.as_str())?;
    }
    Ok(out)
}

/// The line of where a message is read no further, with the next octets.
fn put_stop(alloc: Global, out: &mut String, stop: &Stop, message: &[u8]) -> Result<(), NoMemory> {
    let at = stop.at;
    let next = at.saturating_add(ACROSS).min(message.len());
    let digits = spaced(alloc, cut(message, at, next))?;
    let (word, kind, cause) = cause_of(stop.why);
    let line = format!(in alloc; "{at:>7}  {digits:<35}  stop       {word}{kind}: {cause}\n")?;
    out.push_str(line.as_str())?;
    Ok(())
}

/// The words of a fault, as `unmarshal` has them, and what they mean.
fn cause_of(why: Why) -> (&'static str, &'static str, &'static str) {
    match why {
        Why::Long => ("long", "", "a message has at most 4,194,304 octets"),
        Why::Head(fault) => ("head ", head_word(fault), head_cause(fault)),
        Why::Interface => ("interface", "", "no interface of the file is named"),
        Why::Operation => ("operation", "", "the interface has no such operation"),
        Why::Body(kind) => ("body ", body_word(kind), body_cause(kind)),
        Why::Trailing => ("trailing", "", "octets follow the last value"),
    }
}

/// The word of a fault of a head.
fn head_word(fault: HeadErr) -> &'static str {
    match fault {
        HeadErr::Short => "Short",
        HeadErr::Magic => "Magic",
        HeadErr::Version => "Version",
        HeadErr::Type_ => "Type",
        HeadErr::Size => "Size",
        HeadErr::Order => "Order",
        HeadErr::Pad => "Pad",
        HeadErr::Text => "Text",
        HeadErr::Cred => "Cred",
        HeadErr::Complex => "Complex",
        HeadErr::Item => "Item",
        HeadErr::Target => "Target",
    }
}

/// What a fault of a head means.
fn head_cause(fault: HeadErr) -> &'static str {
    match fault {
        HeadErr::Short => "the head is cut off",
        HeadErr::Magic => "the letters GIOP are not there",
        HeadErr::Version => "another version of the protocol",
        HeadErr::Type_ => "a message of another type",
        HeadErr::Size => "not the number of the message's octets",
        HeadErr::Order => "neither 0 nor 1",
        HeadErr::Pad => "padding that is not 0",
        HeadErr::Text => "the one octet 0 is not at the string's end",
        HeadErr::Cred => "more than 400 octets",
        HeadErr::Complex => "bit 31 announces rights or memory",
        HeadErr::Item => "a number that the field cannot have",
        HeadErr::Target => "the target is not given by a key",
    }
}

/// The word of a fault of a body.
fn body_word(kind: FaultKind) -> &'static str {
    match kind {
        FaultKind::Short => "Short",
        FaultKind::OverBound => "OverBound",
        FaultKind::BadValue => "BadValue",
        FaultKind::BadPad => "BadPad",
        FaultKind::BadText => "BadText",
        FaultKind::BadItem => "BadItem",
    }
}

/// What a fault of a body means.
fn body_cause(kind: FaultKind) -> &'static str {
    match kind {
        FaultKind::Short => "the message ends here",
        FaultKind::OverBound => "a length above its bound",
        FaultKind::BadValue => "out of range, no label, or no arm's discriminant",
        FaultKind::BadPad => "padding that is not 0",
        FaultKind::BadText => "an octet 0 inside a text, or none at its end",
        FaultKind::BadItem => "a descriptor of another name, size, form or number",
    }
}
