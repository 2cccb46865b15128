//! `! meaning`: the first item of a stub that is not that of the kit's own.

use crate::command::Run;
use crate::fronts::bound_of;
use crate::records::dotted;
use crate::stub_items::{Item, items_of};
use crate::stub_parts::line_at;
use crate::stub_paths::path_said;
use crate::text::{from, shown};
use flick_engine::Engine;
use kit_base::{Name, NoMemory, Octets};
use mint::table::NodeId;
use pres::Bound;
use std::alloc::Global;
use stub_print::print_send;
use wire_def::Back;

/// What a stub has where our own has something else.
#[derive(Drop)]
pub struct Differing {
    /// How many lines come before it.
    pub lines: usize,
    /// What is said of it.
    pub reported: String,
}

/// The text of the code of an operation's requests.
pub fn own_text(
    alloc: Global,
    run: &Run<'_>,
    text: &[u8],
    name: &Name,
) -> Result<Option<Octets>, NoMemory> {
    match bound_of(alloc, run.front, run.back, text)? {
        Ok(bound) => {
            let engine = engine_of(alloc, bound, run.minor)?;
            text_in(alloc, &engine, name)
        }
        Err(_) => Ok(None),
    }
}

/// The engine of a binding with messages of a version.
fn engine_of(alloc: Global, bound: Bound, minor: u8) -> Result<Engine, NoMemory> {
    match bound.back() {
        Back::CdrBig | Back::CdrLittle if minor == 2 => Engine::compile_minor(alloc, bound, 2),
        _ => Engine::compile(alloc, bound),
    }
}

/// The text of the code of the first operation of this name.
fn text_in(alloc: Global, engine: &Engine, name: &Name) -> Result<Option<Octets>, NoMemory> {
    for (i, found) in engine.bound().ops().as_slice().iter().enumerate() {
        if dotted(alloc, engine.bound(), found)?.as_slice() == name.as_slice() {
            return text_at(alloc, engine, name, i);
        }
    }
    Ok(None)
}

/// The text of the code of an operation, if there is one of this number.
fn text_at(
    alloc: Global,
    engine: &Engine,
    name: &Name,
    place: usize,
) -> Result<Option<Octets>, NoMemory> {
    match u32::try_from(place) {
        Ok(op) if (op as usize) < engine.bound().ops().len() => {
            Ok(Some(print_send(alloc, name, engine.send_code(op))?))
        }
        _ => Ok(None),
    }
}

/// A put without its offset.
fn without_offset(line: &[u8]) -> &[u8] {
    match line.strip_prefix(b"at ") {
        Some(rest) => {
            let digits = rest.iter().take_while(|o| **o != b' ').count();
            from(rest, digits)
        }
        None => line,
    }
}

/// Whether an item of a text is that of another text.
fn is_same(text: &[u8], item: &Item, own: &[u8], other: &Item) -> bool {
    match (item.value, other.value) {
        (Some(value), Some(wanted)) => value == wanted,
        (None, None) => {
            let line = without_offset(line_at(text, item.start));
            item.octet == other.octet && line == without_offset(line_at(own, other.start))
        }
        _ => false,
    }
}

/// The first item of a text that differs from that of our own, over a node of requests.
pub fn first_other(
    alloc: Global,
    bound: &Bound,
    id: NodeId,
    text: &[u8],
    own: &[u8],
) -> Result<Option<Differing>, NoMemory> {
    let (Some(theirs), Some(ours)) = (items_of(alloc, text)?, items_of(alloc, own)?) else {
        return Ok(None);
    };
    for (i, item) in theirs.as_slice().iter().enumerate() {
        let Some(wanted) = ours.get(i) else {
            return Ok(None);
        };
        if !is_same(text, item, own, wanted) {
            let place = place_said(alloc, bound, id, own, wanted)?;
            let has = item_said(alloc, text, item)?;
            let wanted = item_said(alloc, own, wanted)?;
            let reported = format!(in alloc;
                "{place}the text has {has}, and our own code {wanted}"
            )?;
            let lines = item.lines;
            return Ok(Some(Differing { lines, reported }));
        }
    }
    Ok(None)
}

/// The octet and the path of an item, as far as it has them.
fn place_said(
    alloc: Global,
    bound: &Bound,
    id: NodeId,
    own: &[u8],
    item: &Item,
) -> Result<String, NoMemory> {
    let mut out = String::new(alloc);
    if let Some(at) = item.at {
        out.push_str(format!(in alloc; "octet {at}: ")?.as_str())?;
    }
    if let Some(path) = path_said(alloc, bound, id, own, item.start)? {
        out.push_str(format!(in alloc; "{path}: ")?.as_str())?;
    }
    Ok(out)
}

/// What an item is: an octet, or its line.
fn item_said(alloc: Global, text: &[u8], item: &Item) -> Result<String, NoMemory> {
    if let Some(value) = item.value {
        return Ok(format!(in alloc; "the octet {value:02x}")?);
    }
    let line = shown(alloc, line_at(text, item.start))?;
    if item.octet > 0 {
        return Ok(format!(in alloc; "octet {} of '{line}'", item.octet)?);
    }
    Ok(format!(in alloc; "'{line}'")?)
}
