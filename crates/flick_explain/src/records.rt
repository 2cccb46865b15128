//! `! json`, `! request` and `! op`: what is wrong with a line that is to be a request record.

use crate::text::{shown, text_of};
use kit_base::{NoMemory, Octets};
use pres::{Bound, Op};
use serde_json::{Category, Value as Json};
use std::alloc::Global;
use wire_def::Back;

/// How many operations are listed.
const LISTED: usize = 12;

/// The JSON of a line, where it is JSON.
pub fn json_of(alloc: Global, line: &[u8]) -> Result<Option<Json>, NoMemory> {
    let Ok(text) = str::from_utf8(line) else {
        return Ok(None);
    };
    match Json::from_str(alloc, text) {
        Ok(json) => Ok(Some(json)),
        Err(error) => {
            if error.classify() == Category::Memory {
                return Err(NoMemory);
            }
            Ok(None)
        }
    }
}

/// Where a line is not JSON.
pub fn json_reported(alloc: Global, line: &[u8]) -> Result<String, NoMemory> {
    let Ok(text) = str::from_utf8(line) else {
        return text_of(alloc, "the line is not UTF-8");
    };
    match Json::from_str(alloc, text) {
        Ok(_) => text_of(alloc, "the line is JSON"),
        Err(error) => {
            if error.classify() == Category::Memory {
                return Err(NoMemory);
            }
            Ok(format!(in alloc; "the JSON goes wrong at column {}", error.column())?)
        }
    }
}

/// Which member is not that of a request record.
pub fn request_reported(alloc: Global, back: Back, json: &Json) -> Result<String, NoMemory> {
    let Some(members) = json.as_object() else {
        return text_of(alloc, "the line is not an object");
    };
    for key in members.keys() {
        if !is_key(back, key.as_str()) {
            let key = shown(alloc, key.as_bytes())?;
            return Ok(format!(in alloc; "a record over this back end has no member '{key}'")?);
        }
    }
    member_reported(alloc, back, json)
}

/// Whether a record has a member of this name.
fn is_key(back: Back, key: &str) -> bool {
    key == "op" || key == "args" || key == head_key(back) || back == Back::Mach && key == "local"
}

/// The member that numbers a message.
pub fn head_key(back: Back) -> &'static str {
    match back {
        Back::Xdr => "xid",
        Back::CdrBig | Back::CdrLittle => "id",
        Back::Mach => "remote",
    }
}

/// Which known member is missing or of another type.
fn member_reported(alloc: Global, back: Back, json: &Json) -> Result<String, NoMemory> {
    let Some(op) = json.get("op") else {
        return text_of(alloc, "the member 'op' is missing");
    };
    if !op.is_string() {
        return text_of(alloc, "'op' is not a string");
    }
    if let Some(args) = json.get("args") {
        if !args.is_array() {
            return text_of(alloc, "'args' is not an array");
        }
    }
    let key = if is_word(json.get(head_key(back))) {
        "local"
    } else {
        head_key(back)
    };
    Ok(format!(in alloc; "'{key}' is not a whole number from 0 to 4294967295")?)
}

/// Whether a member is absent, or a whole number of 32 bits.
pub fn is_word(member: Option<&Json>) -> bool {
    match member {
        Some(json) => match json.as_u64() {
            Some(n) => n < 4294967296,
            None => false,
        },
        None => true,
    }
}

/// The name that a record gives its operation, and the names that the file has.
pub fn op_reported(alloc: Global, bound: &Bound, json: &Json) -> Result<String, NoMemory> {
    match json.get("op").and_then(Json::as_str) {
        Some(text) => unknown_reported(alloc, bound, text.as_bytes()),
        None => unknown_reported(alloc, bound, &[]),
    }
}

/// A name that no operation has, and the names that the file has.
pub fn unknown_reported(alloc: Global, bound: &Bound, name: &[u8]) -> Result<String, NoMemory> {
    let name = shown(alloc, name)?;
    let mut out = format!(in alloc; "no operation is named '{name}'; the file has")?;
    let mut between = " ";
    let ops = bound.ops().as_slice();
    for op in &ops[..ops.len().min(LISTED)] {
        out.push_str(between)?;
        out.push_str(shown(alloc, dotted(alloc, bound, op)?.as_slice())?.as_str())?;
        between = ", ";
    }
    if ops.len() > LISTED {
        out.push_str(" and more")?;
    }
    Ok(out)
}

/// The name of an operation in a record.
pub fn dotted(alloc: Global, bound: &Bound, op: &Op) -> Result<Octets, NoMemory> {
    let mut name = Octets::new(alloc);
    if let Some(interface) = bound.unit().interfaces().get(op.interface as usize) {
        name.append(interface.name.as_slice())?;
    }
    name.append(b".")?;
    name.append(op.name.as_slice())?;
    Ok(name)
}

/// The operation that a record names.
pub fn op_of<'b>(alloc: Global, bound: &'b Bound, json: &Json) -> Result<Option<&'b Op>, NoMemory> {
    let Some(text) = json.get("op").and_then(Json::as_str) else {
        return Ok(None);
    };
    for op in bound.ops().as_slice() {
        if is_named(dotted(alloc, bound, op)?.as_slice(), text) {
            return Ok(Some(op));
        }
    }
    Ok(None)
}

/// Whether a text is that of the octets, a character each.
pub fn is_named(octets: &[u8], text: &str) -> bool {
    let mut left = octets.iter();
    for c in text.chars() {
        match left.next() {
            Some(octet) if u32::from(*octet) == u32::from(c) => {}
            _ => return false,
        }
    }
    left.next().is_none()
}
