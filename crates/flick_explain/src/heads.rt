//! `! head`, `! interface` and `! operation` of messages: the octets that they are said of.

use crate::octets::octets_reported;
use crate::text::shown;
use kit_base::NoMemory;
use pres::Bound;
use std::alloc::Global;
use wire_def::Back;

/// How many interfaces are listed.
const LISTED: usize = 8;

/// The octets that a fault of a head is said of: the first, and the one after the last.
fn head_octets(back: Back, word: &[u8]) -> (usize, usize) {
    match back {
        Back::Xdr => call_octets(word),
        Back::CdrBig | Back::CdrLittle => giop_octets(word),
        Back::Mach => mach_octets(word),
    }
}

/// Those of an ONC call.
fn call_octets(word: &[u8]) -> (usize, usize) {
    match word {
        b"Type" => (4, 8),
        b"Version" => (8, 12),
        b"Cred" | b"Pad" => (24, 48),
        _ => (0, 0),
    }
}

/// Those of a GIOP request.
fn giop_octets(word: &[u8]) -> (usize, usize) {
    match word {
        b"Magic" => (0, 4),
        b"Version" => (4, 6),
        b"Order" => (6, 7),
        b"Type" => (7, 8),
        b"Size" => (8, 12),
        b"Target" => (20, 22),
        _ => (0, 0),
    }
}

/// Those of a Mach message.
fn mach_octets(word: &[u8]) -> (usize, usize) {
    match word {
        b"Complex" => (0, 4),
        b"Size" => (4, 8),
        _ => (0, 0),
    }
}

/// The octets of a reply that a fault of its head is said of: the first, and the one after the last.
fn reply_octets(back: Back, word: &[u8], message: &[u8]) -> (usize, usize) {
    match back {
        Back::Xdr => onc_reply_octets(word),
        Back::CdrBig | Back::CdrLittle => giop_octets(word),
        Back::Mach => mach_reply_octets(word, message),
    }
}

/// Those of an ONC reply.
fn onc_reply_octets(word: &[u8]) -> (usize, usize) {
    match word {
        b"Type" => (4, 8),
        b"Item" => (8, 28),
        b"Cred" | b"Pad" => (12, 32),
        _ => (0, 0),
    }
}

/// Whether a Mach reply has a return code of 0, behind which the number of an arm may stand.
fn is_answered(message: &[u8]) -> bool {
    message.len() >= 32 && &message[24..32] == b"\x02\x20\x01\x10\0\0\0\0".as_slice()
}

/// Those of a Mach reply.
fn mach_reply_octets(word: &[u8], message: &[u8]) -> (usize, usize) {
    match word {
        b"Type" => (20, 24),
        b"Item" if is_answered(message) => (32, 40),
        b"Item" => (24, 32),
        _ => mach_octets(word),
    }
}

/// What the head of a reply is said to have, for a word.
pub fn reply_head_reported(
    alloc: Global,
    back: Back,
    word: &[u8],
    message: &[u8],
) -> Result<String, NoMemory> {
    let (first, end) = reply_octets(back, word, message);
    octets_reported(alloc, message, first, end)
}

/// What a head is said to have, for a word.
pub fn head_reported(
    alloc: Global,
    back: Back,
    word: &[u8],
    message: &[u8],
) -> Result<String, NoMemory> {
    let (first, end) = head_octets(back, word);
    octets_reported(alloc, message, first, end)
}

/// What a message names in place of an interface of the file.
pub fn interface_reported(
    alloc: Global,
    bound: &Bound,
    message: &[u8],
) -> Result<String, NoMemory> {
    let mut out = match bound.back() {
        Back::Xdr => octets_reported(alloc, message, 12, 20)?,
        Back::CdrBig | Back::CdrLittle => octets_reported(alloc, message, 12, 64)?,
        Back::Mach => octets_reported(alloc, message, 20, 24)?,
    };
    out.push_str("; the file has")?;
    let mut between = " ";
    let interfaces = bound.unit().interfaces().as_slice();
    for interface in &interfaces[..interfaces.len().min(LISTED)] {
        out.push_str(between)?;
        let name = shown(alloc, interface.name.as_slice())?;
        let text = format!(in alloc;
            "{name} (program {}, version {}, id {})",
            interface.program, interface.version, interface.base
        )?;
        out.push_str(text.as_str())?;
        between = ", ";
    }
    Ok(out)
}

/// What a message names in place of an operation.
pub fn operation_reported(alloc: Global, back: Back, message: &[u8]) -> Result<String, NoMemory> {
    match back {
        Back::Xdr => octets_reported(alloc, message, 20, 24),
        Back::CdrBig | Back::CdrLittle => octets_reported(alloc, message, 12, 64),
        Back::Mach => octets_reported(alloc, message, 20, 24),
    }
}
