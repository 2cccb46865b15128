//! Lines of `unreply`: the name of an operation, a space, and the digits of a reply to it.

use crate::heads::reply_head_reported;
use crate::octets::{digits_reported, message_of, place_reported, trailing_reported};
use crate::records::{dotted, unknown_reported};
use crate::refusals::Refusal;
use crate::text::{cut, from, shown, text_of};
use kit_base::NoMemory;
use pres::Bound;
use std::alloc::Global;
use wire_def::Back;

/// What a line has that was refused.
pub fn reply_line_reported(
    alloc: Global,
    bound: &Bound,
    refusal: &Refusal<'_>,
    line: &[u8],
) -> Result<String, NoMemory> {
    match line.iter().position(|o| *o == b' ') {
        Some(at) => {
            let digits = from(line, at.saturating_add(1));
            named_reported(alloc, bound, refusal, cut(line, 0, at), digits)
        }
        None => text_of(alloc, "the line has no space"),
    }
}

/// What a name and the digits after it have that were refused.
fn named_reported(
    alloc: Global,
    bound: &Bound,
    refusal: &Refusal<'_>,
    name: &[u8],
    digits: &[u8],
) -> Result<String, NoMemory> {
    match refusal.word {
        b"op" => name_reported(alloc, bound, name),
        b"hex" => digits_reported(alloc, name.len().saturating_add(1), digits),
        _ => match message_of(alloc, digits)? {
            Some(message) => reply_reported(alloc, bound.back(), refusal, message.as_slice()),
            None => text_of(alloc, "what comes after the space is not a message"),
        },
    }
}

/// A name that no operation has, or one without a reply.
fn name_reported(alloc: Global, bound: &Bound, name: &[u8]) -> Result<String, NoMemory> {
    for op in bound.ops().as_slice() {
        if dotted(alloc, bound, op)?.as_slice() == name {
            let name = shown(alloc, name)?;
            return Ok(format!(in alloc; "'{name}' has no reply")?);
        }
    }
    unknown_reported(alloc, bound, name)
}

/// What a reply has that was refused.
fn reply_reported(
    alloc: Global,
    back: Back,
    refusal: &Refusal<'_>,
    message: &[u8],
) -> Result<String, NoMemory> {
    match refusal.word {
        b"head" => reply_head_reported(alloc, back, refusal.kind, message),
        b"body" => place_reported(alloc, message, refusal.at),
        _ => trailing_reported(alloc, message, refusal.kind),
    }
}
