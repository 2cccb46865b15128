//! The answers of `unreply`.

ghost use Rattle.std.specs.Prelude.{◌≡◌, ◌<◌, ◌+◌, ◌==◌, length, take, drop, true, IfOk, IfSome, Ok, slice_get};
ghost use Rattle.std.specs.List.{position};
ghost use Rattle.flick_engine.specs.Replies.{reply_type};
ghost use Rattle.flick_engine.specs.RepliesReceived.{IsTypedCame, came, replied, ReadReply};
ghost use Rattle.json_shape.specs.Operations.{replying};
ghost use Rattle.flick_lines.specs.Unmarshalled.{reply_text, IsOfOctets, IsOfReply, IsUnreplied};

use crate::text::copied;
use crate::unmarshalled::refusal_text;
use flick_engine::{Engine, Reply};
use hex::FromHexError;
use json_shape::{reply_named, write_reply};
use kit_base::{NoMemory, Octets};
use std::alloc::Global;

/// The answer of `unreply` to a line, without its line feed.
pub fn unreply(alloc: Global, engine: &Engine, line: &[u8]) -> Result<Octets, NoMemory>
    ensures { IfOk result (λ o. IsUnreplied engine.now.binding line.now o) }
{
    match space_in(line) {
        Some(space) => {
            let (name, digits) = parts(line, space);
            of_name(alloc, engine, name, digits)
        }
        None => copied(alloc, b"! request"),
    }
}

/// The place of the first space.
fn space_in(line: &[u8]) -> Option<usize>
    ensures value { result ≡ position (λ o. o == 32) line.now }
    ensures within { IfSome result (λ n. n < length line.now) }
{
    line.iter().position(|octet| *octet == b' ')
}

/// What is before the octet at a place, and what follows it.
fn parts(line: &[u8], place: usize) -> (&[u8], &[u8])
    requires { place < length line.now }
    ensures before { result.0.now ≡ take place line.now }
    ensures after { result.1.now ≡ drop (place + 1) line.now }
{
    (&line[..place], &line[place + 1..])
}

/// The answer to digits after the name of an operation.
fn of_name(alloc: Global, engine: &Engine, name: &[u8], digits: &[u8]) -> Result<Octets, NoMemory>
    ensures { IfOk result (λ o.
        IsOfReply engine.now.binding (replying engine.now.binding name.now) digits.now o) }
{
    match reply_named(alloc, engine.bound(), name)? {
        Some(op) => of_digits(alloc, engine, op, digits),
        None => copied(alloc, b"! op"),
    }
}

/// The answer to digits after the name of an operation that has a reply.
fn of_digits(alloc: Global, engine: &Engine, op: u32, digits: &[u8]) -> Result<Octets, NoMemory>
    requires op { op < length engine.now.binding.ops }
    requires reply { IfSome (slice_get engine.now.binding.ops op) (λ o. o.has_reply ≡ true) }
    ensures { IfOk result (λ o. IsOfReply engine.now.binding (Some op) digits.now o) }
{
    match kit_digits::decode(alloc, digits) {
        Ok(message) => of_octets(alloc, engine, op, message.as_slice()),
        Err(FromHexError::OutOfMemory) => Err(NoMemory),
        Err(_) => copied(alloc, b"! hex"),
    }
}

/// The answer to a message as a reply to an operation.
fn of_octets(alloc: Global, engine: &Engine, op: u32, message: &[u8]) -> Result<Octets, NoMemory>
    requires op { op < length engine.now.binding.ops }
    requires reply { IfSome (slice_get engine.now.binding.ops op) (λ o. o.has_reply ≡ true) }
    ensures { IfOk result (λ o.
        IsOfOctets (ReadReply engine.now.binding op) (reply_text engine.now.binding op) (Ok message.now) o) }
{
    match engine.unmarshal_reply(alloc, op, message) {
        Ok(reply) => copied(alloc, record_text(alloc, engine, op, &reply)?.as_slice()),
        Err(refusal) => copied(alloc, refusal_text(alloc, refusal)?.as_bytes()),
    }
}

/// The record of a reply as JSON without blanks: straight from its value, or by its tree.
fn record_text(alloc: Global, engine: &Engine, op: u32, reply: &Reply) -> Result<Vec<u8>, NoMemory>
    requires op { op < length engine.now.binding.ops }
    requires reply { IfSome (slice_get engine.now.binding.ops op) (λ o. o.has_reply ≡ true) }
    requires typed { IsTypedCame (reply_type engine.now.binding op) (came reply.now.outcome) }
    ensures { IfOk result (λ text. text.items ≡ reply_text engine.now.binding op (replied reply.now)) }
{
    let bound = engine.bound();
    match json_shape::reply_text(alloc, bound, op, &reply.head, &reply.outcome)? {
        Some(text) => Ok(text),
        None => by_tree(alloc, engine, op, reply),
    }
}

/// The record of a reply by its tree.
fn by_tree(alloc: Global, engine: &Engine, op: u32, reply: &Reply) -> Result<Vec<u8>, NoMemory>
    requires op { op < length engine.now.binding.ops }
    requires reply { IfSome (slice_get engine.now.binding.ops op) (λ o. o.has_reply ≡ true) }
    requires typed { IsTypedCame (reply_type engine.now.binding op) (came reply.now.outcome) }
    ensures { IfOk result (λ text. text.items ≡ reply_text engine.now.binding op (replied reply.now)) }
{
    let record = write_reply(alloc, engine.bound(), op, &reply.head, &reply.outcome)?;
    Ok(record.to_vec(alloc)?)
}
