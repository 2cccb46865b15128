//! What is said of a line of the input that was refused.

use crate::bodies::part_reported;
use crate::command::Verb;
use crate::heads::{head_reported, interface_reported, operation_reported};
use crate::misfits::misfit;
use crate::octets::{around, digits_reported, message_of, trailing_reported};
use crate::records::{json_of, json_reported, op_of, op_reported, request_reported};
use crate::refusals::Refusal;
use crate::reply_records::reply_record_reported;
use crate::text::{number_in, text_of};
use crate::unreplies::reply_line_reported;
use kit_base::NoMemory;
use pres::Bound;
use serde_json::Value as Json;
use std::alloc::Global;

/// What a refused line has, where it is given.
pub fn detail(
    alloc: Global,
    verb: Verb,
    bound: &Bound,
    refusal: &Refusal<'_>,
    line: &[u8],
) -> Result<String, NoMemory> {
    match refusal.word {
        b"long" => Ok(format!(in alloc; "the line has {} octets", line.len())?),
        _ if verb == Verb::Unreply => reply_line_reported(alloc, bound, refusal, line),
        b"json" => json_reported(alloc, line),
        b"request" | b"op" | b"value" => match json_of(alloc, line)? {
            Some(json) => record_detail(alloc, verb, bound, refusal, &json),
            None => text_of(alloc, "the line is not JSON"),
        },
        b"hex" => digits_reported(alloc, 0, line),
        b"head" if !refusal.has_kind() => text_of(alloc, "the member 'local' is not 0"),
        _ => match message_of(alloc, line)? {
            Some(message) => message_detail(alloc, bound, refusal, message.as_slice()),
            None => text_of(alloc, "the line is not a message"),
        },
    }
}

/// What a record has that was refused.
fn record_detail(
    alloc: Global,
    verb: Verb,
    bound: &Bound,
    refusal: &Refusal<'_>,
    json: &Json,
) -> Result<String, NoMemory> {
    if verb == Verb::Reply {
        return reply_record_reported(alloc, bound, refusal.word, json);
    }
    match refusal.word {
        b"request" => request_reported(alloc, bound.back(), json),
        b"op" => op_reported(alloc, bound, json),
        _ => value_detail(alloc, bound, json),
    }
}

/// Where the arguments of a record present no value.
fn value_detail(alloc: Global, bound: &Bound, json: &Json) -> Result<String, NoMemory> {
    let Some(op) = op_of(alloc, bound, json)? else {
        return op_reported(alloc, bound, json);
    };
    match json.get("args") {
        Some(args) => misfit(alloc, bound, "args", op.request, args),
        None => {
            let none = Json::Array(Vec::new(alloc));
            misfit(alloc, bound, "args", op.request, &none)
        }
    }
}

/// What a message has that was refused.
fn message_detail(
    alloc: Global,
    bound: &Bound,
    refusal: &Refusal<'_>,
    message: &[u8],
) -> Result<String, NoMemory> {
    match refusal.word {
        b"head" => head_reported(alloc, bound.back(), refusal.kind, message),
        b"interface" => interface_reported(alloc, bound, message),
        b"operation" | b"pair" => operation_reported(alloc, bound.back(), message),
        b"body" => body_detail(alloc, bound, refusal, message),
        _ => trailing_reported(alloc, message, refusal.kind),
    }
}

/// The part that an octet of the body belongs to, and the octets around it.
fn body_detail(
    alloc: Global,
    bound: &Bound,
    refusal: &Refusal<'_>,
    message: &[u8],
) -> Result<String, NoMemory> {
    let path = part_reported(alloc, bound, message)?;
    match number_in(refusal.at) {
        Some(at) => {
            let octets = around(alloc, message, at as usize)?;
            Ok(format!(in alloc; "{path}: {octets}")?)
        }
        None => Ok(path),
    }
}
