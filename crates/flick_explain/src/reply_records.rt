//! What is wrong with a record that is to be one of a reply.

use crate::descent::fits;
use crate::misfits::misfit;
use crate::records::{dotted, head_key, is_named, is_word, op_of, op_reported};
use crate::text::{shown, text_of};
use aoi::Raise;
use kit_base::NoMemory;
use mint::node::{Node, NodeIds, arm_of};
use mint::table::NodeId;
use pres::{Bound, Op, is_full_text_of};
use serde_json::{Map, Value as Json};
use std::alloc::Global;
use wire_def::Back;

/// How many exceptions are listed.
const LISTED: usize = 8;

/// What a reply record has that was refused.
pub fn reply_record_reported(
    alloc: Global,
    bound: &Bound,
    word: &[u8],
    json: &Json,
) -> Result<String, NoMemory> {
    match word {
        b"request" => keys_reported(alloc, bound.back(), json),
        b"op" => replying_reported(alloc, bound, json),
        _ => reply_misfit(alloc, bound, json),
    }
}

/// Which member is not that of a reply record.
pub fn keys_reported(alloc: Global, back: Back, json: &Json) -> Result<String, NoMemory> {
    let Some(members) = json.as_object() else {
        return text_of(alloc, "the line is not an object");
    };
    for key in members.keys() {
        if !is_key(back, key.as_str()) {
            let key = shown(alloc, key.as_bytes())?;
            return Ok(format!(in alloc;
                "a reply record over this back end has no member '{key}'"
            )?);
        }
    }
    members_reported(alloc, back, json)
}

/// Whether a reply record has a member of this name.
fn is_key(back: Back, key: &str) -> bool {
    key == "op" || key == head_key(back) || is_answer_key(key)
}

/// Whether a member of this name says what is answered.
fn is_answer_key(key: &str) -> bool {
    key == "result" || key == "outs" || key == "raise" || key == "members"
}

/// Which known member is missing or of another type.
fn members_reported(alloc: Global, back: Back, json: &Json) -> Result<String, NoMemory> {
    let Some(op) = json.get("op") else {
        return text_of(alloc, "the member 'op' is missing");
    };
    if !op.is_string() {
        return text_of(alloc, "'op' is not a string");
    }
    let key = head_key(back);
    if !is_word(json.get(key)) {
        return Ok(format!(in alloc; "'{key}' is not a whole number from 0 to 4294967295")?);
    }
    text_of(alloc, answer_members(json))
}

/// Which member is not that of an answer, or of an exception.
fn answer_members(json: &Json) -> &'static str {
    match json.get("raise") {
        Some(raise) if !raise.is_string() => "'raise' is not a string",
        Some(_) if json.get("result").is_some() => "'raise' and 'result' exclude each other",
        Some(_) if json.get("outs").is_some() => "'raise' and 'outs' exclude each other",
        Some(_) => "'members' is not an object",
        None if json.get("members").is_some() => "'members' is there without 'raise'",
        None => "'outs' is not an array",
    }
}

/// The name of an operation without a reply; or one that no operation has, and those that the file has.
pub fn replying_reported(alloc: Global, bound: &Bound, json: &Json) -> Result<String, NoMemory> {
    match op_of(alloc, bound, json)? {
        Some(op) => {
            let name = dotted(alloc, bound, op)?;
            let name = shown(alloc, name.as_slice())?;
            Ok(format!(in alloc; "'{name}' has no reply")?)
        }
        None => op_reported(alloc, bound, json),
    }
}

/// Where a reply record presents no reply of its operation.
pub fn reply_misfit(alloc: Global, bound: &Bound, json: &Json) -> Result<String, NoMemory> {
    let Some(op) = op_of(alloc, bound, json)? else {
        return op_reported(alloc, bound, json);
    };
    match json.get("raise").and_then(Json::as_str) {
        Some(raise) => raised_misfit(alloc, bound, op, raise, json),
        None => answer_misfit(alloc, bound, op, json),
    }
}

/// The node of a part of a reply: of the answer, 0, or of an exception, from 1.
fn part_of(bound: &Bound, op: &Op, number: i128) -> Option<NodeId> {
    match bound.part(op.reply) {
        Some((Node::Choice(_, arms, other), _)) => arm_of(arms, *other, &number),
        _ => None,
    }
}

/// The nodes of the result and of the parameters that come out.
fn answer_nodes<'b>(bound: &'b Bound, op: &Op) -> Option<&'b NodeIds> {
    match bound.part(part_of(bound, op, 0)?) {
        Some((Node::Group(ids), _)) => Some(ids),
        _ => None,
    }
}

/// Where a result, or a parameter that comes out, presents no value.
fn answer_misfit(alloc: Global, bound: &Bound, op: &Op, json: &Json) -> Result<String, NoMemory> {
    let Some(ids) = answer_nodes(bound, op) else {
        return text_of(alloc, "the operation has no reply");
    };
    let Some((first, outs)) = ids.as_slice().split_first() else {
        return text_of(alloc, "the operation has no reply");
    };
    match result_misfit(alloc, bound, *first, json)? {
        Some(reported) => Ok(reported),
        None => outs_misfit(alloc, bound, outs, given_outs(json)),
    }
}

/// Where the result presents no value, if it presents none.
fn result_misfit(
    alloc: Global,
    bound: &Bound,
    id: NodeId,
    json: &Json,
) -> Result<Option<String>, NoMemory> {
    match json.get("result") {
        Some(result) => part_misfit(alloc, bound, "result", id, result),
        None => part_misfit(alloc, bound, "result", id, &Json::Null),
    }
}

/// Where a part of a record presents no value, if it presents none.
fn part_misfit(
    alloc: Global,
    bound: &Bound,
    part_name: &str,
    id: NodeId,
    json: &Json,
) -> Result<Option<String>, NoMemory> {
    if fits(alloc, bound, id, json)? {
        return Ok(None);
    }
    Ok(Some(misfit(alloc, bound, part_name, id, json)?))
}

/// The elements of `outs`.
fn given_outs(json: &Json) -> &[Json] {
    match json.get("outs").and_then(Json::as_array) {
        Some(list) => list.as_slice(),
        None => &[],
    }
}

/// How many parameters come out, or where one presents no value.
fn outs_misfit(
    alloc: Global,
    bound: &Bound,
    ids: &[NodeId],
    given: &[Json],
) -> Result<String, NoMemory> {
    if given.len() != ids.len() {
        return Ok(format!(in alloc; "outs: {} values, {} wanted", given.len(), ids.len())?);
    }
    for (i, json) in given.iter().enumerate() {
        if let Some(reported) = out_misfit(alloc, bound, ids, i, json)? {
            return Ok(reported);
        }
    }
    text_of(alloc, "all values fit")
}

/// Where a parameter that comes out presents no value, if it presents none.
fn out_misfit(
    alloc: Global,
    bound: &Bound,
    ids: &[NodeId],
    i: usize,
    json: &Json,
) -> Result<Option<String>, NoMemory> {
    match ids.get(i) {
        Some(id) => {
            let name = format!(in alloc; "outs[{i}]")?;
            part_misfit(alloc, bound, name.as_str(), *id, json)
        }
        None => Ok(None),
    }
}

/// The exceptions of an operation.
fn raises_of<'b>(bound: &'b Bound, op: &Op) -> &'b [Raise] {
    let Some(interface) = bound.unit().interfaces().get(op.interface as usize) else {
        return &[];
    };
    for operation in interface.ops.as_slice() {
        if operation.name.as_slice() == op.name.as_slice() {
            return operation.raises.as_slice();
        }
    }
    &[]
}

/// Where the members of an exception present no value; or that the operation does not list it.
fn raised_misfit(
    alloc: Global,
    bound: &Bound,
    op: &Op,
    raise: &str,
    json: &Json,
) -> Result<String, NoMemory> {
    let raises = raises_of(bound, op);
    match raise_number(raises, raise) {
        Some(number) => members_misfit(alloc, bound, part_of(bound, op, number), json),
        None => unlisted_reported(alloc, raises, raise),
    }
}

/// The number of the exception of a name, from 1.
fn raise_number(raises: &[Raise], text: &str) -> Option<i128> {
    for (i, raise) in raises.iter().enumerate() {
        if is_full_text_of(raise.name.get(), text) {
            return Some((i as i128).saturating_add(1));
        }
    }
    None
}

/// Where the members of an exception present no value.
fn members_misfit(
    alloc: Global,
    bound: &Bound,
    id: Option<NodeId>,
    json: &Json,
) -> Result<String, NoMemory> {
    let Some(id) = id else {
        return text_of(alloc, "the operation has no such exception");
    };
    match json.get("members") {
        Some(members) => misfit(alloc, bound, "members", id, members),
        None => {
            let none = Json::Object(Map::new(alloc));
            misfit(alloc, bound, "members", id, &none)
        }
    }
}

/// An exception that an operation does not list, and those that it lists.
fn unlisted_reported(alloc: Global, raises: &[Raise], raise: &str) -> Result<String, NoMemory> {
    let raise = shown(alloc, raise.as_bytes())?;
    if raises.is_empty() {
        return Ok(format!(in alloc; "'raise' is '{raise}', and the operation lists no exception")?);
    }
    let mut out = format!(in alloc; "'raise' is '{raise}', and the operation lists")?;
    let mut between = " ";
    for listed in &raises[..raises.len().min(LISTED)] {
        out.push_str(between)?;
        let name = listed.name.get().whole(alloc)?;
        out.push_str(shown(alloc, name.as_slice())?.as_str())?;
        between = ", ";
    }
    Ok(out)
}
