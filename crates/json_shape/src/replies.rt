//! Reply records.

ghost use Rattle.std.specs.Prelude.{◌≡◌, ◌<◌, length, true, slice_get, IfOk, IfSome, is_some, if◌then◌else◌, option_map, codes};
ghost use Rattle.mint.specs.Typed.{IsWellTyped};
ghost use Rattle.mint.specs.Types.{type_at};
ghost use Rattle.mint.specs.Values.{seen};
ghost use Rattle.pres.specs.Raises.{raises};
ghost use Rattle.serde_json.specs.Data.{item};
ghost use Rattle.serde_json.specs.Find.{get};
ghost use Rattle.serde_json.specs.View.{view, items_view};
ghost use Rattle.json_shape.specs.Members.{list_at, table_at, any_at};
ghost use Rattle.json_shape.specs.Operations.{replying};
ghost use Rattle.json_shape.specs.Records.{Comes};
ghost use Rattle.json_shape.specs.Replies.{is_given, is_raised, is_reply, has_head, items_of, given_tree, raised_tree, reply_tree, reply_of, given_of};

use crate::errors::RecordErr;
use crate::members::{
    has_reply_keys, head_key, head_number, is_list, is_table, is_text, number_at, text_at,
};
use crate::operations::op_named;
use crate::records::RequestRec;
use crate::requests::{finish, head_of};
use crate::writing::arm_json;
use kit_base::NoMemory;
use pres::{Bound, text_of};
use serde_json::{Map, Value as Json};
use std::alloc::Global;
use wire_def::Back;

/// The reply that a record presents.
pub fn read_reply(alloc: Global, bound: &Bound, json: &Json) -> Result<RequestRec, RecordErr>
    ensures comes { Comes (reply_of bound.now (view json.now)) result }
    ensures op { IfOk result (λ r. r.op < length bound.now.ops) }
    ensures reply { IfOk result (λ r. IfSome (slice_get bound.now.ops r.op) (λ o. o.has_reply ≡ true)) }
    ensures typed { IfOk result (λ r. IfSome (slice_get bound.now.ops r.op)
        (λ o. IsWellTyped (type_at bound.now.nodes o.reply) (seen r.value))) }
{
    let back = bound.back();
    if !is_reply(back, json) {
        return Err(RecordErr::Request);
    }
    let Some((number, op)) = op_named(bound, text_at(json, "op"))? else {
        return Err(RecordErr::Op);
    };
    if !op.has_reply {
        return Err(RecordErr::Op);
    }
    let Some(tree) = reply_tree(alloc, bound, number, json)? else {
        return Err(RecordErr::Shape);
    };
    let head = head_of(back, number_at(json, head_key(back)), 0, true);
    finish(alloc, bound, number, head, op.reply, &tree)
}

/// The reply that a record without a head number presents. A record with a head number is not one.
pub fn read_given(alloc: Global, bound: &Bound, json: &Json) -> Result<RequestRec, RecordErr>
    ensures comes { Comes (given_of bound.now (view json.now)) result }
    ensures op { IfOk result (λ r. r.op < length bound.now.ops) }
    ensures typed { IfOk result (λ r. IfSome (slice_get bound.now.ops r.op)
        (λ o. IsWellTyped (type_at bound.now.nodes o.reply) (seen r.value))) }
{
    if has_head(bound.back(), json) {
        return Err(RecordErr::Request);
    }
    read_reply(alloc, bound, json)
}

/// The number of the first operation of a name, where it has a reply.
pub fn reply_named(alloc: Global, bound: &Bound, name: &[u8]) -> Result<Option<u32>, NoMemory>
    ensures found { IfOk result (λ o. o ≡ replying bound.now name.now) }
    ensures there { IfOk result (λ o. IfSome o (λ k. k < length bound.now.ops)) }
    ensures reply { IfOk result (λ o. IfSome o
        (λ k. IfSome (slice_get bound.now.ops k) (λ op. op.has_reply ≡ true))) }
{
    let text = text_of(alloc, name)?;
    let Some((number, op)) = op_named(bound, text.as_str())? else {
        return Ok(None);
    };
    if !op.has_reply {
        return Ok(None);
    }
    Ok(Some(number))
}

/// Whether the JSON is a reply record.
fn is_reply(back: Back, json: &Json) -> bool
    ensures { result ≡ is_reply back (view json.now) }
{
    has_reply_keys(back, json)
        && is_text(json.get("op"))
        && head_number(json.get(head_key(back))).is_some()
        && is_answer(json)
}

/// Whether the record has a head number.
fn has_head(back: Back, json: &Json) -> bool
    ensures { result ≡ has_head back (view json.now) }
{
    json.get(head_key(back)).is_some()
}

fn is_answer(json: &Json) -> bool
    ensures { result ≡ (if is_some (get (codes "raise") (view json.now)) then is_raised (view json.now)
        else is_given (view json.now)) }
{
    if json.get("raise").is_some() {
        is_raised(json)
    } else {
        is_given(json)
    }
}

fn is_given(json: &Json) -> bool
    ensures { result ≡ is_given (view json.now) }
{
    json.get("members").is_none() && is_list(json.get("outs"))
}

fn is_raised(json: &Json) -> bool
    ensures { result ≡ is_raised (view json.now) }
{
    is_text(json.get("raise"))
        && json.get("result").is_none()
        && json.get("outs").is_none()
        && is_table(json.get("members"))
}

/// The reply of an operation as a choice, unless it is an exception that the operation does not list.
fn reply_tree(alloc: Global, bound: &Bound, op: u32, json: &Json) -> Result<Option<Json>, NoMemory>
    ensures { IfOk result (λ o. option_map view o ≡ reply_tree (raises bound.now op) (view json.now)) }
{
    if json.get("raise").is_some() {
        return raised_tree(alloc, bound, op, json);
    }
    Ok(Some(given_tree(alloc, json)?))
}

fn raised_tree(alloc: Global, bound: &Bound, op: u32, json: &Json) -> Result<Option<Json>, NoMemory>
    ensures { IfOk result (λ o. option_map view o ≡ raised_tree (raises bound.now op) (view json.now)) }
{
    let Some(number) = bound.raise_named(op, text_at(json, "raise")) else {
        return Ok(None);
    };
    let members = table_at(alloc, json)?;
    Ok(Some(arm_json(alloc, Json::from(number), members)?))
}

fn table_at(alloc: Global, json: &Json) -> Result<Json, NoMemory>
    ensures { IfOk result (λ j. view j ≡ table_at (codes "members") (view json.now)) }
{
    match json.get("members") {
        Some(members) => Ok(members.clone()?),
        None => Ok(Json::Object(Map::new(alloc))),
    }
}

fn given_tree(alloc: Global, json: &Json) -> Result<Json, NoMemory>
    ensures { IfOk result (λ j. view j ≡ given_tree (view json.now)) }
{
    let result = result_of(json)?;
    let list = joined(alloc, result, outs_of(json))?;
    let zero: u32 = 0;
    arm_json(alloc, Json::from(zero), Json::Array(list))
}

fn result_of(json: &Json) -> Result<Json, NoMemory>
    ensures { IfOk result (λ j. view j ≡ any_at (codes "result") (view json.now)) }
{
    match json.get("result") {
        Some(result) => Ok(result.clone()?),
        None => Ok(Json::Null),
    }
}

fn outs_of(json: &Json) -> &[Json]
    ensures { items_view result.now ≡ items_of (list_at (codes "outs") (view json.now)) }
{
    match json.get("outs") {
        Some(outs) => items_of(outs),
        None => &[],
    }
}

fn items_of(json: &Json) -> &[Json]
    ensures { items_view result.now ≡ items_of (view json.now) }
{
    match json.as_array() {
        Some(list) => list.as_slice(),
        None => &[],
    }
}

/// The first item, and copies of the others.
fn joined(alloc: Global, first: Json, others: &[Json]) -> Result<Vec<Json>, NoMemory>
    ensures { IfOk result (λ l. items_view l.items ≡ item (view first) (items_view others.now)) }
{
    let mut list = Vec::new(alloc);
    list.push(first)?;
    for other in others {
        list.push(other.clone()?)?;
    }
    Ok(list)
}
