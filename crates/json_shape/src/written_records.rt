//! Records that are written.

ghost use Rattle.std.specs.Prelude.{◌≡◌, ◌<◌, length, map, true, IfOk, IfSome, OnOk, slice_get, option_map};
ghost use Rattle.aoi.specs.Plain.{plain_raise};
ghost use Rattle.mint.specs.Typed.{IsWellTyped};
ghost use Rattle.mint.specs.Types.{type_at};
ghost use Rattle.mint.specs.Values.{seen};
ghost use Rattle.pres.specs.Faces.{face_at};
ghost use Rattle.serde_json.specs.Find.{as_array};
ghost use Rattle.serde_json.specs.View.{view, items_view, members_view};
ghost use Rattle.json_shape.specs.Replies.{reply_json, outcome_members, answer_members, after_members, given_members, raised_members, refused_members, refusal_json, refusal_name, IsOutcome};
ghost use Rattle.json_shape.specs.Requests.{request_json, head_json};

use crate::members::{head_key, head_word, is_mach};
use crate::numbers::string;
use crate::operations::{dotted, raise_name, raises};
use crate::writing::{arm, to_json};
use aoi::Raise;
use kit_base::NoMemory;
use mint::node::Node;
use mint::table::NodeId;
use mint::value::Value;
use pres::Bound;
use serde_json::{Map, Value as Json, put};
use std::alloc::Global;
use wire_def::{Back, Head, Outcome, Refusal};

/// The record of a request.
pub fn write_request(
    alloc: Global,
    bound: &Bound,
    op: u32,
    head: &Head,
    value: &Value,
) -> Result<Json, NoMemory>
    requires op { op < length bound.now.ops }
    requires typed { IfSome (slice_get bound.now.ops op)
        (λ o. IsWellTyped (type_at bound.now.nodes o.request) (seen value.now)) }
    ensures { IfOk result (λ j. IfSome (slice_get bound.now.ops op)
        (λ o. view j ≡ request_json bound.now o head.now (seen value.now))) }
{
    let Some(operation) = bound.ops().get(op as usize) else {
        unreachable!()
    };
    let mut members = Map::new(alloc);
    put(
        &mut members,
        alloc,
        "args",
        to_json(alloc, bound, operation.request, value)?,
    )?;
    put_head(alloc, bound.back(), head, &mut members)?;
    let name = dotted(alloc, bound.unit().interfaces().as_slice(), operation)?;
    put(&mut members, alloc, "op", string(alloc, name.as_slice())?)?;
    Ok(Json::Object(members))
}

/// Puts the numbers of a head among the members.
fn put_head(
    alloc: Global,
    back: Back,
    head: &Head,
    members: &mut Map<String, Json>,
) -> Result<(), NoMemory>
    ensures { OnOk result (members_view members.new.entries
        ≡ head_json back head.now (members_view members.old.entries)) }
{
    if is_mach(back) {
        put(members, alloc, "local", Json::from(head.local))?;
    }
    put(
        members,
        alloc,
        head_key(back),
        Json::from(head_word(back, head)),
    )?;
    Ok(())
}

/// The record of what a call came to.
pub fn write_reply(
    alloc: Global,
    bound: &Bound,
    op: u32,
    head: &Head,
    outcome: &Outcome,
) -> Result<Json, NoMemory>
    requires op { op < length bound.now.ops }
    requires reply { IfSome (slice_get bound.now.ops op) (λ o. o.has_reply ≡ true) }
    requires typed { IfSome (slice_get bound.now.ops op)
        (λ o. IsOutcome (type_at bound.now.nodes o.reply) outcome.now) }
    ensures { IfOk result (λ j. IfSome (slice_get bound.now.ops op)
        (λ o. view j ≡ reply_json bound.now op o head.now outcome.now)) }
{
    let Some(operation) = bound.ops().get(op as usize) else {
        unreachable!()
    };
    let back = bound.back();
    let mut members = outcome_members(alloc, bound, raises(bound, op), operation.reply, outcome)?;
    put(
        &mut members,
        alloc,
        head_key(back),
        Json::from(head_word(back, head)),
    )?;
    let name = dotted(alloc, bound.unit().interfaces().as_slice(), operation)?;
    put(&mut members, alloc, "op", string(alloc, name.as_slice())?)?;
    Ok(Json::Object(members))
}

/// The members of what a call came to.
fn outcome_members(
    alloc: Global,
    bound: &Bound,
    raises: &[Raise],
    node: NodeId,
    outcome: &Outcome,
) -> Result<Map<String, Json>, NoMemory>
    requires { node < length bound.now.nodes }
    ensures { IfOk result (λ m. members_view m.entries
        ≡ outcome_members (map plain_raise raises.now)
        (face_at bound.now.nodes bound.now.shapes node) outcome.now) }
{
    match outcome {
        Outcome::Answer(value) => answer_members(alloc, bound, raises, node, value),
        Outcome::Refused(why) => refused_members(alloc, why),
    }
}

/// The member of a refusal.
fn refused_members(alloc: Global, why: &Refusal) -> Result<Map<String, Json>, NoMemory>
    ensures { IfOk result (λ m. members_view m.entries ≡ refused_members why.now) }
{
    let mut members = Map::new(alloc);
    put(
        &mut members,
        alloc,
        "refused",
        Json::Array(refusal(alloc, why)?),
    )?;
    Ok(members)
}

/// A refusal's name, and what it says.
fn refusal(alloc: Global, why: &Refusal) -> Result<Vec<Json>, NoMemory>
    ensures { IfOk result (λ l. items_view l.items ≡ refusal_json why.now) }
{
    let mut list = Vec::new(alloc);
    list.push(Json::try_from_str(alloc, refusal_name(why))?)?;
    match why {
        Refusal::ProgUnavail | Refusal::ProcUnavail | Refusal::GarbageArgs | Refusal::SystemErr =>
            {}
        Refusal::ProgMismatch(low, high) | Refusal::RpcMismatch(low, high) => {
            list.push(Json::from(*low))?;
            list.push(Json::from(*high))?;
        }
        Refusal::AuthError(status) => list.push(Json::from(*status))?,
        Refusal::SystemException(id, minor, completion) => {
            list.push(string(alloc, id.as_slice())?)?;
            list.push(Json::from(*minor))?;
            list.push(Json::from(*completion))?;
        }
        Refusal::UserException(id) => list.push(string(alloc, id.as_slice())?)?,
        Refusal::RetCode(code) => list.push(Json::from(*code))?,
    }
    Ok(list)
}

/// The word of a refusal.
pub(crate) fn refusal_name(why: &Refusal) -> &'static str
    ensures { result.now ≡ refusal_name why.now }
{
    match why {
        Refusal::ProgUnavail => "PROG_UNAVAIL",
        Refusal::ProgMismatch(_, _) => "PROG_MISMATCH",
        Refusal::ProcUnavail => "PROC_UNAVAIL",
        Refusal::GarbageArgs => "GARBAGE_ARGS",
        Refusal::SystemErr => "SYSTEM_ERR",
        Refusal::RpcMismatch(_, _) => "RPC_MISMATCH",
        Refusal::AuthError(_) => "AUTH_ERROR",
        Refusal::SystemException(_, _, _) => "SYSTEM_EXCEPTION",
        Refusal::UserException(_) => "USER_EXCEPTION",
        Refusal::RetCode(_) => "RETCODE",
    }
}

/// The members of a reply's value.
fn answer_members(
    alloc: Global,
    bound: &Bound,
    raises: &[Raise],
    node: NodeId,
    value: &Value,
) -> Result<Map<String, Json>, NoMemory>
    requires { node < length bound.now.nodes }
    ensures { IfOk result (λ m. members_view m.entries
        ≡ answer_members (map plain_raise raises.now) (face_at bound.now.nodes bound.now.shapes node)
        (seen value.now)) }
{
    let Some((choice, _)) = bound.part(node) else {
        unreachable!()
    };
    let Node::Choice(_, arms, other) = choice else {
        return Ok(Map::new(alloc));
    };
    let Some((n, inner)) = value.as_arm() else {
        return Ok(Map::new(alloc));
    };
    let json = arm(alloc, bound, node, arms, *other, &n, inner)?;
    after_members(alloc, raises, &n, json)
}

/// The members of an answer, or of an exception, by the number of the arm.
fn after_members(
    alloc: Global,
    raises: &[Raise],
    n: &i128,
    json: Json,
) -> Result<Map<String, Json>, NoMemory>
    ensures { IfOk result (λ m. members_view m.entries
        ≡ after_members (map plain_raise raises.now) n.now (view json)) }
{
    match usize::try_from(*n) {
        Ok(0) => given_members(alloc, json),
        Ok(k) => raised_members(alloc, raises, k - 1, json),
        Err(_) => Ok(Map::new(alloc)),
    }
}

/// The items of an array.
fn into_array(json: Json) -> Option<Vec<Json>>
    ensures { option_map (λ l. items_view l.items) result ≡ as_array (view json) }
{
    match json {
        Json::Array(list) => Some(list),
        _ => None,
    }
}

/// The members of an answer: the result and the parameters that come out.
fn given_members(alloc: Global, json: Json) -> Result<Map<String, Json>, NoMemory>
    ensures { IfOk result (λ m. members_view m.entries ≡ given_members (as_array (view json))) }
{
    let mut members = Map::new(alloc);
    let Some(list) = into_array(json) else {
        return Ok(members);
    };
    if list.is_empty() {
        return Ok(members);
    }
    let mut outs = list;
    let result = outs.remove(0);
    put(&mut members, alloc, "outs", Json::Array(outs))?;
    put(&mut members, alloc, "result", result)?;
    Ok(members)
}

/// The members of an exception, by its place from 0 among those of the operation.
fn raised_members(
    alloc: Global,
    raises: &[Raise],
    k: usize,
    json: Json,
) -> Result<Map<String, Json>, NoMemory>
    ensures { IfOk result (λ m. members_view m.entries
        ≡ raised_members (map plain_raise raises.now) k (view json)) }
{
    let mut members = Map::new(alloc);
    if k >= raises.len() {
        return Ok(members);
    }
    put(&mut members, alloc, "members", json)?;
    put(
        &mut members,
        alloc,
        "raise",
        string(alloc, raise_name(alloc, raises, k)?.as_slice())?,
    )?;
    Ok(members)
}
