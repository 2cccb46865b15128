//! Reply records, written straight from their values.

ghost use Rattle.std.specs.Prelude.{◌≡◌, ◌<◌, [], length, map, true, slice_get, IfOk, IfSome, OnOk, Some};
ghost use Rattle.aoi.specs.Plain.{plain_raise};
ghost use Rattle.mint.specs.Types.{AreBelow};
ghost use Rattle.mint.specs.Values.{seen, all_seen};
ghost use Rattle.pres.specs.Faces.{faces, face_at, parts_at};
ghost use Rattle.serde_json.specs.Find.{as_array};
ghost use Rattle.serde_json.specs.Written.{compact_text};
ghost use Rattle.json_shape.specs.Written.{json_of, in_order_json};
ghost use Rattle.json_shape.specs.Replies.{reply_json, reply_named, reply_with, outcome_members, answer_members, after_members, given_members, raised_members, refused_members};
ghost use Rattle.json_shape.specs.Printed.{name_tokens, reply_after, reply_amid, reply_before, tokens_of, Adds};

use crate::errors::Halt;
use crate::operations::{dotted, raise_name, raises};
use crate::printed_records::{ROOM, put_after, put_word};
use crate::printed_refusals::put_refusal;
use crate::printed_scalars::put_string;
use crate::printing::{in_order, print};
use aoi::Raise;
use json::Writer;
use kit_base::NoMemory;
use mint::node::{Node, NodeIds, arm_of};
use mint::table::NodeId;
use mint::value::{Value, Values};
use pres::{Bound, Op, Shape};
use std::alloc::Global;
use wire_def::{Back, Head, Outcome, Refusal};

/// The text of a reply's record, without blanks, unless it is to be written by its tree: a struct has more than 32
/// fields.
pub fn reply_text(
    alloc: Global,
    bound: &Bound,
    op: u32,
    head: &Head,
    outcome: &Outcome,
) -> Result<Option<Vec<u8>>, NoMemory>
    requires op { op < length bound.now.ops }
    requires reply { IfSome (slice_get bound.now.ops op) (λ o. o.has_reply ≡ true) }
    ensures { IfOk result (λ t. IfSome t (λ text. IfSome (slice_get bound.now.ops op)
        (λ o. text.items ≡ compact_text (reply_json bound.now op o head.now outcome.now)))) }
{
    let Some(operation) = bound.ops().get(op as usize) else {
        unreachable!()
    };
    match text_of_record(alloc, bound, operation, raises(bound, op), head, outcome) {
        Ok(text) => Ok(Some(text)),
        Err(Halt::Fallback) => Ok(None),
        Err(Halt::NoMemory) => Err(NoMemory),
    }
}

/// The text of the record of an operation's reply.
fn text_of_record(
    alloc: Global,
    bound: &Bound,
    op: &Op,
    raises: &[Raise],
    head: &Head,
    outcome: &Outcome,
) -> Result<Vec<u8>, Halt>
    requires { op.now.reply < length bound.now.nodes }
    ensures { IfOk result (λ text. text.items ≡ compact_text (reply_with bound.now op.now head.now
        (outcome_members (map plain_raise raises.now)
        (face_at bound.now.nodes bound.now.shapes op.now.reply) outcome.now))) }
{
    let mut out = Writer::new(Vec::with_capacity(alloc, ROOM)?);
    put_reply(alloc, bound, op, raises, head, outcome, &mut out)?;
    Ok(out.into_inner())
}

/// Writes the record of an operation's reply.
fn put_reply(
    alloc: Global,
    bound: &Bound,
    op: &Op,
    raises: &[Raise],
    head: &Head,
    outcome: &Outcome,
    out: &mut Writer,
) -> Result<(), Halt>
    requires { op.now.reply < length bound.now.nodes }
    ensures { OnOk result (Adds out.old out.new (tokens_of (reply_with bound.now op.now head.now
        (outcome_members (map plain_raise raises.now)
        (face_at bound.now.nodes bound.now.shapes op.now.reply) outcome.now)))) }
{
    let name = dotted(alloc, bound.unit().interfaces().as_slice(), op)?;
    put_record(
        alloc,
        bound,
        op.reply,
        raises,
        head,
        name.as_slice(),
        outcome,
        out,
    )
}

/// Writes a record, its members in the order of their keys.
fn put_record(
    alloc: Global,
    bound: &Bound,
    node: NodeId,
    raises: &[Raise],
    head: &Head,
    name: &[u8],
    outcome: &Outcome,
    out: &mut Writer,
) -> Result<(), Halt>
    requires { node < length bound.now.nodes }
    ensures { OnOk result (Adds out.old out.new (tokens_of (reply_named bound.now.back head.now name.now
        (outcome_members (map plain_raise raises.now)
        (face_at bound.now.nodes bound.now.shapes node) outcome.now)))) }
{
    match outcome {
        Outcome::Answer(value) => put_answer(alloc, bound, node, raises, head, name, value, out),
        Outcome::Refused(why) => put_refused(alloc, bound.back(), head, name, why, out),
    }
}

/// Writes the record of a refusal.
fn put_refused(
    alloc: Global,
    back: Back,
    head: &Head,
    name: &[u8],
    why: &Refusal,
    out: &mut Writer,
) -> Result<(), Halt>
    ensures { OnOk result (Adds out.old out.new
        (tokens_of (reply_named back head.now name.now (refused_members why.now)))) }
{
    out.begin_object()?;
    put_before(back, head, out)?;
    put_name(alloc, name, out)?;
    out.key("refused")?;
    put_refusal(alloc, why, out)?;
    put_after(back, head, out)?;
    out.end_object()?;
    Ok(())
}

/// Writes the record of a reply's value.
#[tactic(auto, using(crate::proofs::Arms::arms_written))]
fn put_answer(
    alloc: Global,
    bound: &Bound,
    node: NodeId,
    raises: &[Raise],
    head: &Head,
    name: &[u8],
    value: &Value,
    out: &mut Writer,
) -> Result<(), Halt>
    requires { node < length bound.now.nodes }
    ensures { OnOk result (Adds out.old out.new (tokens_of (reply_named bound.now.back head.now name.now
        (answer_members (map plain_raise raises.now)
        (face_at bound.now.nodes bound.now.shapes node) (seen value.now))))) }
{
    let Some((choice, _)) = bound.part(node) else {
        unreachable!()
    };
    let Node::Choice(_, arms, other) = choice else {
        return Err(Halt::Fallback);
    };
    let Some((n, inner)) = value.as_arm() else {
        return Err(Halt::Fallback);
    };
    match arm_of(arms, *other, &n) {
        Some(item) => put_arm(alloc, bound, item, raises, head, name, &n, inner, out),
        None => Err(Halt::Fallback),
    }
}

/// Writes the record of an answer, or of an exception, by the number of the arm.
fn put_arm(
    alloc: Global,
    bound: &Bound,
    item: NodeId,
    raises: &[Raise],
    head: &Head,
    name: &[u8],
    n: &i128,
    inner: &Value,
    out: &mut Writer,
) -> Result<(), Halt>
    requires { item < length bound.now.nodes }
    ensures { OnOk result (Adds out.old out.new (tokens_of (reply_named bound.now.back head.now name.now
        (after_members (map plain_raise raises.now) n.now
        (json_of (face_at bound.now.nodes bound.now.shapes item) (seen inner.now)))))) }
{
    match usize::try_from(*n) {
        Ok(0) => put_given(alloc, bound, item, head, name, inner, out),
        Ok(k) => put_raised(alloc, bound, item, raises, k - 1, head, name, inner, out),
        Err(_) => Err(Halt::Fallback),
    }
}

/// Writes the record of an answer.
fn put_given(
    alloc: Global,
    bound: &Bound,
    item: NodeId,
    head: &Head,
    name: &[u8],
    inner: &Value,
    out: &mut Writer,
) -> Result<(), Halt>
    requires { item < length bound.now.nodes }
    ensures { OnOk result (Adds out.old out.new (tokens_of (reply_named bound.now.back head.now name.now
        (given_members (as_array
        (json_of (face_at bound.now.nodes bound.now.shapes item) (seen inner.now))))))) }
{
    let Some((node, shape)) = bound.part(item) else {
        unreachable!()
    };
    let Node::Group(ids) = node else {
        return Err(Halt::Fallback);
    };
    let Some(values) = inner.as_group() else {
        return Err(Halt::Fallback);
    };
    match shape {
        Shape::FieldNames(_) => Err(Halt::Fallback),
        _ => put_values(alloc, bound, item, ids, head, name, values, out),
    }
}

/// Writes the record of the result and of the parameters that come out.
fn put_values(
    alloc: Global,
    bound: &Bound,
    id: NodeId,
    ids: &NodeIds,
    head: &Head,
    name: &[u8],
    values: &Values,
    out: &mut Writer,
) -> Result<(), Halt>
    requires id { id < length bound.now.nodes }
    requires below { AreBelow id ids.now }
    ensures { OnOk result (Adds out.old out.new (tokens_of (reply_named bound.now.back head.now name.now
        (given_members (Some (in_order_json (parts_at (faces bound.now.nodes bound.now.shapes) [] ids.now)
        (all_seen values.now))))))) }
{
    let [id_given, id_outs @ ..] = ids.as_slice() else {
        return Err(Halt::Fallback);
    };
    let [given, outs @ ..] = values.as_slice() else {
        return Err(Halt::Fallback);
    };
    out.begin_object()?;
    put_before(bound.back(), head, out)?;
    put_name(alloc, name, out)?;
    out.key("outs")?;
    in_order(alloc, bound, id, id_outs, outs, out)?;
    put_amid(bound.back(), head, out)?;
    out.key("result")?;
    print(alloc, bound, *id_given, given, out)?;
    put_last(bound.back(), head, out)?;
    out.end_object()?;
    Ok(())
}

/// Writes the record of an exception, by its place from 0 among those of the operation.
fn put_raised(
    alloc: Global,
    bound: &Bound,
    item: NodeId,
    raises: &[Raise],
    k: usize,
    head: &Head,
    name: &[u8],
    inner: &Value,
    out: &mut Writer,
) -> Result<(), Halt>
    requires { item < length bound.now.nodes }
    ensures { OnOk result (Adds out.old out.new (tokens_of (reply_named bound.now.back head.now name.now
        (raised_members (map plain_raise raises.now) k
        (json_of (face_at bound.now.nodes bound.now.shapes item) (seen inner.now)))))) }
{
    if k >= raises.len() {
        return Err(Halt::Fallback);
    }
    out.begin_object()?;
    put_before(bound.back(), head, out)?;
    out.key("members")?;
    print(alloc, bound, item, inner, out)?;
    put_name(alloc, name, out)?;
    out.key("raise")?;
    put_string(alloc, raise_name(alloc, raises, k)?.as_slice(), out)?;
    put_after(bound.back(), head, out)?;
    out.end_object()?;
    Ok(())
}

/// Writes the member with the name of an operation.
#[tactic(auto, using(crate::proofs::Adding::adding))]
fn put_name(alloc: Global, name: &[u8], out: &mut Writer) -> Result<(), Halt>
    ensures { OnOk result (Adds out.old out.new (name_tokens name.now)) }
{
    out.key("op")?;
    put_string(alloc, name, out)
}

/// Writes the head number whose key is before `op`.
fn put_before(back: Back, head: &Head, out: &mut Writer) -> Result<(), Halt>
    ensures { OnOk result (Adds out.old out.new (reply_before back head.now)) }
{
    match back {
        Back::Xdr | Back::Mach => Ok(()),
        Back::CdrBig | Back::CdrLittle => put_word("id", head.id, out),
    }
}

/// Writes the head number whose key is between `outs` and `result`.
fn put_amid(back: Back, head: &Head, out: &mut Writer) -> Result<(), Halt>
    ensures { OnOk result (Adds out.old out.new (reply_amid back head.now)) }
{
    match back {
        Back::Xdr | Back::CdrBig | Back::CdrLittle => Ok(()),
        Back::Mach => put_word("remote", head.remote, out),
    }
}

/// Writes the head number whose key is after `result`.
fn put_last(back: Back, head: &Head, out: &mut Writer) -> Result<(), Halt>
    ensures { OnOk result (Adds out.old out.new (reply_after back head.now)) }
{
    match back {
        Back::Xdr => put_word("xid", head.id, out),
        Back::CdrBig | Back::CdrLittle | Back::Mach => Ok(()),
    }
}
