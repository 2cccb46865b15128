//! Reply records from tokens of text in the usual form: the operation is before the result and what comes out, and a
//! head number anywhere.

ghost use Rattle.std.specs.Prelude.{◌≡◌, [], ◌∷◌, ◌<◌, true, length, map, slice_get, IfOk, IfSome, Some};
ghost use Rattle.mint.specs.declared.kind.Kind.TheVariants as kind;
ghost use Rattle.mint.specs.Typed.{IsWellTyped};
ghost use Rattle.mint.specs.Types.{AreBelow, ArmsBelow, IsBelow, type_at};
ghost use Rattle.mint.specs.Values.{seen};
ghost use Rattle.pres.specs.Faces.{arms_at, choice, face_at, faces, number, parts_at, type_of, values};
ghost use Rattle.pres.specs.Raises.{raises};
ghost use Rattle.json_shape.specs.Replies.{reply_of};
ghost use Rattle.json_shape.specs.Usual.{key_token, IsReplyIn, RecordTaken};
ghost use Rattle.json_shape.specs.UsualReplies.{AnswerTaken, InnerTaken};

use crate::errors::Halt;
use crate::members::head_key;
use crate::operations::op_named;
use crate::records::RequestRec;
use crate::requests::head_of;
use crate::usual_answers::given_at;
use crate::usual_heads::word_at;
use crate::usual_requests::{Asked, end, op_at};
use crate::usual_tokens::{begin_members, key_next};
use json::{Reader, Scratch};
use kit_base::NoMemory;
use mint::fits::fits;
use mint::kind::Kind;
use mint::node::{Arms, Node, NodeIds, Tag, arm_of};
use mint::table::NodeId;
use mint::value::Value;
use pres::{Bound, Shape};
use std::alloc::Global;

/// The head number of a record, where there is one, and the value of its reply.
type Answered = Result<(Option<u32>, Value), Halt>;

/// The reply that a text presents as a record, where it is in the usual form; none says nothing of the text.
/// The scratch has space for its strings and places: one is kept from line to line.
pub fn direct_reply(
    alloc: Global,
    bound: &Bound,
    line: &str,
    scratch: &mut Scratch,
) -> Result<Option<RequestRec>, NoMemory>
    ensures reply { IfOk result (λ o. IfSome o (λ r. IsReplyIn bound.now line.now r)) }
    ensures op { IfOk result (λ o. IfSome o (λ r. r.op < length bound.now.ops)) }
    ensures answered { IfOk result (λ o. IfSome o (λ r. IfSome (slice_get bound.now.ops r.op)
        (λ op. op.has_reply ≡ true))) }
    ensures typed { IfOk result (λ o. IfSome o (λ r. IfSome (slice_get bound.now.ops r.op)
        (λ op. IsWellTyped (type_at bound.now.nodes op.reply) (seen r.value)))) }
{
    match reply_in(alloc, bound, line, scratch) {
        Ok(record) => Ok(Some(record)),
        Err(Halt::Fallback) => Ok(None),
        Err(Halt::NoMemory) => Err(NoMemory),
    }
}

/// The reply that a text presents, with space for its strings and places.
fn reply_in(alloc: Global, bound: &Bound, line: &str, scratch: &mut Scratch) -> Asked
    ensures reply { IfOk result (λ r. IsReplyIn bound.now line.now r) }
    ensures op { IfOk result (λ r. r.op < length bound.now.ops) }
    ensures answered { IfOk result (λ r. IfSome (slice_get bound.now.ops r.op) (λ op. op.has_reply ≡ true)) }
    ensures typed { IfOk result (λ r. IfSome (slice_get bound.now.ops r.op)
        (λ op. IsWellTyped (type_at bound.now.nodes op.reply) (seen r.value))) }
{
    let mut reader = Reader::new(line, scratch)?;
    begin_members(&mut reader)?;
    let record = op_and_answer(alloc, bound, &mut reader)?;
    end(&mut reader)?;
    Ok(record)
}

/// The reply of members, up to the end of the object.
fn op_and_answer(alloc: Global, bound: &Bound, reader: &mut Reader<'_>) -> Asked
    ensures reply { IfOk result (λ r. RecordTaken 126 (reply_of bound.now) reader.old reader.new r) }
    ensures op { IfOk result (λ r. r.op < length bound.now.ops) }
    ensures answered { IfOk result (λ r. IfSome (slice_get bound.now.ops r.op) (λ op. op.has_reply ≡ true)) }
    ensures typed { IfOk result (λ r. IfSome (slice_get bound.now.ops r.op)
        (λ op. IsWellTyped (type_at bound.now.nodes op.reply) (seen r.value))) }
{
    let head_name = head_key(bound.back());
    let first = key_next(reader)?;
    let (before, op_key) = word_at(head_name, first, reader)?;
    let name = op_at(op_key, reader)?;
    let Some((op, operation)) = op_named(bound, name)? else {
        return Err(Halt::Fallback);
    };
    if !operation.has_reply {
        return Err(Halt::Fallback);
    }
    let next = key_next(reader)?;
    let (after, key) = word_at(head_name, next, reader)?;
    let (last, value) = answer_at(alloc, bound, op, operation.reply, key, reader)?;
    let id = last.or(after).or(before);
    let head = head_of(bound.back(), id.unwrap_or(0), 0, true);
    Ok(RequestRec { op, head, value })
}

/// The value of a reply that the members present from the key on that was taken, up to the end of the object.
fn answer_at<'a>(
    alloc: Global,
    bound: &Bound,
    op: u32,
    id: NodeId,
    taken: Option<&'a str>,
    reader: &mut Reader<'a>,
) -> Answered
    requires { id < length bound.now.nodes }
    ensures value { IfOk result (λ r. AnswerTaken 126 bound.now.back (raises bound.now op)
        (key_token taken.entry ∷ reader.old) reader.new
        (face_at bound.now.nodes bound.now.shapes id) r.0 (seen r.1)) }
    ensures is { type_at bound.now.nodes id ≡ type_of (face_at bound.now.nodes bound.now.shapes id) }
    ensures typed { IfOk result (λ r. IsWellTyped (type_at bound.now.nodes id) (seen r.1)) }
{
    let (head, value) = shown_at(alloc, bound, op, id, taken, reader)?;
    if fits(bound.mint(), id, &value) {
        Ok((head, value))
    } else {
        Err(Halt::Fallback)
    }
}

/// The value that the members show.
fn shown_at<'a>(
    alloc: Global,
    bound: &Bound,
    op: u32,
    id: NodeId,
    taken: Option<&'a str>,
    reader: &mut Reader<'a>,
) -> Answered
    requires { id < length bound.now.nodes }
    ensures value { IfOk result (λ r. AnswerTaken 126 bound.now.back (raises bound.now op)
        (key_token taken.entry ∷ reader.old) reader.new
        (face_at bound.now.nodes bound.now.shapes id) r.0 (seen r.1)) }
    ensures is { type_at bound.now.nodes id ≡ type_of (face_at bound.now.nodes bound.now.shapes id) }
{
    let Some((node, _)) = bound.part(id) else {
        unreachable!()
    };
    match node {
        Node::Choice(Tag::Num(Kind::U32), arms, other) => {
            given(alloc, bound, op, id, arms, *other, taken, reader)
        }
        _ => Err(Halt::Fallback),
    }
}

/// The value of an answer, which is the arm of number 0.
fn given<'a>(
    alloc: Global,
    bound: &Bound,
    op: u32,
    id: NodeId,
    arms: &Arms,
    other: Option<NodeId>,
    taken: Option<&'a str>,
    reader: &mut Reader<'a>,
) -> Answered
    requires id { id < length bound.now.nodes }
    requires below { ArmsBelow id arms.now }
    requires other { IsBelow id other }
    ensures { IfOk result (λ r. AnswerTaken 126 bound.now.back (raises bound.now op)
        (key_token taken.entry ∷ reader.old) reader.new
        (choice (number kind.U32) (arms_at (faces bound.now.nodes bound.now.shapes) arms.now other))
        r.0 (seen r.1)) }
{
    let Some(item) = arm_of(arms, other, &0) else {
        return Err(Halt::Fallback);
    };
    let (head, inner) = in_arm(alloc, bound, item, taken, reader)?;
    let value = Value::arm(alloc, 0, inner)?;
    Ok((head, value))
}

/// The values of an answer, of a group without names.
fn in_arm<'a>(
    alloc: Global,
    bound: &Bound,
    id: NodeId,
    taken: Option<&'a str>,
    reader: &mut Reader<'a>,
) -> Answered
    requires { id < length bound.now.nodes }
    ensures { IfOk result (λ r. InnerTaken 126 bound.now.back (key_token taken.entry ∷ reader.old) reader.new
        (face_at bound.now.nodes bound.now.shapes id) r.0 (seen r.1)) }
{
    let Some((node, shape)) = bound.part(id) else {
        unreachable!()
    };
    match (node, shape) {
        (Node::Group(ids), Shape::Plain) => in_group(alloc, bound, id, ids, taken, reader),
        _ => Err(Halt::Fallback),
    }
}

/// The values of an answer as a group.
fn in_group<'a>(
    alloc: Global,
    bound: &Bound,
    id: NodeId,
    ids: &NodeIds,
    taken: Option<&'a str>,
    reader: &mut Reader<'a>,
) -> Answered
    requires id { id < length bound.now.nodes }
    requires below { AreBelow id ids.now }
    ensures { IfOk result (λ r. InnerTaken 126 bound.now.back (key_token taken.entry ∷ reader.old) reader.new
        (values (parts_at (faces bound.now.nodes bound.now.shapes) [] ids.now)) r.0 (seen r.1)) }
{
    let (head, values) = given_at(alloc, bound, id, ids, taken, reader)?;
    Ok((head, Value::Group(values)))
}
