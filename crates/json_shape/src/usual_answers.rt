//! The members of answers after the operation, from tokens of text in the usual form: the result, the parameters that
//! come out, and a head number anywhere among them.

ghost use Rattle.std.specs.Prelude.{◌≡◌, ◌<◌, ◌∷◌, [], length, IfOk};
ghost use Rattle.mint.specs.Types.{AreBelow};
ghost use Rattle.mint.specs.Values.{seen};
ghost use Rattle.pres.specs.Faces.{face_at, faces, parts_at};
ghost use Rattle.json_shape.specs.Reading.{in_order, value_of};
ghost use Rattle.json_shape.specs.Usual.{key_token};
ghost use Rattle.json_shape.specs.UsualReplies.{GivenTaken, ItemsOf, OutsTaken, ResultTaken};

use crate::errors::Halt;
use crate::members::head_key;
use crate::usual::{read_direct, void};
use crate::usual_args::DEEPEST;
use crate::usual_heads::word_at;
use crate::usual_tokens::{begin_items, end_items, is_end, is_key, key_next};
use json::Reader;
use mint::node::NodeIds;
use mint::table::NodeId;
use mint::value::{Value, Values};
use pres::Bound;
use std::alloc::Global;

/// The head number of a record, where there is one, and the values of its answer.
pub(crate) type Given = Result<(Option<u32>, Values), Halt>;

/// The values of an answer, from the key on that was taken up to the end of the object. Either of the result and of
/// what comes out is first.
pub(crate) fn given_at<'a>(
    alloc: Global,
    bound: &Bound,
    id: NodeId,
    ids: &NodeIds,
    taken: Option<&'a str>,
    reader: &mut Reader<'a>,
) -> Given
    requires id { id < length bound.now.nodes }
    requires below { AreBelow id ids.now }
    ensures { IfOk result (λ r. GivenTaken 126 bound.now.back (key_token taken.entry ∷ reader.old) reader.new
        (in_order (parts_at (faces bound.now.nodes bound.now.shapes) [] ids.now)) r.0 r.1) }
{
    let [first, outs @ ..] = ids.as_slice() else {
        return Err(Halt::Fallback);
    };
    if is_key(taken, "outs") {
        outs_and_result(alloc, bound, id, *first, outs, taken, reader)
    } else {
        result_and_outs(alloc, bound, id, *first, outs, taken, reader)
    }
}

/// The values of an answer whose result is first.
fn result_and_outs<'a>(
    alloc: Global,
    bound: &Bound,
    id: NodeId,
    first: NodeId,
    outs: &[NodeId],
    taken: Option<&'a str>,
    reader: &mut Reader<'a>,
) -> Given
    requires id { id < length bound.now.nodes }
    requires first { first < id }
    requires below { AreBelow id outs.now }
    ensures { IfOk result (λ r. GivenTaken 126 bound.now.back (key_token taken.entry ∷ reader.old) reader.new
        (in_order (parts_at (faces bound.now.nodes bound.now.shapes) [] (first ∷ outs.now))) r.0 r.1) }
{
    let key = head_key(bound.back());
    let (given, past_result) = result_at(alloc, bound, first, taken, reader)?;
    let (before, outs_key) = word_at(key, past_result, reader)?;
    let (values, past_outs) = outs_at(alloc, bound, id, outs, given, outs_key, reader)?;
    let (after, last) = word_at(key, past_outs, reader)?;
    if !is_end(last) {
        return Err(Halt::Fallback);
    }
    Ok((after.or(before), values))
}

/// The values of an answer in which the parameters that come out are first.
fn outs_and_result<'a>(
    alloc: Global,
    bound: &Bound,
    id: NodeId,
    first: NodeId,
    outs: &[NodeId],
    taken: Option<&'a str>,
    reader: &mut Reader<'a>,
) -> Given
    requires id { id < length bound.now.nodes }
    requires first { first < id }
    requires below { AreBelow id outs.now }
    ensures { IfOk result (λ r. GivenTaken 126 bound.now.back (key_token taken.entry ∷ reader.old) reader.new
        (in_order (parts_at (faces bound.now.nodes bound.now.shapes) [] (first ∷ outs.now))) r.0 r.1) }
{
    let key = head_key(bound.back());
    let (mut values, past_outs) = outs_at(alloc, bound, id, outs, Value::Void, taken, reader)?;
    let (before, result_key) = word_at(key, past_outs, reader)?;
    let (mut given, past_result) = result_at(alloc, bound, first, result_key, reader)?;
    let (after, last) = word_at(key, past_result, reader)?;
    if !is_end(last) {
        return Err(Halt::Fallback);
    }
    values.exchange(0, &mut given);
    Ok((after.or(before), values))
}

/// The value of the result, where its key is the one that was taken, or otherwise of null, and the key after it.
fn result_at<'a>(
    alloc: Global,
    bound: &Bound,
    id: NodeId,
    taken: Option<&'a str>,
    reader: &mut Reader<'a>,
) -> Result<(Value, Option<&'a str>), Halt>
    requires { id < length bound.now.nodes }
    ensures { IfOk result (λ r. ResultTaken 126
        (key_token taken.entry ∷ reader.old) (key_token r.1 ∷ reader.new)
        (face_at bound.now.nodes bound.now.shapes id) (seen r.0)) }
{
    if !is_key(taken, "result") {
        let none = void(bound, id)?;
        return Ok((none, taken));
    }
    let value = read_direct(alloc, bound, id, DEEPEST, reader)?;
    let past = key_next(reader)?;
    Ok((value, past))
}

/// A first value and those of the parameters that come out, where their key is the one that was taken, or otherwise of
/// none, and the key after them.
fn outs_at<'a>(
    alloc: Global,
    bound: &Bound,
    id: NodeId,
    ids: &[NodeId],
    first: Value,
    taken: Option<&'a str>,
    reader: &mut Reader<'a>,
) -> Result<(Values, Option<&'a str>), Halt>
    requires id { id < length bound.now.nodes }
    requires below { AreBelow id ids.now }
    ensures { IfOk result (λ r. OutsTaken 126
        (key_token taken.entry ∷ reader.old) (key_token r.1 ∷ reader.new)
        (in_order (parts_at (faces bound.now.nodes bound.now.shapes) [] ids.now)) first r.0) }
{
    if !is_key(taken, "outs") {
        let alone = alone(alloc, ids, first)?;
        return Ok((alone, taken));
    }
    begin_items(reader)?;
    let values = outs_next(alloc, bound, id, ids, first, reader)?;
    let past = key_next(reader)?;
    Ok((values, past))
}

/// A first value alone, where nothing comes out.
fn alone(alloc: Global, ids: &[NodeId], first: Value) -> Result<Values, Halt>
    ensures none { IfOk result (λ vs. ids.now ≡ []) }
    ensures values { IfOk result (λ vs. vs ≡ first ∷ []) }
{
    if !ids.is_empty() {
        return Err(Halt::Fallback);
    }
    let mut values = Values::with_room(alloc, 1)?;
    values.push(first)?;
    Ok(values)
}

/// A first value and those of the parameters that come out, and the end of their array.
fn outs_next(
    alloc: Global,
    bound: &Bound,
    id: NodeId,
    ids: &[NodeId],
    first: Value,
    reader: &mut Reader<'_>,
) -> Result<Values, Halt>
    requires id { id < length bound.now.nodes }
    requires below { AreBelow id ids.now }
    ensures { IfOk result (λ vs. ItemsOf 125 reader.old reader.new
        (in_order (parts_at (faces bound.now.nodes bound.now.shapes) [] ids.now)) first vs) }
{
    let mut values = Values::with_room(alloc, ids.len() + 1)?;
    values.push(first)?;
    for (_i, field) in ids.iter().enumerate() {
        let value = read_direct(alloc, bound, *field, DEEPEST - 1, reader)?;
        values.push(value)?;
    }
    end_items(reader)?;
    Ok(values)
}
