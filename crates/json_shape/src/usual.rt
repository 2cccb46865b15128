//! Values from tokens of text in the usual form: structs with their fields in the order of the file, unions with the tag
//! before the value. What is in another form is read by its tree.

ghost use Rattle.std.specs.Prelude.{◌≡◌, ◌<◌, [], length, IfOk, Some};
ghost use Rattle.mint.specs.Types.{AreBelow, ArmsBelow, IsBelow};
ghost use Rattle.mint.specs.Values.{seen, all_seen};
ghost use Rattle.pres.specs.Faces.{arms_at, choice, faces, face_at, maybe, nothing, parts_at, group_face, list, members, sign_of, values};
ghost use Rattle.pres.specs.Named.{AreFields, IsGroupShape};
ghost use Rattle.serde_json.specs.Data.{null};
ghost use Rattle.json_shape.specs.Presents.{count};
ghost use Rattle.json_shape.specs.Reading.{value_of, each, in_order, by_name};
ghost use Rattle.json_shape.specs.Usual.{ArmTaken, ItemsTaken, MembersTaken, Reads};

use crate::errors::Halt;
use crate::usual_scalars::{item, number, row, sign, text};
use crate::usual_tokens::{
    after_key, begin_items, begin_members, end_items, end_members, is_end, is_key, key_next,
    null_next,
};
use json::Reader;
use mint::kind::Count;
use mint::node::{Arms, Node, NodeIds, Tag, arm_of};
use mint::table::NodeId;
use mint::value::{Value, Values};
use pres::{Bound, FieldTable, Shape};
use std::alloc::Global;

/// The value that the next tokens show for a node, whatever the counts and labels of the types. It nests no deeper than
/// `depth`.
#[cycle(read_direct)]
#[tactic(auto, unfolding(crate::specs::Reading::value_of))]
pub(crate) fn read_direct(
    alloc: Global,
    bound: &Bound,
    id: NodeId,
    depth: usize,
    reader: &mut Reader<'_>,
) -> Result<Value, Halt>
    requires { id < length bound.now.nodes }
    ensures { IfOk result (λ v. Reads depth reader.old reader.new
        (value_of (face_at bound.now.nodes bound.now.shapes id)) (seen v)) }
{
    let Some((node, shape)) = bound.part(id) else {
        unreachable!()
    };
    match node {
        Node::Void => nothing(reader),
        Node::Num(kind) => Ok(Value::Num(number(*kind, reader)?)),
        Node::Enum(_) => Ok(Value::Num(item(shape, reader)?)),
        Node::Text(_) => Ok(Value::Row(text(alloc, reader)?)),
        Node::Row(kind, _) => Ok(Value::Row(row(alloc, *kind, depth, reader)?)),
        Node::Group(ids) => group(alloc, bound, id, ids, shape, depth, reader),
        Node::Items(item, size) => items(alloc, bound, id, *item, *size, depth, reader),
        Node::Choice(tag, arms, other) => {
            choice(alloc, bound, id, tag, shape, arms, *other, depth, reader)
        }
        Node::Maybe(item) => maybe(alloc, bound, id, *item, depth, reader),
    }
}

/// The void value, from null.
fn nothing(reader: &mut Reader<'_>) -> Result<Value, Halt>
    ensures { IfOk result (λ v. Reads 0 reader.old reader.new (value_of nothing) (seen v)) }
{
    null_next(reader)?;
    Ok(Value::Void)
}

#[cycle(read_direct)]
#[tactic(auto, unfolding(crate::specs::Reading::value_of))]
fn group(
    alloc: Global,
    bound: &Bound,
    id: NodeId,
    ids: &NodeIds,
    shape: &Shape,
    depth: usize,
    reader: &mut Reader<'_>,
) -> Result<Value, Halt>
    requires id { id < length bound.now.nodes }
    requires below { AreBelow id ids.now }
    requires named { IsGroupShape ids.now shape.now }
    ensures { IfOk result (λ v. Reads depth reader.old reader.new
        (value_of (group_face (faces bound.now.nodes bound.now.shapes) ids.now shape.now)) (seen v)) }
{
    match shape {
        Shape::FieldNames(names) => named(alloc, bound, id, ids, names, depth, reader),
        _ => unnamed(alloc, bound, id, ids, depth, reader),
    }
}

/// A struct, from an object.
#[cycle(read_direct)]
fn named(
    alloc: Global,
    bound: &Bound,
    id: NodeId,
    ids: &NodeIds,
    names: &FieldTable,
    depth: usize,
    reader: &mut Reader<'_>,
) -> Result<Value, Halt>
    requires id { id < length bound.now.nodes }
    requires below { AreBelow id ids.now }
    requires named { AreFields ids.now names.now }
    ensures { IfOk result (λ v. Reads depth reader.old reader.new
        (value_of (members (parts_at (faces bound.now.nodes bound.now.shapes) names.now ids.now))) (seen v)) }
{
    if depth == 0 {
        return Err(Halt::Fallback);
    }
    begin_members(reader)?;
    let read = fields(alloc, bound, id, ids, names, depth - 1, reader)?;
    Ok(Value::Group(read))
}

/// Values without names, from an array.
#[cycle(read_direct)]
pub(crate) fn unnamed(
    alloc: Global,
    bound: &Bound,
    id: NodeId,
    ids: &NodeIds,
    depth: usize,
    reader: &mut Reader<'_>,
) -> Result<Value, Halt>
    requires id { id < length bound.now.nodes }
    requires below { AreBelow id ids.now }
    ensures { IfOk result (λ v. Reads depth reader.old reader.new
        (value_of (values (parts_at (faces bound.now.nodes bound.now.shapes) [] ids.now))) (seen v)) }
{
    if depth == 0 {
        return Err(Halt::Fallback);
    }
    begin_items(reader)?;
    let read = parts(alloc, bound, id, ids, depth - 1, reader)?;
    Ok(Value::Group(read))
}

/// The fields of a struct in their order, and the end of the object.
#[cycle(read_direct)]
fn fields(
    alloc: Global,
    bound: &Bound,
    id: NodeId,
    ids: &NodeIds,
    names: &FieldTable,
    depth: usize,
    reader: &mut Reader<'_>,
) -> Result<Values, Halt>
    requires id { id < length bound.now.nodes }
    requires below { AreBelow id ids.now }
    requires named { AreFields ids.now names.now }
    ensures { IfOk result (λ vs. MembersTaken depth reader.old reader.new
        (count (parts_at (faces bound.now.nodes bound.now.shapes) names.now ids.now))
        (by_name (parts_at (faces bound.now.nodes bound.now.shapes) names.now ids.now)) (all_seen vs)) }
{
    let mut values = Values::with_room(alloc, ids.len())?;
    for (i, field) in ids.as_slice().iter().enumerate() {
        after_key(names.text(i), reader)?;
        let value = read_direct(alloc, bound, *field, depth, reader)?;
        values.push(value)?;
    }
    end_members(reader)?;
    Ok(values)
}

/// Values in order, one for each part, and the end of the array.
#[cycle(read_direct)]
fn parts(
    alloc: Global,
    bound: &Bound,
    id: NodeId,
    ids: &NodeIds,
    depth: usize,
    reader: &mut Reader<'_>,
) -> Result<Values, Halt>
    requires id { id < length bound.now.nodes }
    requires below { AreBelow id ids.now }
    ensures { IfOk result (λ vs. ItemsTaken depth reader.old reader.new
        (in_order (parts_at (faces bound.now.nodes bound.now.shapes) [] ids.now)) (all_seen vs)) }
{
    let mut values = Values::with_room(alloc, ids.len())?;
    for (_i, field) in ids.as_slice().iter().enumerate() {
        let value = read_direct(alloc, bound, *field, depth, reader)?;
        values.push(value)?;
    }
    end_items(reader)?;
    Ok(values)
}

/// The elements of a list, from an array.
#[cycle(read_direct)]
fn items(
    alloc: Global,
    bound: &Bound,
    id: NodeId,
    item: NodeId,
    size: Count,
    depth: usize,
    reader: &mut Reader<'_>,
) -> Result<Value, Halt>
    requires id { id < length bound.now.nodes }
    requires below { item < id }
    ensures { IfOk result (λ v. Reads depth reader.old reader.new
        (value_of (list size (face_at bound.now.nodes bound.now.shapes item))) (seen v)) }
{
    if depth == 0 {
        return Err(Halt::Fallback);
    }
    begin_items(reader)?;
    let read = each(alloc, bound, id, item, depth - 1, reader)?;
    Ok(Value::Items(read))
}

/// The elements, and the end of the array.
#[cycle(read_direct)]
fn each(
    alloc: Global,
    bound: &Bound,
    id: NodeId,
    item: NodeId,
    depth: usize,
    reader: &mut Reader<'_>,
) -> Result<Values, Halt>
    requires id { id < length bound.now.nodes }
    requires below { item < id }
    ensures { IfOk result (λ vs. ItemsTaken depth reader.old reader.new
        (each (value_of (face_at bound.now.nodes bound.now.shapes item))) (all_seen vs)) }
{
    let mut values = Values::new(alloc);
    while !reader.take_end_array() {
        let value = read_direct(alloc, bound, item, depth, reader)?;
        values.push(value)?;
    }
    Ok(values)
}

/// A union, from an object of its tag and of the value of its arm, in this order.
#[cycle(read_direct)]
fn choice(
    alloc: Global,
    bound: &Bound,
    id: NodeId,
    tag: &Tag,
    shape: &Shape,
    arms: &Arms,
    other: Option<NodeId>,
    depth: usize,
    reader: &mut Reader<'_>,
) -> Result<Value, Halt>
    requires id { id < length bound.now.nodes }
    requires below { ArmsBelow id arms.now }
    requires other { IsBelow id other }
    ensures { IfOk result (λ v. Reads depth reader.old reader.new
        (value_of (choice (sign_of tag.now shape.now)
        (arms_at (faces bound.now.nodes bound.now.shapes) arms.now other))) (seen v)) }
{
    if depth == 0 {
        return Err(Halt::Fallback);
    }
    begin_members(reader)?;
    after_key("tag", reader)?;
    let n = sign(tag, shape, reader)?;
    let inner = arm(alloc, bound, id, arms, other, &n, depth - 1, reader)?;
    let value = Value::arm(alloc, n, inner)?;
    Ok(value)
}

/// The value of the number's arm, and the end of the object.
#[cycle(read_direct)]
fn arm(
    alloc: Global,
    bound: &Bound,
    id: NodeId,
    arms: &Arms,
    other: Option<NodeId>,
    n: &i128,
    depth: usize,
    reader: &mut Reader<'_>,
) -> Result<Value, Halt>
    requires id { id < length bound.now.nodes }
    requires below { ArmsBelow id arms.now }
    requires other { IsBelow id other }
    ensures { IfOk result (λ v. ArmTaken depth reader.old reader.new
        (arms_at (faces bound.now.nodes bound.now.shapes) arms.now other) n.now (seen v)) }
{
    let Some(item) = arm_of(arms, other, n) else {
        return Err(Halt::Fallback);
    };
    let key = key_next(reader)?;
    if is_end(key) {
        let none = void(bound, item)?;
        return Ok(none);
    }
    if !is_key(key, "value") {
        return Err(Halt::Fallback);
    }
    let value = read_direct(alloc, bound, item, depth, reader)?;
    end_members(reader)?;
    Ok(value)
}

/// The value of an arm that is absent, which is void.
#[tactic(auto, unfolding(crate::specs::Reading::value_of))]
pub(crate) fn void(bound: &Bound, id: NodeId) -> Result<Value, Halt>
    requires { id < length bound.now.nodes }
    ensures { IfOk result (λ v. value_of (face_at bound.now.nodes bound.now.shapes id) null ≡ Some (seen v)) }
{
    match bound.part(id) {
        Some((Node::Void, _)) => Ok(Value::Void),
        _ => Err(Halt::Fallback),
    }
}

/// An optional value, from an array of none or one.
#[cycle(read_direct)]
fn maybe(
    alloc: Global,
    bound: &Bound,
    id: NodeId,
    item: NodeId,
    depth: usize,
    reader: &mut Reader<'_>,
) -> Result<Value, Halt>
    requires id { id < length bound.now.nodes }
    requires below { item < id }
    ensures { IfOk result (λ v. Reads depth reader.old reader.new
        (value_of (maybe (face_at bound.now.nodes bound.now.shapes item))) (seen v)) }
{
    if depth == 0 {
        return Err(Halt::Fallback);
    }
    begin_items(reader)?;
    if reader.take_end_array() {
        return Ok(Value::Opt(None));
    }
    let inner = read_direct(alloc, bound, item, depth - 1, reader)?;
    end_items(reader)?;
    let value = Value::present(alloc, inner)?;
    Ok(value)
}
