//! Values from JSON.

ghost use Rattle.std.specs.Prelude.{◌≡◌, ◌<◌, [], length, IfErr, IfOk, option_map};
ghost use Rattle.mint.specs.Typed.{IsWellTyped};
ghost use Rattle.mint.specs.Types.{AreBelow, ArmsBelow, IsBelow, type_at};
ghost use Rattle.mint.specs.Values.{Val, seen, all_seen, arm as after_number};
ghost use Rattle.pres.specs.Faces.{faces, face_at, parts_at, arms_at, sign_of, group_face, list, choice, maybe, nothing};
ghost use Rattle.pres.specs.Named.{IsGroupShape};
ghost use Rattle.serde_json.specs.View.{view, items_view};
ghost use Rattle.json_shape.specs.Gives.{Gives};
ghost use Rattle.json_shape.specs.Presents.{Presents, count, members_in};
ghost use Rattle.json_shape.specs.Reading.{value_of, each, in_array, in_object, in_order, by_name, after};

use crate::errors::ShapeErr;
use crate::objects::{has_arm_members, member, tag_in};
use crate::rows::{row, text};
use crate::scalars::{item, number};
use mint::fits::fits;
use mint::kind::Count;
use mint::node::{Arms, Node, NodeIds, Tag, arm_of};
use mint::table::NodeId;
use mint::value::{Value, Values};
use pres::{Bound, FieldTable, Shape};
use serde_json::Value as Json;
use std::alloc::Global;

/// The value that the JSON presents for a node.
pub fn to_value(alloc: Global, bound: &Bound, id: NodeId, json: &Json) -> Result<Value, ShapeErr>
    requires { id < length bound.now.nodes }
    ensures value { IfOk result (λ v.
        Presents (face_at bound.now.nodes bound.now.shapes id) (view json.now) (seen v)) }
    ensures typed { IfOk result (λ v. IsWellTyped (type_at bound.now.nodes id) (seen v)) }
    ensures shape { IfErr result (λ e. e ≡ ShapeErr.Shape
        → (v : Val) → ¬ Presents (face_at bound.now.nodes bound.now.shapes id) (view json.now) v) }
{
    // A node is of the type of its face.
    let Some(_) = bound.part(id) else {
        unreachable!()
    };
    match value(alloc, bound, id, json) {
        Ok(value) if fits(bound.mint(), id, &value) => Ok(value),
        Ok(_) => Err(ShapeErr::Shape),
        Err(error) => Err(error),
    }
}

/// The value that the JSON shows, whatever the counts and labels of the types.
#[cycle(read)]
#[tactic(auto, unfolding(crate::specs::Reading::value_of))]
fn value(alloc: Global, bound: &Bound, id: NodeId, json: &Json) -> Result<Value, ShapeErr>
    requires { id < length bound.now.nodes }
    ensures { Gives seen result (value_of (face_at bound.now.nodes bound.now.shapes id) (view json.now)) }
{
    let Some((node, shape)) = bound.part(id) else {
        unreachable!()
    };
    match node {
        Node::Void => nothing(json),
        Node::Num(kind) => Ok(Value::Num(number(alloc, *kind, json)?)),
        Node::Enum(_) => Ok(Value::Num(item(shape, json)?)),
        Node::Text(_) => Ok(Value::Row(text(alloc, json)?)),
        Node::Row(kind, _) => Ok(Value::Row(row(alloc, *kind, json)?)),
        Node::Group(ids) => group(alloc, bound, id, ids, shape, json),
        Node::Items(item, size) => items(alloc, bound, id, *item, *size, json),
        Node::Choice(tag, arms, other) => {
            choice(alloc, bound, id, tag, shape, arms, *other, json)
        }
        Node::Maybe(item) => maybe(alloc, bound, id, *item, json),
    }
}

/// The void value, from null.
fn nothing(json: &Json) -> Result<Value, ShapeErr>
    ensures { Gives seen result (value_of nothing (view json.now)) }
{
    if json.is_null() {
        Ok(Value::Void)
    } else {
        Err(ShapeErr::Shape)
    }
}

/// A struct from an object, or arguments from an array.
#[cycle(read)]
#[tactic(auto, unfolding(crate::specs::Reading::value_of))]
fn group(
    alloc: Global,
    bound: &Bound,
    id: NodeId,
    ids: &NodeIds,
    shape: &Shape,
    json: &Json,
) -> Result<Value, ShapeErr>
    requires id { id < length bound.now.nodes }
    requires below { AreBelow id ids.now }
    requires named { IsGroupShape ids.now shape.now }
    ensures { Gives seen result
        (value_of (group_face (faces bound.now.nodes bound.now.shapes) ids.now shape.now) (view json.now)) }
{
    let values = match shape {
        Shape::FieldNames(names) => members(alloc, bound, id, ids, names, json)?,
        _ => arguments(alloc, bound, id, ids, json)?,
    };
    Ok(Value::Group(values))
}

/// The fields of a struct, from an object with exactly their names.
#[cycle(read)]
#[tactic(auto, using(crate::proofs::Fields::fields), unfolding(crate::specs::Reading::value_of))]
fn members(
    alloc: Global,
    bound: &Bound,
    id: NodeId,
    ids: &NodeIds,
    names: &FieldTable,
    json: &Json,
) -> Result<Values, ShapeErr>
    requires id { id < length bound.now.nodes }
    requires below { AreBelow id ids.now }
    requires named { length names.now ≡ length ids.now }
    ensures { Gives all_seen result (in_object
        (count (parts_at (faces bound.now.nodes bound.now.shapes) names.now ids.now))
        (by_name (parts_at (faces bound.now.nodes bound.now.shapes) names.now ids.now)) (view json.now)) }
{
    let Some(object) = json.as_object() else {
        return Err(ShapeErr::Shape);
    };
    if object.len() != ids.len() {
        return Err(ShapeErr::Shape);
    }
    by_name(alloc, bound, id, ids, names, json)
}

/// The fields of a struct, each from the member of its name.
#[cycle(read)]
#[tactic(auto, using(crate::proofs::Fields::fields), unfolding(crate::specs::Reading::value_of))]
fn by_name(
    alloc: Global,
    bound: &Bound,
    id: NodeId,
    ids: &NodeIds,
    names: &FieldTable,
    json: &Json,
) -> Result<Values, ShapeErr>
    requires id { id < length bound.now.nodes }
    requires below { AreBelow id ids.now }
    requires named { length names.now ≡ length ids.now }
    ensures { Gives all_seen result (by_name
        (parts_at (faces bound.now.nodes bound.now.shapes) names.now ids.now) (members_in (view json.now))) }
{
    let mut values = Values::new(alloc);
    for (i, field) in ids.as_slice().iter().enumerate() {
        let Some(part) = member(names, i, json) else {
            return Err(ShapeErr::Shape);
        };
        values.push(value(alloc, bound, *field, part)?)?;
    }
    Ok(values)
}

/// Values in order, from an array with one for each.
#[cycle(read)]
#[tactic(auto, using(crate::proofs::Fields::fields), unfolding(crate::specs::Reading::value_of))]
fn arguments(
    alloc: Global,
    bound: &Bound,
    id: NodeId,
    ids: &NodeIds,
    json: &Json,
) -> Result<Values, ShapeErr>
    requires id { id < length bound.now.nodes }
    requires below { AreBelow id ids.now }
    ensures { Gives all_seen result (in_array (in_order
        (parts_at (faces bound.now.nodes bound.now.shapes) [] ids.now)) (view json.now)) }
{
    match json.as_array() {
        Some(list) => in_order(alloc, bound, id, ids, list.as_slice()),
        None => Err(ShapeErr::Shape),
    }
}

/// Values from as many items.
#[cycle(read)]
#[tactic(auto, using(crate::proofs::Fields::fields), unfolding(crate::specs::Reading::value_of))]
fn in_order(
    alloc: Global,
    bound: &Bound,
    id: NodeId,
    ids: &NodeIds,
    list: &[Json],
) -> Result<Values, ShapeErr>
    requires id { id < length bound.now.nodes }
    requires below { AreBelow id ids.now }
    ensures { Gives all_seen result (in_order (parts_at (faces bound.now.nodes bound.now.shapes) [] ids.now)
        (items_view list.now)) }
{
    if list.len() != ids.len() {
        return Err(ShapeErr::Shape);
    }
    let mut values = Values::new(alloc);
    for (i, field) in ids.as_slice().iter().enumerate() {
        values.push(value(alloc, bound, *field, &list[i])?)?;
    }
    Ok(values)
}

/// A list from an array.
#[cycle(read)]
#[tactic(auto, unfolding(crate::specs::Reading::value_of))]
fn items(
    alloc: Global,
    bound: &Bound,
    id: NodeId,
    item: NodeId,
    size: Count,
    json: &Json,
) -> Result<Value, ShapeErr>
    requires id { id < length bound.now.nodes }
    requires below { item < id }
    ensures { Gives seen result (value_of (list size (face_at bound.now.nodes bound.now.shapes item))
        (view json.now)) }
{
    match json.as_array() {
        Some(list) => Ok(Value::Items(each(alloc, bound, id, item, list.as_slice())?)),
        None => Err(ShapeErr::Shape),
    }
}

/// The values of a list, one from each item.
#[cycle(read)]
#[tactic(auto, using(crate::proofs::Fields::elements))]
fn each(
    alloc: Global,
    bound: &Bound,
    id: NodeId,
    item: NodeId,
    list: &[Json],
) -> Result<Values, ShapeErr>
    requires id { id < length bound.now.nodes }
    requires below { item < id }
    ensures { Gives all_seen result (each (value_of (face_at bound.now.nodes bound.now.shapes item))
        (items_view list.now)) }
{
    let mut values = Values::new(alloc);
    for json in list {
        values.push(value(alloc, bound, item, json)?)?;
    }
    Ok(values)
}

/// An optional value, from an array of none or one.
#[cycle(read)]
#[tactic(auto, unfolding(crate::specs::Reading::value_of))]
fn maybe(
    alloc: Global,
    bound: &Bound,
    id: NodeId,
    item: NodeId,
    json: &Json,
) -> Result<Value, ShapeErr>
    requires id { id < length bound.now.nodes }
    requires below { item < id }
    ensures { Gives seen result (value_of (maybe (face_at bound.now.nodes bound.now.shapes item))
        (view json.now)) }
{
    let Some(list) = json.as_array() else {
        return Err(ShapeErr::Shape);
    };
    match list.as_slice() {
        [] => Ok(Value::Opt(None)),
        [inner] => Ok(Value::present(alloc, value(alloc, bound, item, inner)?)?),
        _ => Err(ShapeErr::Shape),
    }
}

/// A choice, from an object of its tag and of the value of its arm, which is null where it is absent.
#[cycle(read)]
#[tactic(auto, unfolding(crate::specs::Reading::value_of))]
fn choice(
    alloc: Global,
    bound: &Bound,
    id: NodeId,
    tag: &Tag,
    shape: &Shape,
    arms: &Arms,
    other: Option<NodeId>,
    json: &Json,
) -> Result<Value, ShapeErr>
    requires id { id < length bound.now.nodes }
    requires below { ArmsBelow id arms.now }
    requires other { IsBelow id other }
    ensures { Gives seen result (value_of (choice (sign_of tag.now shape.now)
        (arms_at (faces bound.now.nodes bound.now.shapes) arms.now other)) (view json.now)) }
{
    if !has_arm_members(json) {
        return Err(ShapeErr::Shape);
    }
    let n = tag_in(alloc, tag, shape, json)?;
    match json.get("value") {
        Some(inner) => arm(alloc, bound, id, arms, other, &n, inner),
        None => arm(alloc, bound, id, arms, other, &n, &Json::Null),
    }
}

/// The value of the number's arm, after the number.
#[cycle(read)]
#[tactic(auto, using(crate::proofs::Arms::arms), unfolding(crate::specs::Reading::value_of))]
fn arm(
    alloc: Global,
    bound: &Bound,
    id: NodeId,
    arms: &Arms,
    other: Option<NodeId>,
    n: &i128,
    json: &Json,
) -> Result<Value, ShapeErr>
    requires id { id < length bound.now.nodes }
    requires below { ArmsBelow id arms.now }
    requires other { IsBelow id other }
    ensures { Gives seen result (option_map (after_number n.now)
        (after (arms_at (faces bound.now.nodes bound.now.shapes) arms.now other) n.now (view json.now))) }
{
    match arm_of(arms, other, n) {
        Some(item) => Ok(Value::arm(alloc, *n, value(alloc, bound, item, json)?)?),
        None => Err(ShapeErr::Shape),
    }
}
