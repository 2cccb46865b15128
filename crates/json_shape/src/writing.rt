//! Values as JSON.

ghost use Rattle.std.specs.Prelude.{◌≡◌, ◌<◌, [], length, IfOk};
ghost use Rattle.mint.specs.Typed.{IsWellTyped};
ghost use Rattle.mint.specs.Types.{AreBelow, ArmsBelow, IsBelow, type_at};
ghost use Rattle.mint.specs.Values.{seen, all_seen, group};
ghost use Rattle.pres.specs.Faces.{faces, face_at, parts_at, arms_at, group_face};
ghost use Rattle.pres.specs.Named.{IsGroupShape};
ghost use Rattle.serde_json.specs.Data.{array, item, no_items};
ghost use Rattle.serde_json.specs.View.{view, items_view, members_view};
ghost use Rattle.json_shape.specs.Presents.{Presents};
ghost use Rattle.json_shape.specs.Written.{json_of, items_json, in_order_json, by_name_json, after_json, arm_json};

use crate::numbers::{item_json, number_json, row_json, sign_json};
use kit_base::NoMemory;
use mint::node::{Arms, Node, NodeIds, arm_of};
use mint::table::NodeId;
use mint::value::{Value, Values};
use pres::{Bound, FieldTable, Shape};
use serde_json::{Map, Value as Json, put};
use std::alloc::Global;

/// The JSON of a value that is well typed for a node.
pub fn to_json(alloc: Global, bound: &Bound, id: NodeId, value: &Value) -> Result<Json, NoMemory>
    requires id { id < length bound.now.nodes }
    requires typed { IsWellTyped (type_at bound.now.nodes id) (seen value.now) }
    ensures json { IfOk result (λ j.
        view j ≡ json_of (face_at bound.now.nodes bound.now.shapes id) (seen value.now)) }
    ensures presents { IfOk result (λ j.
        Presents (face_at bound.now.nodes bound.now.shapes id) (view j) (seen value.now)) }
{
    // The names in a binding differ, and a node is of the type of its face.
    let _ops = bound.ops();
    let Some(_) = bound.part(id) else {
        unreachable!()
    };
    json(alloc, bound, id, value)
}

/// The JSON of a value; null where a part is none of its type.
#[cycle(write)]
fn json(alloc: Global, bound: &Bound, id: NodeId, value: &Value) -> Result<Json, NoMemory>
    requires { id < length bound.now.nodes }
    ensures { IfOk result (λ j.
        view j ≡ json_of (face_at bound.now.nodes bound.now.shapes id) (seen value.now)) }
{
    let Some((node, shape)) = bound.part(id) else {
        unreachable!()
    };
    match node {
        Node::Void => Ok(Json::Null),
        Node::Num(kind) => match value.as_num() {
            Some(n) => number_json(alloc, *kind, &n),
            None => Ok(Json::Null),
        },
        Node::Enum(_) => match value.as_num() {
            Some(n) => item_json(alloc, shape, &n),
            None => Ok(Json::Null),
        },
        Node::Text(_) | Node::Row(_, _) => match value.as_row() {
            Some(row) => row_json(alloc, row),
            None => Ok(Json::Null),
        },
        Node::Group(ids) => match value.as_group() {
            Some(values) => group(alloc, bound, id, ids, shape, values),
            None => Ok(Json::Null),
        },
        Node::Items(item, _) => match value.as_items() {
            Some(values) => items(alloc, bound, id, *item, values),
            None => Ok(Json::Null),
        },
        Node::Choice(tag, arms, other) => match value.as_arm() {
            Some((n, inner)) => {
                let tag = sign_json(alloc, tag, shape, &n)?;
                let after = arm(alloc, bound, id, arms, *other, &n, inner)?;
                arm_json(alloc, tag, after)
            }
            None => Ok(Json::Null),
        },
        Node::Maybe(item) => match value.as_opt() {
            Some(None) => Ok(Json::Array(Vec::new(alloc))),
            Some(Some(inner)) => alone(alloc, json(alloc, bound, *item, inner)?),
            None => Ok(Json::Null),
        },
    }
}

/// An array of one item.
fn alone(alloc: Global, json: Json) -> Result<Json, NoMemory>
    ensures { IfOk result (λ j. view j ≡ array (item (view json) no_items)) }
{
    let mut list = Vec::new(alloc);
    list.push(json)?;
    Ok(Json::Array(list))
}

/// The object of a tag and its value.
pub(crate) fn arm_json(alloc: Global, tag: Json, after: Json) -> Result<Json, NoMemory>
    ensures { IfOk result (λ j. view j ≡ arm_json (view tag) (view after)) }
{
    let mut members = Map::new(alloc);
    put(&mut members, alloc, "value", after)?;
    put(&mut members, alloc, "tag", tag)?;
    Ok(Json::Object(members))
}

/// A struct as an object, and arguments as an array.
#[cycle(write)]
fn group(
    alloc: Global,
    bound: &Bound,
    id: NodeId,
    ids: &NodeIds,
    shape: &Shape,
    values: &Values,
) -> Result<Json, NoMemory>
    requires id { id < length bound.now.nodes }
    requires below { AreBelow id ids.now }
    requires named { IsGroupShape ids.now shape.now }
    ensures { IfOk result (λ j. view j
        ≡ json_of (group_face (faces bound.now.nodes bound.now.shapes) ids.now shape.now)
        (group (all_seen values.now))) }
{
    match shape {
        Shape::FieldNames(names) => Ok(Json::Object(by_name(
            alloc, bound, id, ids, names, values,
        )?)),
        _ => Ok(Json::Array(in_order(alloc, bound, id, ids, values)?)),
    }
}

/// The fields by their names, the last one first.
#[cycle(write)]
fn by_name(
    alloc: Global,
    bound: &Bound,
    id: NodeId,
    ids: &NodeIds,
    names: &FieldTable,
    values: &Values,
) -> Result<Map<String, Json>, NoMemory>
    requires id { id < length bound.now.nodes }
    requires below { AreBelow id ids.now }
    requires named { length names.now ≡ length ids.now }
    ensures { IfOk result (λ m. members_view m.entries
        ≡ by_name_json (parts_at (faces bound.now.nodes bound.now.shapes) names.now ids.now)
        (all_seen values.now)) }
{
    let ids = ids.as_slice();
    let values = values.as_slice();
    let mut members = Map::new(alloc);
    let mut i = ids.len().min(values.len());
    while i > 0 {
        i -= 1;
        let member = json(alloc, bound, ids[i], &values[i])?;
        put(&mut members, alloc, names.text(i), member)?;
    }
    Ok(members)
}

/// Values as the items of an array.
#[cycle(write)]
fn in_order(
    alloc: Global,
    bound: &Bound,
    id: NodeId,
    ids: &NodeIds,
    values: &Values,
) -> Result<Vec<Json>, NoMemory>
    requires id { id < length bound.now.nodes }
    requires below { AreBelow id ids.now }
    ensures { IfOk result (λ l. items_view l.items
        ≡ in_order_json (parts_at (faces bound.now.nodes bound.now.shapes) [] ids.now)
        (all_seen values.now)) }
{
    let ids = ids.as_slice();
    let values = values.as_slice();
    let mut list = Vec::new(alloc);
    for i in 0..ids.len().min(values.len()) {
        list.push(json(alloc, bound, ids[i], &values[i])?)?;
    }
    Ok(list)
}

/// A list as an array.
#[cycle(write)]
fn items(
    alloc: Global,
    bound: &Bound,
    id: NodeId,
    item: NodeId,
    values: &Values,
) -> Result<Json, NoMemory>
    requires id { id < length bound.now.nodes }
    requires below { item < id }
    ensures { IfOk result (λ j. view j
        ≡ array (items_json (json_of (face_at bound.now.nodes bound.now.shapes item))
        (all_seen values.now))) }
{
    let mut list = Vec::new(alloc);
    for value in values.as_slice() {
        list.push(json(alloc, bound, item, value)?)?;
    }
    Ok(Json::Array(list))
}

/// The value of the number's arm.
#[cycle(write)]
#[tactic(auto, using(crate::proofs::Arms::arms_written))]
pub(crate) fn arm(
    alloc: Global,
    bound: &Bound,
    id: NodeId,
    arms: &Arms,
    other: Option<NodeId>,
    n: &i128,
    inner: &Value,
) -> Result<Json, NoMemory>
    requires id { id < length bound.now.nodes }
    requires below { ArmsBelow id arms.now }
    requires other { IsBelow id other }
    ensures { IfOk result (λ j. view j ≡ after_json
        (arms_at (faces bound.now.nodes bound.now.shapes) arms.now other) n.now (seen inner.now)) }
{
    match arm_of(arms, other, n) {
        Some(item) => json(alloc, bound, item, inner),
        None => Ok(Json::Null),
    }
}
