//! Values, written as JSON straight from their types, without a tree.

ghost use Rattle.std.specs.Prelude.{◌≡◌, ◌<◌, [], length, Some, OnOk};
ghost use Rattle.mint.specs.Types.{AreBelow, ArmsBelow, IsBelow};
ghost use Rattle.mint.specs.Values.{seen, all_seen, group};
ghost use Rattle.pres.specs.Faces.{faces, face_at, parts_at, arms_at, group_face, sign_of, members};
ghost use Rattle.pres.specs.KeyOrder.{key_order};
ghost use Rattle.pres.specs.Named.{IsGroupShape};
ghost use Rattle.serde_json.specs.Data.{array, object, item as one_item, no_items};
ghost use Rattle.json_shape.specs.Written.{json_of, items_json, in_order_json, by_name_json, after_json, arm_json, sign_json};
ghost use Rattle.json_shape.specs.Printed.{tokens_of, Adds};

use crate::errors::Halt;
use crate::field_order::order_of;
use crate::printed_scalars::{put_item, put_nothing, put_null, put_number, put_row, put_sign};
use json::Writer;
use mint::node::{Arms, Node, NodeIds, Tag, arm_of};
use mint::table::NodeId;
use mint::value::{Value, Values};
use pres::{Bound, FieldTable, Shape};
use std::alloc::Global;

/// Writes the JSON of a value, unless it is to be written by its tree.
#[cycle(print)]
#[tactic(auto, using(crate::proofs::Adding::adding))]
pub(crate) fn print(
    alloc: Global,
    bound: &Bound,
    id: NodeId,
    value: &Value,
    out: &mut Writer,
) -> Result<(), Halt>
    requires { id < length bound.now.nodes }
    ensures { OnOk result (Adds out.old out.new
        (tokens_of (json_of (face_at bound.now.nodes bound.now.shapes id) (seen value.now)))) }
{
    let Some((node, shape)) = bound.part(id) else {
        unreachable!()
    };
    match node {
        Node::Void => put_null(out),
        Node::Num(kind) => match value.as_num() {
            Some(n) => put_number(alloc, *kind, &n, out),
            None => Err(Halt::Fallback),
        },
        Node::Enum(_) => match value.as_num() {
            Some(n) => put_item(shape, &n, out),
            None => Err(Halt::Fallback),
        },
        Node::Text(_) | Node::Row(_, _) => match value.as_row() {
            Some(row) => put_row(alloc, row, out),
            None => Err(Halt::Fallback),
        },
        Node::Group(ids) => match value.as_group() {
            Some(values) => group(alloc, bound, id, ids, shape, values, out),
            None => Err(Halt::Fallback),
        },
        Node::Items(item, _) => match value.as_items() {
            Some(values) => items(alloc, bound, id, *item, values, out),
            None => Err(Halt::Fallback),
        },
        Node::Choice(tag, arms, other) => match value.as_arm() {
            Some((n, inner)) => {
                choice(alloc, bound, id, tag, shape, arms, *other, &n, inner, out)
            }
            None => Err(Halt::Fallback),
        },
        Node::Maybe(item) => match value.as_opt() {
            Some(None) => put_nothing(out),
            Some(Some(inner)) => alone(alloc, bound, id, *item, inner, out),
            None => Err(Halt::Fallback),
        },
    }
}

/// Writes an array of one item.
#[cycle(print)]
#[tactic(auto, using(crate::proofs::Adding::adding))]
fn alone(
    alloc: Global,
    bound: &Bound,
    id: NodeId,
    item: NodeId,
    inner: &Value,
    out: &mut Writer,
) -> Result<(), Halt>
    requires id { id < length bound.now.nodes }
    requires below { item < id }
    ensures { OnOk result (Adds out.old out.new (tokens_of (array (one_item
        (json_of (face_at bound.now.nodes bound.now.shapes item) (seen inner.now)) no_items)))) }
{
    out.begin_array()?;
    print(alloc, bound, item, inner, out)?;
    out.end_array()?;
    Ok(())
}

/// Writes a struct as an object, and arguments as an array.
#[cycle(print)]
#[tactic(auto, using(crate::proofs::Adding::adding))]
fn group(
    alloc: Global,
    bound: &Bound,
    id: NodeId,
    ids: &NodeIds,
    shape: &Shape,
    values: &Values,
    out: &mut Writer,
) -> Result<(), Halt>
    requires id { id < length bound.now.nodes }
    requires below { AreBelow id ids.now }
    requires named { IsGroupShape ids.now shape.now }
    ensures { OnOk result (Adds out.old out.new (tokens_of
        (json_of (group_face (faces bound.now.nodes bound.now.shapes) ids.now shape.now)
        (group (all_seen values.now))))) }
{
    match shape {
        Shape::FieldNames(names) => named(alloc, bound, id, ids, names, values, out),
        _ => in_order(alloc, bound, id, ids.as_slice(), values.as_slice(), out),
    }
}

/// Writes a struct as an object. Where its names keep no order, that is made.
#[cycle(print)]
#[tactic(auto, using(crate::proofs::Adding::adding))]
fn named(
    alloc: Global,
    bound: &Bound,
    id: NodeId,
    ids: &NodeIds,
    names: &FieldTable,
    values: &Values,
    out: &mut Writer,
) -> Result<(), Halt>
    requires id { id < length bound.now.nodes }
    requires below { AreBelow id ids.now }
    requires named { length names.now ≡ length ids.now }
    ensures { OnOk result (Adds out.old out.new (tokens_of (object (by_name_json
        (parts_at (faces bound.now.nodes bound.now.shapes) names.now ids.now) (all_seen values.now))))) }
{
    if let Some(order) = names.order() {
        return by_name(alloc, bound, id, ids, names, order, values, out);
    }
    let order = order_of(alloc, names)?;
    by_name(alloc, bound, id, ids, names, order.as_slice(), values, out)
}

/// Writes the fields by their names, in the order of their keys.
#[cycle(print)]
#[tactic(auto, using(crate::proofs::Adding::adding))]
fn by_name(
    alloc: Global,
    bound: &Bound,
    id: NodeId,
    ids: &NodeIds,
    names: &FieldTable,
    order: &[u8],
    values: &Values,
    out: &mut Writer,
) -> Result<(), Halt>
    requires id { id < length bound.now.nodes }
    requires below { AreBelow id ids.now }
    requires named { length names.now ≡ length ids.now }
    requires order { key_order names.now ≡ Some order.now }
    ensures { OnOk result (Adds out.old out.new (tokens_of (object (by_name_json
        (parts_at (faces bound.now.nodes bound.now.shapes) names.now ids.now) (all_seen values.now))))) }
{
    let ids = ids.as_slice();
    let values = values.as_slice();
    if values.len() != ids.len() {
        return Err(Halt::Fallback);
    }
    out.begin_object()?;
    for i in order {
        let i = usize::from(*i);
        if i >= ids.len() {
            return Err(Halt::Fallback);
        }
        out.key(names.text(i))?;
        print(alloc, bound, ids[i], &values[i], out)?;
    }
    out.end_object()?;
    Ok(())
}

/// Writes values as the items of an array.
#[cycle(print)]
#[tactic(auto, using(crate::proofs::Adding::adding))]
pub(crate) fn in_order(
    alloc: Global,
    bound: &Bound,
    id: NodeId,
    ids: &[NodeId],
    values: &[Value],
    out: &mut Writer,
) -> Result<(), Halt>
    requires id { id < length bound.now.nodes }
    requires below { AreBelow id ids.now }
    ensures { OnOk result (Adds out.old out.new (tokens_of (array (in_order_json
        (parts_at (faces bound.now.nodes bound.now.shapes) [] ids.now) (all_seen values.now))))) }
{
    out.begin_array()?;
    for i in 0..ids.len().min(values.len()) {
        print(alloc, bound, ids[i], &values[i], out)?;
    }
    out.end_array()?;
    Ok(())
}

/// Writes a list. What its structs are is looked up once.
#[cycle(print)]
#[tactic(auto, using(crate::proofs::Adding::adding))]
fn items(
    alloc: Global,
    bound: &Bound,
    id: NodeId,
    item: NodeId,
    values: &Values,
    out: &mut Writer,
) -> Result<(), Halt>
    requires id { id < length bound.now.nodes }
    requires below { item < id }
    ensures { OnOk result (Adds out.old out.new (tokens_of (array (items_json
        (json_of (face_at bound.now.nodes bound.now.shapes item)) (all_seen values.now))))) }
{
    let Some((node, shape)) = bound.part(item) else {
        unreachable!()
    };
    if let Node::Group(ids) = node {
        if let Shape::FieldNames(names) = shape {
            return structs(alloc, bound, item, ids, names, values, out);
        }
    }
    each(alloc, bound, id, item, values, out)
}

/// Writes the values of a list, one after the other.
#[cycle(print)]
#[tactic(auto, using(crate::proofs::Adding::adding))]
fn each(
    alloc: Global,
    bound: &Bound,
    id: NodeId,
    item: NodeId,
    values: &Values,
    out: &mut Writer,
) -> Result<(), Halt>
    requires id { id < length bound.now.nodes }
    requires below { item < id }
    ensures { OnOk result (Adds out.old out.new (tokens_of (array (items_json
        (json_of (face_at bound.now.nodes bound.now.shapes item)) (all_seen values.now))))) }
{
    out.begin_array()?;
    for value in values.as_slice() {
        print(alloc, bound, item, value, out)?;
    }
    out.end_array()?;
    Ok(())
}

/// Writes structs of one kind.
#[cycle(print)]
#[tactic(auto, using(crate::proofs::Adding::adding))]
fn structs(
    alloc: Global,
    bound: &Bound,
    id: NodeId,
    ids: &NodeIds,
    names: &FieldTable,
    values: &Values,
    out: &mut Writer,
) -> Result<(), Halt>
    requires id { id < length bound.now.nodes }
    requires below { AreBelow id ids.now }
    requires named { length names.now ≡ length ids.now }
    ensures { OnOk result (Adds out.old out.new (tokens_of (array (items_json
        (json_of (members (parts_at (faces bound.now.nodes bound.now.shapes) names.now ids.now)))
        (all_seen values.now))))) }
{
    out.begin_array()?;
    for value in values.as_slice() {
        match value.as_group() {
            Some(fields) => named(alloc, bound, id, ids, names, fields, out)?,
            None => return Err(Halt::Fallback),
        }
    }
    out.end_array()?;
    Ok(())
}

/// Writes the object of a tag and of the value of its arm.
#[cycle(print)]
#[tactic(auto, using(crate::proofs::Adding::adding))]
fn choice(
    alloc: Global,
    bound: &Bound,
    id: NodeId,
    tag: &Tag,
    shape: &Shape,
    arms: &Arms,
    other: Option<NodeId>,
    n: &i128,
    inner: &Value,
    out: &mut Writer,
) -> Result<(), Halt>
    requires id { id < length bound.now.nodes }
    requires below { ArmsBelow id arms.now }
    requires other { IsBelow id other }
    ensures { OnOk result (Adds out.old out.new (tokens_of (arm_json
        (sign_json (sign_of tag.now shape.now) n.now)
        (after_json (arms_at (faces bound.now.nodes bound.now.shapes) arms.now other) n.now
        (seen inner.now))))) }
{
    out.begin_object()?;
    out.key("tag")?;
    put_sign(alloc, tag, shape, n, out)?;
    out.key("value")?;
    arm(alloc, bound, id, arms, other, n, inner, out)?;
    out.end_object()?;
    Ok(())
}

/// Writes the value of the number's arm.
#[cycle(print)]
#[tactic(auto, using(crate::proofs::Adding::adding, crate::proofs::Arms::arms_written))]
fn arm(
    alloc: Global,
    bound: &Bound,
    id: NodeId,
    arms: &Arms,
    other: Option<NodeId>,
    n: &i128,
    inner: &Value,
    out: &mut Writer,
) -> Result<(), Halt>
    requires id { id < length bound.now.nodes }
    requires below { ArmsBelow id arms.now }
    requires other { IsBelow id other }
    ensures { OnOk result (Adds out.old out.new (tokens_of (after_json
        (arms_at (faces bound.now.nodes bound.now.shapes) arms.now other) n.now (seen inner.now)))) }
{
    match arm_of(arms, other, n) {
        Some(item) => print(alloc, bound, item, inner, out),
        None => Err(Halt::Fallback),
    }
}
