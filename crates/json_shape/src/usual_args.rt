//! The arguments of request records, from tokens of text in the usual form.

ghost use Rattle.std.specs.Prelude.{◌≡◌, ◌∷◌, ◌<◌, Some, length, IfOk, OnOk};
ghost use Rattle.json.specs.Json.{array, no_items};
ghost use Rattle.mint.specs.Typed.{IsWellTyped};
ghost use Rattle.mint.specs.Types.{type_at};
ghost use Rattle.mint.specs.Values.{seen};
ghost use Rattle.pres.specs.Faces.{face_at, type_of};
ghost use Rattle.serde_json.specs.Data.{array as empty, no_items as no_trees};
ghost use Rattle.json_shape.specs.Reading.{value_of};
ghost use Rattle.json_shape.specs.Usual.{key_token, AreValues, ArgsTaken, ArrayTaken, IsPresented, Reads};

use crate::errors::Halt;
use crate::usual::unnamed;
use crate::usual_tokens::{end_members, is_end, is_key};
use json::Reader;
use mint::fits::fits;
use mint::node::Node;
use mint::table::NodeId;
use mint::value::{Value, Values};
use pres::{Bound, Shape};
use std::alloc::Global;

/// The levels of the deepest JSON within a record.
pub(crate) const DEEPEST: usize = 126;

/// The value of the arguments, where their key is the one that was taken, or of none at the end of the object.
pub(crate) fn args_at(
    alloc: Global,
    bound: &Bound,
    id: NodeId,
    taken: Option<&str>,
    reader: &mut Reader<'_>,
) -> Result<Value, Halt>
    requires { id < length bound.now.nodes }
    ensures value { IfOk result (λ v. ArgsTaken 126 (key_token taken.entry ∷ reader.old) reader.new
        (face_at bound.now.nodes bound.now.shapes id) (seen v)) }
    ensures typed { IfOk result (λ v. IsWellTyped (type_at bound.now.nodes id) (seen v)) }
{
    if is_end(taken) {
        let none = no_args(alloc, bound, id)?;
        return Ok(none);
    }
    if !is_key(taken, "args") {
        return Err(Halt::Fallback);
    }
    let value = array_next(alloc, bound, id, reader)?;
    end_members(reader)?;
    Ok(value)
}

/// The value that an empty array presents for a node.
fn no_args(alloc: Global, bound: &Bound, id: NodeId) -> Result<Value, Halt>
    requires { id < length bound.now.nodes }
    ensures value { IfOk result (λ v. IsPresented (array no_items)
        (face_at bound.now.nodes bound.now.shapes id) (seen v)) }
    ensures typed { IfOk result (λ v. IsWellTyped (type_at bound.now.nodes id) (seen v)) }
{
    let value = none_listed(alloc, bound, id)?;
    if fits(bound.mint(), id, &value) {
        Ok(value)
    } else {
        Err(Halt::Fallback)
    }
}

/// The value that an empty array shows for a node.
#[tactic(auto, unfolding(crate::specs::Reading::value_of))]
fn none_listed(alloc: Global, bound: &Bound, id: NodeId) -> Result<Value, Halt>
    requires { id < length bound.now.nodes }
    ensures value { IfOk result (λ v. value_of (face_at bound.now.nodes bound.now.shapes id)
        (empty no_trees) ≡ Some (seen v)) }
    ensures typed { type_at bound.now.nodes id ≡ type_of (face_at bound.now.nodes bound.now.shapes id) }
{
    let Some((node, shape)) = bound.part(id) else {
        unreachable!()
    };
    match (node, shape) {
        (Node::Group(ids), Shape::Plain) if ids.len() == 0 => Ok(Value::Group(Values::new(alloc))),
        _ => Err(Halt::Fallback),
    }
}

/// The value that the next array presents for a node.
pub(crate) fn array_next(
    alloc: Global,
    bound: &Bound,
    id: NodeId,
    reader: &mut Reader<'_>,
) -> Result<Value, Halt>
    requires { id < length bound.now.nodes }
    ensures value { IfOk result (λ v. ArrayTaken 126 reader.old reader.new
        (face_at bound.now.nodes bound.now.shapes id) (seen v)) }
    ensures typed { IfOk result (λ v. IsWellTyped (type_at bound.now.nodes id) (seen v)) }
{
    let value = listed(alloc, bound, id, reader)?;
    if fits(bound.mint(), id, &value) {
        Ok(value)
    } else {
        Err(Halt::Fallback)
    }
}

/// The value that the next array shows for a node of values without names.
fn listed(alloc: Global, bound: &Bound, id: NodeId, reader: &mut Reader<'_>) -> Result<Value, Halt>
    requires { id < length bound.now.nodes }
    ensures value { IfOk result (λ v. Reads 126 reader.old reader.new
        (value_of (face_at bound.now.nodes bound.now.shapes id)) (seen v)) }
    ensures listed { OnOk result (AreValues (face_at bound.now.nodes bound.now.shapes id)) }
    ensures typed { type_at bound.now.nodes id ≡ type_of (face_at bound.now.nodes bound.now.shapes id) }
{
    let Some((node, shape)) = bound.part(id) else {
        unreachable!()
    };
    match (node, shape) {
        (Node::Group(ids), Shape::Plain) => unnamed(alloc, bound, id, ids, DEEPEST, reader),
        _ => Err(Halt::Fallback),
    }
}
