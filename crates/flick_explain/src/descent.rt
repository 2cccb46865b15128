//! One step towards the first misfit: into the part that does not fit, or what is wanted of the whole.

use crate::scalars::{
    count_wanted, item_wanted, kind_wanted, number_of, row_wanted, string_wanted, tag_of,
    tag_wanted,
};
use crate::text::{shown, text_of};
use json_shape::{ShapeErr, to_value};
use kit_base::NoMemory;
use mint::kind::{Count, Kind};
use mint::node::{Arms, Node, NodeIds, Tag, arm_of};
use mint::table::NodeId;
use pres::{Bound, FieldTable, Shape};
use serde_json::Value as Json;
use std::alloc::Global;

/// A step towards the first misfit.
#[derive(Drop)]
pub enum Step<'a> {
    /// Into a part: its piece of the path, its node, its JSON.
    Into(String, NodeId, &'a Json),
    /// It is here: the last piece of the path, and what is wanted.
    Here(String, String),
}

/// A step at a node that does not fit.
pub fn step_at<'a>(
    alloc: Global,
    bound: &Bound,
    id: NodeId,
    json: &'a Json,
) -> Result<Step<'a>, NoMemory> {
    let Some((node, shape)) = bound.part(id) else {
        return here(alloc, text_of(alloc, "a value is wanted")?);
    };
    match node {
        Node::Void => here(alloc, text_of(alloc, "null, or nothing, is wanted")?),
        Node::Num(kind) => here(alloc, kind_wanted(alloc, *kind)?),
        Node::Enum(_) => here(alloc, item_wanted(alloc, shape)?),
        Node::Text(size) => here(alloc, string_wanted(alloc, json, *size)?),
        Node::Row(kind, size) => row(alloc, *kind, *size, json),
        Node::Group(ids) => group(alloc, bound, ids, shape, json),
        Node::Items(item, size) => items(alloc, bound, *item, *size, json),
        Node::Choice(tag, arms, other) => choice(alloc, tag, shape, arms, *other, json),
        Node::Maybe(item) => maybe(alloc, *item, json),
    }
}

/// What is wanted of the whole.
fn here<'a>(alloc: Global, wanted: String) -> Result<Step<'a>, NoMemory> {
    Ok(Step::Here(String::new(alloc), wanted))
}

/// Whether the JSON presents a value of a node.
pub fn fits(alloc: Global, bound: &Bound, id: NodeId, json: &Json) -> Result<bool, NoMemory> {
    if id as usize >= bound.mint().len() {
        return Ok(false);
    }
    match to_value(alloc, bound, id, json) {
        Ok(_) => Ok(true),
        Err(ShapeErr::Shape) => Ok(false),
        Err(ShapeErr::NoMemory) => Err(NoMemory),
    }
}

/// A row of numbers: the first that does not fit, or the row.
fn row<'a>(alloc: Global, kind: Kind, size: Count, json: &Json) -> Result<Step<'a>, NoMemory> {
    if let (true, Some(list)) = (has_elements(kind), json.as_array()) {
        for (i, element) in list.iter().enumerate() {
            if number_of(kind, element).is_none() {
                let piece = format!(in alloc; "[{i}]")?;
                return Ok(Step::Here(piece, kind_wanted(alloc, kind)?));
            }
        }
    }
    here(alloc, row_wanted(alloc, kind, json, size)?)
}

/// Whether a row of the kind is an array in JSON.
fn has_elements(kind: Kind) -> bool {
    kind != Kind::Octet && kind != Kind::Char
}

/// A struct by its fields, or arguments in order.
fn group<'a>(
    alloc: Global,
    bound: &Bound,
    ids: &NodeIds,
    shape: &Shape,
    json: &'a Json,
) -> Result<Step<'a>, NoMemory> {
    match shape {
        Shape::FieldNames(names) => fields(alloc, bound, ids, names, json),
        _ => arguments(alloc, bound, ids, json),
    }
}

/// The first field that is missing or does not fit.
fn fields<'a>(
    alloc: Global,
    bound: &Bound,
    ids: &NodeIds,
    names: &FieldTable,
    json: &'a Json,
) -> Result<Step<'a>, NoMemory> {
    let Some(object) = json.as_object() else {
        return here(
            alloc,
            format!(in alloc; "an object of {} fields is wanted", ids.len())?,
        );
    };
    for (i, id) in ids.as_slice().iter().enumerate() {
        let name = shown(alloc, word_at(names, i))?;
        let Some(part) = json.get(name.as_str()) else {
            return here(alloc, format!(in alloc; "the field '{name}' is missing")?);
        };
        if !fits(alloc, bound, *id, part)? {
            return Ok(Step::Into(format!(in alloc; ".{name}")?, *id, part));
        }
    }
    let count = format!(in alloc; "{} fields, {} wanted", object.len(), ids.len())?;
    here(alloc, count)
}

/// The word at a place.
pub fn word_at(words: &FieldTable, i: usize) -> &[u8] {
    if i < words.len() { words.name(i) } else { &[] }
}

/// The first argument that does not fit, or how many are wanted.
fn arguments<'a>(
    alloc: Global,
    bound: &Bound,
    ids: &NodeIds,
    json: &'a Json,
) -> Result<Step<'a>, NoMemory> {
    let Some(list) = json.as_array() else {
        return here(alloc, text_of(alloc, "an array is wanted")?);
    };
    if list.len() != ids.len() {
        let count = format!(in alloc; "{} arguments, {} wanted", list.len(), ids.len())?;
        return here(alloc, count);
    }
    for (i, id) in ids.as_slice().iter().enumerate() {
        let Some(part) = list.get(i) else {
            return here(alloc, text_of(alloc, "an argument is missing")?);
        };
        if !fits(alloc, bound, *id, part)? {
            return Ok(Step::Into(format!(in alloc; "[{i}]")?, *id, part));
        }
    }
    here(alloc, text_of(alloc, "all arguments fit")?)
}

/// The first element that does not fit, or how many are wanted.
fn items<'a>(
    alloc: Global,
    bound: &Bound,
    item: NodeId,
    size: Count,
    json: &'a Json,
) -> Result<Step<'a>, NoMemory> {
    let Some(list) = json.as_array() else {
        return here(alloc, text_of(alloc, "an array is wanted")?);
    };
    for (i, part) in list.iter().enumerate() {
        if !fits(alloc, bound, item, part)? {
            return Ok(Step::Into(format!(in alloc; "[{i}]")?, item, part));
        }
    }
    here(alloc, count_wanted(alloc, list.len(), "elements", size)?)
}

/// A union: its tag, or the value of its arm.
fn choice<'a>(
    alloc: Global,
    tag: &Tag,
    shape: &Shape,
    arms: &Arms,
    other: Option<NodeId>,
    json: &'a Json,
) -> Result<Step<'a>, NoMemory> {
    let Some(found) = json.get("tag") else {
        return here(
            alloc,
            text_of(alloc, "an object of 'tag' and 'value' is wanted")?,
        );
    };
    let Some(n) = tag_of(tag, shape, found) else {
        let piece = text_of(alloc, ".tag")?;
        return Ok(Step::Here(piece, tag_wanted(alloc, tag, shape)?));
    };
    match (arm_of(arms, other, &n), json.get("value")) {
        (Some(id), Some(part)) => Ok(Step::Into(text_of(alloc, ".value")?, id, part)),
        (Some(_), None) => here(
            alloc,
            text_of(alloc, "the member 'value' is missing, or one is too many")?,
        ),
        (None, _) => here(
            alloc,
            format!(in alloc; "no case of the union has the tag {n}")?,
        ),
    }
}

/// An optional value: an array of none or one.
fn maybe<'a>(alloc: Global, item: NodeId, json: &'a Json) -> Result<Step<'a>, NoMemory> {
    let Some(list) = json.as_array() else {
        return here(
            alloc,
            text_of(alloc, "[] or an array of one value is wanted")?,
        );
    };
    match list.as_slice() {
        [part] => Ok(Step::Into(text_of(alloc, "[0]")?, item, part)),
        _ => here(
            alloc,
            format!(in alloc; "{} values, at most 1", list.len())?,
        ),
    }
}
