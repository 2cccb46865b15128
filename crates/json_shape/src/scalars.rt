//! Numbers and items of enums.

ghost use Rattle.mint.specs.declared.kind.Kind.TheVariants as kind;
ghost use Rattle.serde_json.specs.View.{view};
ghost use Rattle.pres.specs.Faces.{items_in, sign_of, item};
ghost use Rattle.json_shape.specs.Gives.{Gives};
ghost use Rattle.json_shape.specs.Scalars.{number_in, number_named, sign_in, whole_in};

use crate::errors::ShapeErr;
use crate::texts::octets_in;
use mint::kind::Kind;
use mint::node::Tag;
use pres::{ItemTable, Shape};
use serde_json::Value as Json;
use std::alloc::Global;

/// The number of a kind that the JSON is.
pub(crate) fn number(alloc: Global, kind: Kind, json: &Json) -> Result<i128, ShapeErr>
    ensures { Gives (λ n. n) result (number_in kind (view json.now)) }
{
    match kind {
        Kind::Bool => truth(json),
        Kind::Char => letter(alloc, json),
        _ => whole(kind, json),
    }
}

/// 0 from false, and 1 from true.
fn truth(json: &Json) -> Result<i128, ShapeErr>
    ensures { Gives (λ n. n) result (number_in kind.Bool (view json.now)) }
{
    match json.as_bool() {
        Some(true) => Ok(1),
        Some(false) => Ok(0),
        None => Err(ShapeErr::Shape),
    }
}

fn letter(alloc: Global, json: &Json) -> Result<i128, ShapeErr>
    ensures { Gives (λ n. n) result (number_in kind.Char (view json.now)) }
{
    let octets = octets_in(alloc, json)?;
    match octets.as_slice() {
        [octet] => Ok(i128::from(*octet)),
        _ => Err(ShapeErr::Shape),
    }
}

/// A whole number in the range of a kind.
fn whole(kind: Kind, json: &Json) -> Result<i128, ShapeErr>
    ensures { Gives (λ n. n) result (whole_in kind (view json.now)) }
{
    let Some(number) = json.as_number() else {
        return Err(ShapeErr::Shape);
    };
    match number.as_i128() {
        Some(n) if kind.has(n) => Ok(n),
        _ => Err(ShapeErr::Shape),
    }
}

/// The number of the item that the JSON names.
pub(crate) fn item(shape: &Shape, json: &Json) -> Result<i128, ShapeErr>
    ensures { Gives (λ n. n) result (sign_in (item (items_in shape.now)) (view json.now)) }
{
    match json.as_str() {
        Some(text) => number_named(shape, text),
        None => Err(ShapeErr::Shape),
    }
}

/// The number of the item that a string names.
pub(crate) fn number_named(shape: &Shape, text: &str) -> Result<i128, ShapeErr>
    ensures { Gives (λ n. n) result (number_named (items_in shape.now) text.now) }
{
    match shape {
        Shape::LabelNames(items) => number_among(items, text),
        _ => Err(ShapeErr::Shape),
    }
}

/// The number of the first of the items with a name.
fn number_among(items: &ItemTable, text: &str) -> Result<i128, ShapeErr>
    ensures { Gives (λ n. n) result (number_named items.now text.now) }
{
    match items.number(text) {
        Some(n) => Ok(n),
        None => Err(ShapeErr::Shape),
    }
}

/// The number that the JSON is for a tag.
pub(crate) fn sign(alloc: Global, tag: &Tag, shape: &Shape, json: &Json) -> Result<i128, ShapeErr>
    ensures { Gives (λ n. n) result (sign_in (sign_of tag.now shape.now) (view json.now)) }
{
    match tag {
        Tag::Num(kind) => number(alloc, *kind, json),
        Tag::Enum(_) => item(shape, json),
    }
}
