//! Numbers, items, texts and rows as JSON.

ghost use Rattle.std.specs.Prelude.{◌≡◌, [], ◌∷◌, true, IfOk};
ghost use Rattle.hex.specs.Hex.{encode_lower};
ghost use Rattle.mint.specs.Kinds.{in_range};
ghost use Rattle.pres.specs.Faces.{items_in, sign_of, item};
ghost use Rattle.serde_json.specs.Data.{array, string, number};
ghost use Rattle.serde_json.specs.Find.{of_integer};
ghost use Rattle.serde_json.specs.View.{view};
ghost use Rattle.json_shape.specs.Texts.{text_of};
ghost use Rattle.json_shape.specs.Written.{number_json, sign_json, row_json, each_json, letters};

use crate::texts::text_of;
use kit_base::NoMemory;
use mint::kind::Kind;
use mint::node::Tag;
use mint::row::Row;
use pres::{ItemTable, Shape};
use serde_json::{Number, Value as Json};
use std::alloc::Global;

/// The JSON of a number of a kind.
pub(crate) fn number_json(alloc: Global, kind: Kind, n: &i128) -> Result<Json, NoMemory>
    ensures { IfOk result (λ j. view j ≡ number_json kind n.now) }
{
    if !kind.has(*n) {
        return Ok(Json::Null);
    }
    match kind {
        Kind::Bool => Ok(Json::Bool(*n != 0)),
        Kind::Char => letter(alloc, n),
        _ => Ok(whole(kind, n)),
    }
}

/// The string of one character.
fn letter(alloc: Global, n: &i128) -> Result<Json, NoMemory>
    requires { in_range Kind.Char n.now ≡ true }
    ensures { IfOk result (λ j. view j ≡ letters (n.now ∷ [])) }
{
    let octet = *n as u8;
    string(alloc, &[octet])
}

/// The string of the octets.
pub(crate) fn string(alloc: Global, octets: &[u8]) -> Result<Json, NoMemory>
    ensures { IfOk result (λ j. view j ≡ string (text_of octets.now)) }
{
    Ok(Json::String(text_of(alloc, octets)?))
}

/// A whole number.
fn whole(kind: Kind, n: &i128) -> Json
    requires { in_range kind n.now ≡ true }
    ensures { view result ≡ number (of_integer n.now) }
{
    match Number::from_i128(*n) {
        Some(number) => Json::Number(number),
        None => unreachable!(),
    }
}

/// The name of the first item with a number.
pub(crate) fn item_json(alloc: Global, shape: &Shape, n: &i128) -> Result<Json, NoMemory>
    ensures { IfOk result (λ j. view j ≡ sign_json (item (items_in shape.now)) n.now) }
{
    match shape {
        Shape::LabelNames(items) => name_json(alloc, items, n),
        _ => string(alloc, &[]),
    }
}

/// The name of the first of the items with a number; empty where none has it.
#[tactic(auto, using(crate::proofs::Texted::texted))]
fn name_json(alloc: Global, items: &ItemTable, n: &i128) -> Result<Json, NoMemory>
    ensures { IfOk result (λ j. view j ≡ sign_json (item items.now) n.now) }
{
    match items.text(n) {
        Some(text) => Ok(Json::try_from_str(alloc, text)?),
        None => string(alloc, &[]),
    }
}

/// The JSON of a tag.
pub(crate) fn sign_json(alloc: Global, tag: &Tag, shape: &Shape, n: &i128) -> Result<Json, NoMemory>
    ensures { IfOk result (λ j. view j ≡ sign_json (sign_of tag.now shape.now) n.now) }
{
    match tag {
        Tag::Num(kind) => number_json(alloc, *kind, n),
        Tag::Enum(_) => item_json(alloc, shape, n),
    }
}

/// The JSON of a text or a row.
pub(crate) fn row_json(alloc: Global, row: &Row) -> Result<Json, NoMemory>
    ensures { IfOk result (λ j. view j ≡ row_json row.now.kind row.now.numbers) }
{
    match row.kind() {
        Kind::Octet => hexadecimal(alloc, row.image()),
        Kind::Char => string(alloc, row.image()),
        kind => numbers(alloc, kind, row),
    }
}

/// The string of octets in hexadecimal digits, the letters in lower case.
fn hexadecimal(alloc: Global, octets: &[u8]) -> Result<Json, NoMemory>
    ensures { IfOk result (λ j. view j ≡ string (encode_lower octets.now)) }
{
    Ok(Json::String(kit_digits::encode(alloc, octets)?))
}

/// The array of a row's numbers.
fn numbers(alloc: Global, kind: Kind, row: &Row) -> Result<Json, NoMemory>
    ensures { IfOk result (λ j. view j ≡ array (each_json kind row.now.numbers)) }
{
    let mut list = Vec::new(alloc);
    for i in 0..row.len() {
        let Some(n) = row.get(i) else { unreachable!() };
        list.push(number_json(alloc, kind, &n)?)?;
    }
    Ok(Json::Array(list))
}
