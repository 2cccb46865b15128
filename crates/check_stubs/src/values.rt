//! Values.

use crate::nodes::kind_of;
use check_rows::{Bad, list, member, number, octets, part};
use mint::kind::Kind;
use mint::row::Row;
use mint::value::{Value, Values};
use serde_json::Value as Json;
use std::alloc::Global;

/// How deep values are nested at most.
const DEEPEST: u32 = 40;

/// A row of numbers.
fn numbers(alloc: Global, kind: Kind, json: &Json) -> Result<Value, Bad> {
    let mut row = Row::new(alloc, kind);
    for json in list(json)? {
        let n = number(json)?;
        if !row.kind().has(n) {
            return Err(Bad::Row("no number of the kind"));
        }
        row.push(n)?;
    }
    Ok(Value::Row(row))
}

/// A row of the numbers of an image.
fn image(alloc: Global, kind: Kind, image: &[u8]) -> Result<Value, Bad> {
    let mut row = Row::new(alloc, kind);
    if kind == Kind::Bool || image.len() % kind.width() != 0 {
        return Err(Bad::Row("no image of the kind"));
    }
    row.append_image(image)?;
    Ok(Value::Row(row))
}

/// `{"row": KIND, "of": NUMBERS}` or `{"row": KIND, "image": DIGITS}`.
fn row_of(alloc: Global, kind: Kind, json: &Json) -> Result<Value, Bad> {
    match json.get("image") {
        Some(digits) => image(alloc, kind, octets(alloc, digits)?.as_slice()),
        None => numbers(alloc, kind, member(json, "of")?),
    }
}

/// A value.
pub fn value_of(alloc: Global, json: &Json) -> Result<Value, Bad> {
    made(alloc, DEEPEST, json)
}

#[cycle(made)]
fn made(alloc: Global, levels: u32, json: &Json) -> Result<Value, Bad> {
    if levels == 0 {
        return Err(Bad::Row("a value is too deep"));
    }
    if json.is_null() {
        return Ok(Value::Void);
    }
    if let Some(fields) = json.get("group") {
        return Ok(Value::Group(all(alloc, levels - 1, fields)?));
    }
    if let Some(items) = json.get("items") {
        return Ok(Value::Items(all(alloc, levels - 1, items)?));
    }
    if let Some(arm) = json.get("arm") {
        let inner = made(alloc, levels - 1, part(arm, 1)?)?;
        return Ok(Value::arm(alloc, number(part(arm, 0)?)?, inner)?);
    }
    if let Some(inner) = json.get("opt") {
        return maybe(alloc, levels - 1, inner);
    }
    if let Some(kind) = json.get("row") {
        return row_of(alloc, kind_of(kind)?, json);
    }
    Ok(Value::Num(number(json)?))
}

/// The value that may be there: null, or an array of it.
#[cycle(made)]
fn maybe(alloc: Global, levels: u32, json: &Json) -> Result<Value, Bad> {
    match json.get(0usize) {
        Some(inner) => Ok(Value::present(alloc, made(alloc, levels, inner)?)?),
        None => Ok(Value::Opt(None)),
    }
}

#[cycle(made)]
fn all(alloc: Global, levels: u32, json: &Json) -> Result<Values, Bad> {
    let mut values = Values::new(alloc);
    for json in list(json)? {
        values.push(made(alloc, levels, json)?)?;
    }
    Ok(values)
}
