//! Texts and rows of numbers.

ghost use Rattle.std.specs.Prelude.{◌≡◌, IfOk, map, pos};
ghost use Rattle.mint.specs.declared.kind.Kind.TheVariants as kind;
ghost use Rattle.mint.specs.Kinds.{above};
ghost use Rattle.serde_json.specs.View.{view, items_view};
ghost use Rattle.json_shape.specs.Gives.{GivesRow};
ghost use Rattle.json_shape.specs.Scalars.{row_in, each_in};
ghost use Rattle.json_shape.specs.Texts.{octets_in};

use crate::errors::ShapeErr;
use crate::scalars::number;
use crate::texts::{hex_in, octets_in};
use kit_base::NoMemory;
use mint::kind::Kind;
use mint::row::Row;
use serde_json::Value as Json;
use std::alloc::Global;

/// The text that the JSON is.
pub(crate) fn text(alloc: Global, json: &Json) -> Result<Row, ShapeErr>
    ensures { GivesRow kind.Char result (row_in kind.Char (view json.now)) }
{
    let octets = octets_in(alloc, json)?;
    Ok(block(alloc, Kind::Char, octets.as_slice())?)
}

/// The row that the JSON is.
pub(crate) fn row(alloc: Global, kind: Kind, json: &Json) -> Result<Row, ShapeErr>
    ensures { GivesRow kind result (row_in kind (view json.now)) }
{
    match kind {
        Kind::Octet => octets(alloc, json),
        Kind::Char => text(alloc, json),
        _ => match json.as_array() {
            Some(list) => numbers(alloc, kind, list.as_slice()),
            None => Err(ShapeErr::Shape),
        },
    }
}

/// The row of octets that a string has in hexadecimal digits.
fn octets(alloc: Global, json: &Json) -> Result<Row, ShapeErr>
    ensures { GivesRow kind.Octet result (row_in kind.Octet (view json.now)) }
{
    let octets = hex_in(alloc, json)?;
    Ok(block(alloc, Kind::Octet, octets.as_slice())?)
}

/// The row of these octets, as one block.
#[tactic(auto, using(crate::proofs::Blocks::blocks))]
pub(crate) fn block(alloc: Global, kind: Kind, octets: &[u8]) -> Result<Row, NoMemory>
    requires { above kind ≡ 256 }
    ensures { IfOk result (λ r. r ≡ record { kind = kind; numbers = map pos octets.now }) }
{
    let mut row = Row::new(alloc, kind);
    row.append_image(octets)?;
    Ok(row)
}

/// The row of the numbers of an array.
fn numbers(alloc: Global, kind: Kind, list: &[Json]) -> Result<Row, ShapeErr>
    ensures { GivesRow kind result (each_in kind (items_view list.now)) }
{
    let mut row = Row::new(alloc, kind);
    for json in list {
        row.push(number(alloc, kind, json)?)?;
    }
    Ok(row)
}
