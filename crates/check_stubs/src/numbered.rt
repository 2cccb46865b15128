//! Values that a number makes.

ghost use Rattle.std.specs.Prelude.{◌<◌, length};

use crate::asks::{encoding, id_of};
use crate::nodes::table_of;
use case_make::make_value;
use check_rows::{Bad, member};
use hex::encode;
use kit_base::Octets;
use mint::table::{Mint, NodeId};
use plain_wire::plain_send;
use serde_json::Value as Json;
use std::alloc::Global;
use wire_def::Encoding;

/// The number of a case, of 64 bits.
fn number_of(row: &Json) -> Result<u64, Bad> {
    match member(row, "number")?.as_u64() {
        Some(number) => Ok(number),
        None => Err(Bad::Row("no number of 64 bits")),
    }
}

/// The octets of the value of a node that a number makes.
fn made_octets(
    alloc: Global,
    enc: Encoding,
    table: &Mint,
    id: NodeId,
    number: u64,
) -> Result<String, Bad>
    requires { id < length table.now }
{
    let value = make_value(alloc, number, table, id)?;
    let mut out = Octets::new(alloc);
    plain_send(enc, table, id, 0, &value, &mut out)?;
    Ok(encode(alloc, out.as_slice())?)
}

/// The octets of the value that a case's number makes of its node.
pub fn made_of_number(alloc: Global, row: &Json) -> Result<String, Bad> {
    let enc = encoding(row)?;
    let number = number_of(row)?;
    let table = table_of(alloc, row)?;
    let id = id_of(row, &table)?;
    made_octets(alloc, enc, &table, id, number)
}
