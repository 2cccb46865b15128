//! What is asked of the nodes of a case.

ghost use Rattle.std.specs.Prelude.{◌<◌, ◌≤◌, length, IfOk};
ghost use Rattle.kit_base.specs.Limits.{longest_message};

use crate::codes::stub;
use crate::heads::{refused, reply};
use crate::nodes::{Made, build, table_of};
use crate::numbered::made_of_number;
use crate::printed::text;
use crate::received::received_case;
use crate::swaps::swapped;
use crate::values::value_of;
use check_rows::{Answers, Bad, member, octets, reported, word};
use hex::encode;
use kit_base::Octets;
use kit_base::limits::LONGEST_MESSAGE;
use mint::blank_value::blank;
use mint::copying::copy_value;
use mint::fits::fits;
use mint::table::{Mint, NodeId};
use mint::value::Value;
use plain_wire::{Read, plain_read, plain_send};
use serde_json::Value as Json;
use std::alloc::Global;
use storage_class::classify;
use wire_def::Encoding;

/// The answer to a case about a head, by what is asked.
fn head_answer(alloc: Global, row: &Json, ask: &str) -> Result<String, Bad> {
    match ask {
        "reply" => reply(alloc, row),
        "refuse" => refused(alloc, member(row, "why")?),
        _ => Err(Bad::Row("nothing is asked")),
    }
}

/// The answer to a case about stub code, or about a head, by what is asked.
fn code_answer(alloc: Global, row: &Json, ask: &str) -> Result<String, Bad> {
    match ask {
        "stub" => stub(alloc, row, false),
        "rows" => stub(alloc, row, true),
        "receive" => received_case(alloc, row),
        "text" => text(alloc, row),
        _ => head_answer(alloc, row, ask),
    }
}

/// The answer to a case, by what is asked.
fn answer_to(alloc: Global, row: &Json, ask: &str) -> Result<String, Bad> {
    match ask {
        "add" => add(alloc, row),
        "fits" => is_of(alloc, row),
        "send" => send(alloc, row),
        "read" => read(alloc, row),
        "span" => span(alloc, row),
        "swapped" => swapped(alloc, row),
        "make" => made_of_number(alloc, row),
        _ => code_answer(alloc, row, ask),
    }
}

/// The cases of values, octets and stub code.
pub struct Cases;

impl Answers for Cases {
    fn answer(alloc: Global, row: &Json) -> Result<String, Bad> {
        match member(row, "ask")?.as_str() {
            Some(ask) => answer_to(alloc, row, ask),
            None => Err(Bad::Row("nothing is asked")),
        }
    }
}

/// How the values of a case are laid out.
pub fn encoding(row: &Json) -> Result<Encoding, Bad> {
    match member(row, "in")?.as_str() {
        Some("xdr") => Ok(Encoding::Xdr),
        Some("cdr_big") => Ok(Encoding::CdrBig),
        Some("cdr_little") => Ok(Encoding::CdrLittle),
        Some("mach") => Ok(Encoding::Mach),
        _ => Err(Bad::Row("no encoding")),
    }
}

/// The node of a case: the one that `id` names, or the last.
pub fn id_of(row: &Json, table: &Mint) -> Result<NodeId, Bad>
    ensures { IfOk result (λ id. id < length table.now) }
{
    let id = match row.get("id") {
        Some(id) => word(id)?,
        None => (table.len() as NodeId).wrapping_sub(1),
    };
    if (id as usize) < table.len() {
        Ok(id)
    } else {
        Err(Bad::Row("no such node"))
    }
}

/// The value of a case: `value`, or the blank one.
pub fn value_at(alloc: Global, row: &Json, table: &Mint, id: NodeId) -> Result<Value, Bad>
    requires { id < length table.now }
{
    match row.get("value") {
        Some(json) => value_of(alloc, json),
        None => Ok(blank(alloc, table, id)?),
    }
}

/// The position at which a value begins, 0 where none is given.
pub fn place_of(row: &Json) -> Result<usize, Bad>
    ensures { IfOk result (λ at. at ≤ longest_message) }
{
    let at = match row.get("at") {
        Some(at) => word(at)?,
        None => 0,
    };
    if at as usize <= LONGEST_MESSAGE {
        Ok(at as usize)
    } else {
        Err(Bad::Row("no place in a message"))
    }
}

/// How many nodes the table has, or which was refused.
fn add(alloc: Global, row: &Json) -> Result<String, Bad> {
    match build(alloc, row)? {
        Made::Table(table) => Ok(format!(in alloc; "taken {}", table.len())?),
        Made::Refused(error, place) => Ok(format!(in alloc; "{error:?} {place}")?),
    }
}

/// Whether the value is of the node's type.
fn is_of(alloc: Global, row: &Json) -> Result<String, Bad> {
    let table = table_of(alloc, row)?;
    let id = id_of(row, &table)?;
    let value = value_at(alloc, row, &table, id)?;
    reported(
        alloc,
        if fits(&table, id, &value) {
            "yes"
        } else {
            "no"
        },
    )
}

/// The octets of a copy of the value, by the plain walk.
fn send(alloc: Global, row: &Json) -> Result<String, Bad> {
    let enc = encoding(row)?;
    let at = place_of(row)?;
    let table = table_of(alloc, row)?;
    let id = id_of(row, &table)?;
    let value = value_at(alloc, row, &table, id)?;
    if !fits(&table, id, &value) {
        return reported(alloc, "no value");
    }
    let copy = copy_value(alloc, &value)?;
    let mut out = Octets::new(alloc);
    plain_send(enc, &table, id, at, &copy, &mut out)?;
    Ok(encode(alloc, out.as_slice())?)
}

/// How many octets a value took and what it is sent as from the same position, or the first fault.
fn read(alloc: Global, row: &Json) -> Result<String, Bad> {
    let enc = encoding(row)?;
    let at = place_of(row)?;
    let table = table_of(alloc, row)?;
    let id = id_of(row, &table)?;
    let message = octets(alloc, member(row, "octets")?)?;
    if at > message.len() || message.len() > LONGEST_MESSAGE {
        return Err(Bad::Row("no place in the message"));
    }
    match plain_read(alloc, enc, &table, id, at, message.as_slice())? {
        Read::Stop(fault) => Ok(format!(in alloc; "{:?} {}", fault.kind, fault.at)?),
        Read::Value(value, used) => {
            if !fits(&table, id, &value) {
                return reported(alloc, "no value");
            }
            let mut out = Octets::new(alloc);
            plain_send(enc, &table, id, at, &value, &mut out)?;
            let digits = encode(alloc, out.as_slice())?;
            Ok(format!(in alloc; "{used} {digits}")?)
        }
    }
}

/// How long what is sent of the node is.
fn span(alloc: Global, row: &Json) -> Result<String, Bad> {
    let enc = encoding(row)?;
    let table = table_of(alloc, row)?;
    let id = id_of(row, &table)?;
    let classes = classify(alloc, enc, &table)?;
    Ok(format!(in alloc; "{:?}", classes.max(id))?)
}
