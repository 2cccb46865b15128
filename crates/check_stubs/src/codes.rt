//! Values sent by stub code: lowered, inlined after a head, with ensures before its operations; and with rows as blocks.

ghost use Rattle.std.specs.Prelude.{◌<◌, length, IfOk};
ghost use Rattle.mint.specs.Typed.{IsWellTyped};
ghost use Rattle.mint.specs.Types.{type_at};
ghost use Rattle.mint.specs.Values.{seen};
ghost use Rattle.storage_class.specs.Spans.{AreClasses};
ghost use Rattle.cast_stub.specs.Meaning.{IsCovered};
ghost use Rattle.check_stubs.specs.Ready.{IsBoth, IsLead};

use crate::asks::{encoding, id_of, value_at};
use crate::lead::{HEAD, answer, call, no_lead};
use crate::nodes::table_of;
use cast_stub::copies::put_copies;
use cast_stub::{SendCode, SendSubs};
use check_rows::{Bad, reported};
use copy_inline::{inline, rows};
use hex::encode;
use hoist::{copy_code, hoist};
use kit_base::NoMemory;
use mint::fits::fits;
use mint::table::{Mint, NodeId};
use mint::value::Value;
use raw_buf::SendBuf;
use serde_json::Value as Json;
use std::alloc::Global;
use storage_class::{Classes, classify};
use stub_lower::lower;
use stub_machine::{SendErr, run_send};

/// The head before a value.
pub fn lead_of(alloc: Global, row: &Json) -> Result<SendCode, Bad>
    ensures { IfOk result IsLead }
{
    let Some(which) = row.get("lead") else {
        return Ok(no_lead(alloc));
    };
    match which.as_str() {
        Some("call") => Ok(call(alloc)?),
        Some("answer") => Ok(answer(alloc)?),
        _ => Err(Bad::Row("no lead")),
    }
}

/// The operations of both, one after the other.
#[tactic(auto, using(cast_stub::proofs::Adding::adding))]
fn both(alloc: Global, lead: SendCode, body: &SendCode) -> Result<SendCode, NoMemory>
    ensures { IfOk result (λ code. IsBoth lead body.now code) }
{
    let mut ops = lead.ops;
    put_copies(alloc, &body.ops, &mut ops)?;
    Ok(SendCode {
        ops,
        subs: SendSubs::new(alloc),
    })
}

/// The code of a message, which is a head and a value of the node; and the same with its rows as blocks.
pub fn message(
    alloc: Global,
    head: SendCode,
    table: &Mint,
    id: NodeId,
    classes: &Classes,
) -> Result<(SendCode, SendCode), NoMemory>
    requires lead { IsLead head }
    requires id { id < length table.now }
    requires classes { AreClasses table.now classes.now }
    ensures first { IfOk result (λ codes. IsCovered (type_at table.now id) 0 codes.0) }
    ensures second { IfOk result (λ codes. IsCovered (type_at table.now id) 0 codes.1) }
{
    table.types_are_sound();
    let enc = classes.enc();
    let subs = lower(alloc, enc, table)?;
    let body = inline(alloc, &subs, id)?;
    let whole = both(alloc, head, &body)?;
    let code = hoist(alloc, whole, table, id, classes)?;
    let same = copy_code(alloc, &code)?;
    let in_rows = rows(alloc, enc, same, table, id)?;
    Ok((code, in_rows))
}

/// The octets of a message, and how often the buffer was looked at; and how many rows were blocks.
fn ran(
    alloc: Global,
    code: &SendCode,
    table: &Mint,
    id: NodeId,
    value: &Value,
) -> Result<(String, u64), Bad>
    requires covered { IsCovered (type_at table.now id) 0 code.now }
    requires typed { IsWellTyped (type_at table.now id) (seen value.now) }
{
    let mut buf = SendBuf::new(alloc)?;
    match run_send(code, &HEAD, value, &mut buf) {
        Ok(()) => {
            let digits = encode(alloc, buf.octets())?;
            let tally = buf.tally();
            let checks = tally.checks;
            Ok((format!(in alloc; "{digits} {checks}")?, tally.rows))
        }
        Err(SendErr::Long) => Ok((reported(alloc, "Long")?, 0)),
        Err(SendErr::NoMemory) => Err(Bad::NoMemory),
    }
}

/// What the code of a message sends, which is the same with rows as blocks; with `count`, how many are.
fn sent(
    alloc: Global,
    head: SendCode,
    table: &Mint,
    id: NodeId,
    classes: &Classes,
    value: &Value,
    count: bool,
) -> Result<String, Bad>
    requires lead { IsLead head }
    requires id { id < length table.now }
    requires classes { AreClasses table.now classes.now }
    requires typed { IsWellTyped (type_at table.now id) (seen value.now) }
{
    let (code, in_rows) = message(alloc, head, table, id, classes)?;
    let (plain, _) = ran(alloc, &code, table, id, value)?;
    let (blocks, many) = ran(alloc, &in_rows, table, id, value)?;
    if plain != blocks {
        return Ok(format!(in alloc; "one by one {plain}, in blocks {blocks}")?);
    }
    if count {
        return Ok(format!(in alloc; "{blocks} {many}")?);
    }
    Ok(plain)
}

/// What a case's value is sent as; with `count`, also how many rows are blocks.
pub fn stub(alloc: Global, row: &Json, count: bool) -> Result<String, Bad> {
    let enc = encoding(row)?;
    let table = table_of(alloc, row)?;
    let id = id_of(row, &table)?;
    let value = value_at(alloc, row, &table, id)?;
    if !fits(&table, id, &value) {
        return reported(alloc, "no value");
    }
    let classes = classify(alloc, enc, &table)?;
    sent(
        alloc,
        lead_of(alloc, row)?,
        &table,
        id,
        &classes,
        &value,
        count,
    )
}
