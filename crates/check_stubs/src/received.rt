//! Octets received by stub code, lowered, inlined and with rows as blocks, beside the plain walk.

ghost use Rattle.std.specs.Prelude.{◌≡◌, ◌<◌, ◌≤◌, length, IfOk, IsTrue};
ghost use Rattle.kit_base.specs.Limits.{longest_message};
ghost use Rattle.mint.specs.Types.{type_at};
ghost use Rattle.wire_def.specs.Places.{IsPlace};
ghost use Rattle.cast_stub.specs.Got.{IsSoundCode};

use crate::asks::{encoding, id_of, place_of};
use crate::nodes::table_of;
use cast_stub::RecvCode;
use check_rows::{Bad, member, octets, reported, word};
use copy_inline::{inline_recv, rows_recv};
use hex::encode;
use kit_base::limits::LONGEST_MESSAGE;
use kit_base::{NoMemory, Octets};
use mint::fits::fits;
use mint::table::{Mint, NodeId};
use mint::value::Value;
use plain_wire::{Read, plain_read, plain_send};
use raw_buf::RecvView;
use serde_json::Value as Json;
use std::alloc::Global;
use stub_lower::lower_recv;
use stub_receiver::Got;
use stub_round::{inlined, lowered, receive};
use wire_def::Encoding;

/// The code of a node without calls, its rows as blocks.
pub fn in_rows(alloc: Global, enc: Encoding, table: &Mint, id: NodeId) -> Result<RecvCode, NoMemory>
    requires { id < length table.now }
    ensures { IfOk result (λ code. IsSoundCode enc (type_at table.now id) (IsPlace enc) code) }
{
    table.types_are_sound();
    let subs = lower_recv(alloc, enc, table)?;
    let flat = inline_recv(alloc, &subs, id)?;
    rows_recv(alloc, enc, &flat, table, id)
}

/// How many octets a value took and what it is sent as from the same position.
fn value_reported(
    alloc: Global,
    enc: Encoding,
    table: &Mint,
    id: NodeId,
    at: usize,
    value: &Value,
    used: usize,
) -> Result<String, Bad>
    requires id { id < length table.now }
    requires at { at ≤ longest_message }
{
    if !fits(table, id, value) {
        return reported(alloc, "no value");
    }
    let mut out = Octets::new(alloc);
    plain_send(enc, table, id, at, value, &mut out)?;
    let digits = encode(alloc, out.as_slice())?;
    Ok(format!(in alloc; "{used} {digits}")?)
}

/// The same, as the plain walk reads it.
fn walked(
    alloc: Global,
    enc: Encoding,
    table: &Mint,
    id: NodeId,
    at: usize,
    message: &[u8],
) -> Result<String, Bad>
    requires id { id < length table.now }
    requires at { at ≤ length message.now }
    requires short { length message.now ≤ longest_message }
{
    match plain_read(alloc, enc, table, id, at, message)? {
        Read::Value(value, used) => value_reported(alloc, enc, table, id, at, &value, used),
        Read::Stop(_) => reported(alloc, "Not"),
    }
}

/// The same, by a code.
fn received(
    alloc: Global,
    enc: Encoding,
    code: &RecvCode,
    table: &Mint,
    id: NodeId,
    at: usize,
    message: &[u8],
) -> Result<String, Bad>
    requires sound { IsSoundCode enc (type_at table.now id) (IsPlace enc) code.now }
    requires id { id < length table.now }
    requires place { IsPlace enc at }
    requires at { at ≤ length message.now }
    requires short { length message.now ≤ longest_message }
{
    let mut view = RecvView::new(message);
    if !view.need(at) {
        return Err(Bad::Row("no place in the message"));
    }
    view.take(at);
    match receive(alloc, enc, code, table, id, &mut view)? {
        Got::Value(value) => {
            let used = view.pos().saturating_sub(at);
            value_reported(alloc, enc, table, id, at, &value, used)
        }
        Got::Not => reported(alloc, "Not"),
    }
}

/// What all four say, or how they differ.
fn alike(
    alloc: Global,
    enc: Encoding,
    codes: (&RecvCode, &RecvCode, &RecvCode),
    table: &Mint,
    id: NodeId,
    at: usize,
    message: &[u8],
) -> Result<(bool, String), Bad>
    // The codes.
    requires lowered { IsSoundCode enc (type_at table.now id) (IsPlace enc) codes.0.now }
    requires inlined { IsSoundCode enc (type_at table.now id) (IsPlace enc) codes.1.now }
    requires rows { IsSoundCode enc (type_at table.now id) (IsPlace enc) codes.2.now }
    // What they receive, and where.
    requires id { id < length table.now }
    requires place { IsPlace enc at }
    requires at { at ≤ length message.now }
    requires short { length message.now ≤ longest_message }
{
    let plain = walked(alloc, enc, table, id, at, message)?;
    let first = received(alloc, enc, codes.0, table, id, at, message)?;
    let second = received(alloc, enc, codes.1, table, id, at, message)?;
    let third = received(alloc, enc, codes.2, table, id, at, message)?;
    if plain == first && plain == second && plain == third {
        return Ok((true, plain));
    }
    let all = format!(in alloc;
        "walked {plain}, lowered {first}, inlined {second}, in blocks {third}"
    )?;
    Ok((false, all))
}

/// How many cuts and changed octets, at every so many places, all four agree on; or where they differ.
fn varied(
    alloc: Global,
    enc: Encoding,
    codes: (&RecvCode, &RecvCode, &RecvCode),
    table: &Mint,
    id: NodeId,
    at: usize,
    step: usize,
    message: &[u8],
) -> Result<String, Bad>
    // The codes.
    requires lowered { IsSoundCode enc (type_at table.now id) (IsPlace enc) codes.0.now }
    requires inlined { IsSoundCode enc (type_at table.now id) (IsPlace enc) codes.1.now }
    requires rows { IsSoundCode enc (type_at table.now id) (IsPlace enc) codes.2.now }
    // What they receive, and where.
    requires id { id < length table.now }
    requires place { IsPlace enc at }
    requires at { at ≤ length message.now }
    requires step { 0 < step }
    requires short { length message.now ≤ longest_message }
{
    let mut count = 0u64;
    for i in at..message.len() {
        if (i - at) % step != 0 {
            continue;
        }
        let (same, said) = alike(alloc, enc, codes, table, id, at, &message[..i])?;
        if !same {
            return Ok(format!(in alloc; "cut at {i}: {said}")?);
        }
        count = count.saturating_add(1);
        for by in CHANGES {
            let changed = changed(alloc, message, i, by)?;
            let (same, said) = alike(alloc, enc, codes, table, id, at, changed.as_slice())?;
            if !same {
                return Ok(format!(in alloc; "changed at {i} by {by}: {said}")?);
            }
            count = count.saturating_add(1);
        }
    }
    Ok(format!(in alloc; "{count} alike")?)
}

// What an octet is changed by: each bit, and all.
const CHANGES: [u8; 9] = [1, 2, 4, 8, 16, 32, 64, 128, 255];

/// The octets, of which one is another.
fn changed(alloc: Global, message: &[u8], place: usize, by: u8) -> Result<Octets, Bad>
    requires { place < length message.now }
    ensures { IfOk result (λ o. length o ≡ length message.now) }
{
    let mut all = Octets::new(alloc);
    all.append(&message[..place])?;
    all.append([message[place] ^ by].as_slice())?;
    all.append(&message[place + 1..])?;
    Ok(all)
}

/// Whether an encoding speaks of a position.
fn is_place(enc: Encoding, at: usize) -> bool
    ensures { IsTrue result → IsPlace enc at }
{
    match enc {
        Encoding::Xdr | Encoding::Mach => at % 4 == 0,
        Encoding::CdrBig | Encoding::CdrLittle => true,
    }
}

/// What a case's octets are received as; with `step`, how it is with cuts and changes of them.
pub fn received_case(alloc: Global, row: &Json) -> Result<String, Bad> {
    let enc = encoding(row)?;
    let at = place_of(row)?;
    let table = table_of(alloc, row)?;
    let id = id_of(row, &table)?;
    let message = octets(alloc, member(row, "octets")?)?;
    let message = message.as_slice();
    if !is_place(enc, at) || at > message.len() || message.len() > LONGEST_MESSAGE {
        return Err(Bad::Row("no place in the message"));
    }
    let low = lowered(alloc, enc, &table, id)?;
    let flat = inlined(alloc, enc, &table, id)?;
    let blocks = in_rows(alloc, enc, &table, id)?;
    match row.get("step") {
        Some(step) => {
            let step = word(step)?;
            if step == 0 {
                return Err(Bad::Row("no step"));
            }
            varied(
                alloc,
                enc,
                (&low, &flat, &blocks),
                &table,
                id,
                at,
                step as usize,
                message,
            )
        }
        None => Ok(alike(alloc, enc, (&low, &flat, &blocks), &table, id, at, message)?.1),
    }
}
