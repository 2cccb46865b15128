//! The texts of stub code.

ghost use Rattle.std.specs.Prelude.{◌<◌, length, IfOk};
ghost use Rattle.kit_base.specs.Lines.{HasNoEnd};

use crate::asks::{encoding, id_of};
use crate::codes::{lead_of, message};
use crate::nodes::table_of;
use crate::received::in_rows;
use cast_stub::copies::put_copies;
use cast_stub::{RecvCode, SendCode, SendOps};
use check_rows::{Bad, member};
use copy_inline::inline;
use kit_base::{Name, NoMemory, Octets};
use mint::table::{Mint, NodeId};
use serde_json::Value as Json;
use std::alloc::Global;
use storage_class::classify;
use stub_lower::lower;
use stub_print::{print_recv, print_send};
use stub_round::inlined;
use wire_def::Encoding;

/// Which code of a node is printed.
#[derive(Clone, Copy)]
enum Of {
    /// The code that sends, with the codes that it calls.
    Lowered,
    /// The code that sends, without calls.
    Inlined,
    /// The same after a head, with ensures before its operations.
    Ensured,
    /// The same with its rows as blocks.
    Rows,
    /// The code that receives, without calls.
    Received,
    /// The same with its rows as blocks.
    ReceivedRows,
}

/// The code that these words name, if they name one.
fn of_words(words: &str) -> Option<Of> {
    match words {
        "lowered" => Some(Of::Lowered),
        "inlined" => Some(Of::Inlined),
        "ensured" => Some(Of::Ensured),
        "rows" => Some(Of::Rows),
        "received" => Some(Of::Received),
        "received rows" => Some(Of::ReceivedRows),
        _ => None,
    }
}

/// Which code a case is about.
fn of_case(row: &Json) -> Result<Of, Bad> {
    let Some(words) = member(row, "of")?.as_str() else {
        return Err(Bad::Row("no code"));
    };
    match of_words(words) {
        Some(of) => Ok(of),
        None => Err(Bad::Row("no code")),
    }
}

/// The name of each stub.
fn stub_name(alloc: Global) -> Result<Name, NoMemory>
    ensures { IfOk result HasNoEnd }
{
    Name::from_slice(alloc, b"OP")
}

/// The text of a code that sends.
fn sent_text(alloc: Global, code: &SendCode) -> Result<Octets, NoMemory> {
    let name = stub_name(alloc)?;
    print_send(alloc, &name, code)
}

/// The text of a code that receives.
fn received_text(alloc: Global, code: &RecvCode) -> Result<Octets, NoMemory> {
    let name = stub_name(alloc)?;
    print_recv(alloc, &name, code)
}

/// The text of the code of a node, with the codes that it calls.
fn lowered_text(
    alloc: Global,
    enc: Encoding,
    table: &Mint,
    id: NodeId,
) -> Result<Octets, NoMemory> {
    let subs = lower(alloc, enc, table)?;
    let mut ops = SendOps::new(alloc);
    if let Some(code) = subs.get(id as usize) {
        put_copies(alloc, code, &mut ops)?;
    }
    sent_text(alloc, &SendCode { ops, subs })
}

/// The text of the code of a node without calls.
fn inlined_text(alloc: Global, enc: Encoding, table: &Mint, id: NodeId) -> Result<Octets, NoMemory>
    requires { id < length table.now }
{
    table.types_are_sound();
    let subs = lower(alloc, enc, table)?;
    let code = inline(alloc, &subs, id)?;
    sent_text(alloc, &code)
}

/// The text of the code of a message, after the head of the case; or of the same with its rows as blocks.
fn message_text(
    alloc: Global,
    row: &Json,
    enc: Encoding,
    table: &Mint,
    id: NodeId,
    are_rows: bool,
) -> Result<Octets, Bad>
    requires { id < length table.now }
{
    let classes = classify(alloc, enc, table)?;
    let head = lead_of(alloc, row)?;
    let (code, blocks) = message(alloc, head, table, id, &classes)?;
    Ok(sent_text(alloc, if are_rows { &blocks } else { &code })?)
}

/// The text of the code of a node that receives, without calls.
fn flat_text(alloc: Global, enc: Encoding, table: &Mint, id: NodeId) -> Result<Octets, NoMemory>
    requires { id < length table.now }
{
    let code = inlined(alloc, enc, table, id)?;
    received_text(alloc, &code)
}

/// The text of the same, with its rows as blocks.
fn blocks_text(alloc: Global, enc: Encoding, table: &Mint, id: NodeId) -> Result<Octets, NoMemory>
    requires { id < length table.now }
{
    let code = in_rows(alloc, enc, table, id)?;
    received_text(alloc, &code)
}

/// The text of a code of a node.
fn text_of(
    alloc: Global,
    row: &Json,
    of: Of,
    enc: Encoding,
    table: &Mint,
    id: NodeId,
) -> Result<Octets, Bad>
    requires { id < length table.now }
{
    match of {
        Of::Lowered => Ok(lowered_text(alloc, enc, table, id)?),
        Of::Inlined => Ok(inlined_text(alloc, enc, table, id)?),
        Of::Ensured => message_text(alloc, row, enc, table, id, false),
        Of::Rows => message_text(alloc, row, enc, table, id, true),
        Of::Received => Ok(flat_text(alloc, enc, table, id)?),
        Of::ReceivedRows => Ok(blocks_text(alloc, enc, table, id)?),
    }
}

/// A text as a string, its line feeds as `\n`.
fn quoted(alloc: Global, octets: &[u8]) -> Result<String, Bad> {
    match str::from_utf8(octets) {
        Ok(text) => Ok(format!(in alloc; "{text:?}")?),
        Err(_) => Err(Bad::Row("no text")),
    }
}

/// The text of the code that a case is about, as a string.
pub fn text(alloc: Global, row: &Json) -> Result<String, Bad> {
    let of = of_case(row)?;
    let enc = encoding(row)?;
    let table = table_of(alloc, row)?;
    let id = id_of(row, &table)?;
    let octets = text_of(alloc, row, of, enc, &table, id)?;
    quoted(alloc, octets.as_slice())
}
