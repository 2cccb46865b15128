//! Rows sent and received by stub code, so that what an octet costs can be counted.

ghost use Rattle.std.specs.Prelude.{◌<◌, length, IfOk};
ghost use Rattle.mint.specs.Typed.{IsWellTyped};
ghost use Rattle.mint.specs.Types.{type_at};
ghost use Rattle.mint.specs.Values.{seen};
ghost use Rattle.wire_def.specs.Places.{IsPlace};
ghost use Rattle.wire_def.specs.declared.encoding.Encoding.TheVariants.{Xdr};
ghost use Rattle.cast_stub.specs.Got.{IsSoundCode};
ghost use Rattle.cast_stub.specs.Meaning.{IsCovered};

use anyhow::{Result, bail};
use cast_stub::{RecvCode, SendCode};
use copy_inline::{inline, inline_recv, rows, rows_recv};
use hoist::hoist;
use kit_base::NoMemory;
use kit_base::limits::LONGEST_MESSAGE;
use mint::errors::MintErr;
use mint::fits::fits;
use mint::kind::{Count, Kind};
use mint::node::Node;
use mint::row::Row;
use mint::table::{Mint, NodeId};
use mint::value::Value;
use raw_buf::{RecvView, SendBuf};
use std::alloc::Global;
use storage_class::classify;
use stub_lower::{lower, lower_recv};
use stub_machine::run_send;
use stub_receiver::Got;
use stub_round::receive;
use wire_def::{Encoding, Head, Order};

/// How far a run goes, so that the cost of a step is the difference of two runs.
#[derive(Clone, Copy, PartialEq, Eq)]
pub enum Step {
    /// The row is made, and the code that sends and receives it.
    Make,
    /// Besides, it is sent.
    Send,
    /// Besides, it is received.
    Read,
}

/// The step of a word of the command line.
pub fn step_of(word: &str) -> Option<Step> {
    match word {
        "make" => Some(Step::Make),
        "send" => Some(Step::Send),
        "read" => Some(Step::Read),
        _ => None,
    }
}

/// What a row is of.
#[derive(Clone, Copy, PartialEq, Eq)]
pub enum Matter {
    /// Numbers of 32 bits.
    Ints,
    /// Octets.
    Opaque,
    /// Characters of a text.
    Text,
}

/// What a row is of, by a word of the command line.
pub fn matter_of(word: &str) -> Option<Matter> {
    match word {
        "ints" => Some(Matter::Ints),
        "opaque" => Some(Matter::Opaque),
        "text" => Some(Matter::Text),
        _ => None,
    }
}

/// The table of a row, whose only node is the row.
fn table_of(alloc: Global, matter: Matter) -> Result<(Mint, NodeId), MintErr> {
    let mut table = Mint::new(alloc);
    let id = match matter {
        Matter::Ints => table.add(Node::Row(Kind::I32, Count::Any))?,
        Matter::Opaque => table.add(Node::Row(Kind::Octet, Count::Any))?,
        Matter::Text => table.add(Node::Text(Count::Any))?,
    };
    Ok((table, id))
}

/// A row of so many numbers, octets or characters.
fn value_of(alloc: Global, matter: Matter, count: u32) -> Result<Value, NoMemory> {
    let mut row = match matter {
        Matter::Ints => Row::new(alloc, Kind::I32),
        Matter::Opaque => Row::new(alloc, Kind::Octet),
        Matter::Text => Row::new(alloc, Kind::Char),
    };
    for n in 0..count {
        let number = match matter {
            Matter::Ints => i128::from(n),
            Matter::Opaque | Matter::Text => 97,
        };
        if row.kind().has(number) {
            row.push(number)?;
        }
    }
    Ok(Value::Row(row))
}

/// The code that sends a node over XDR, its rows as blocks.
fn sending(alloc: Global, table: &Mint, id: NodeId) -> Result<SendCode, NoMemory>
    requires { id < length table.now }
    ensures { IfOk result (λ code. IsCovered (type_at table.now id) 0 code) }
{
    table.types_are_sound();
    let subs = lower(alloc, Encoding::Xdr, table)?;
    let flat = inline(alloc, &subs, id)?;
    let classes = classify(alloc, Encoding::Xdr, table)?;
    let code = hoist(alloc, flat, table, id, &classes)?;
    rows(alloc, Encoding::Xdr, code, table, id)
}

/// The code that receives a node over XDR, its rows as blocks.
fn receiving(alloc: Global, table: &Mint, id: NodeId) -> Result<RecvCode, NoMemory>
    requires { id < length table.now }
    ensures { IfOk result (λ code. IsSoundCode Xdr (type_at table.now id) (IsPlace Xdr) code) }
{
    table.types_are_sound();
    let subs = lower_recv(alloc, Encoding::Xdr, table)?;
    let flat = inline_recv(alloc, &subs, id)?;
    rows_recv(alloc, Encoding::Xdr, &flat, table, id)
}

// The head of a message: no code of a row asks for it.
const HEAD: Head = Head {
    id: 0,
    remote: 0,
    local: 0,
    wants: true,
    order: Order::Big,
};

/// A buffer with what a code sends of a value.
fn sent(alloc: Global, code: &SendCode, table: &Mint, id: NodeId, value: &Value) -> Result<SendBuf>
    requires covered { IsCovered (type_at table.now id) 0 code.now }
    requires typed { IsWellTyped (type_at table.now id) (seen value.now) }
{
    let Ok(mut buf) = SendBuf::new(alloc) else {
        bail!("no memory for a buffer");
    };
    match run_send(code, &HEAD, value, &mut buf) {
        Ok(()) => Ok(buf),
        Err(_) => bail!("the row is not sent"),
    }
}

/// Sends a row and receives it, as far as the step goes; answers how many octets that took.
pub fn run_row(alloc: Global, last: Step, matter: Matter, count: u32) -> Result<usize> {
    let Ok((table, id)) = table_of(alloc, matter) else {
        bail!("no table");
    };
    let Ok(value) = value_of(alloc, matter, count) else {
        bail!("no memory for the row");
    };
    if id as usize >= table.len() || !fits(&table, id, &value) {
        bail!("the row is not of the type");
    }
    let Ok(code) = sending(alloc, &table, id) else {
        bail!("no memory for the code that sends");
    };
    let Ok(back) = receiving(alloc, &table, id) else {
        bail!("no memory for the code that receives");
    };
    if last == Step::Make {
        return Ok(0);
    }
    let buf = sent(alloc, &code, &table, id, &value)?;
    let message = buf.octets();
    if last == Step::Send || message.len() > LONGEST_MESSAGE {
        return Ok(message.len());
    }
    let mut view = RecvView::new(message);
    match receive(alloc, Encoding::Xdr, &back, &table, id, &mut view) {
        Ok(Got::Value(_)) => Ok(view.pos()),
        Ok(Got::Not) => bail!("no row"),
        Err(_) => bail!("no memory to receive"),
    }
}
