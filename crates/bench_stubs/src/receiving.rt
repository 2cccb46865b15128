//! Messages read by stub code and by the plain walk, so that what a number costs can be counted.

ghost use Rattle.std.specs.Prelude.{◌<◌, length, IfOk};
ghost use Rattle.mint.specs.Types.{type_at};
ghost use Rattle.wire_def.specs.Places.{IsPlace};
ghost use Rattle.wire_def.specs.declared.encoding.Encoding.TheVariants.{Xdr};
ghost use Rattle.cast_stub.specs.Got.{IsSoundCode};

use anyhow::{Result, bail};
use cast_stub::RecvCode;
use chunker::{Phase, chunk_recv};
use kit_base::limits::LONGEST_MESSAGE;
use kit_base::{NoMemory, Octets};
use mint::errors::MintErr;
use mint::kind::{Count, Kind};
use mint::node::{Node, NodeIds};
use mint::table::{Mint, NodeId};
use plain_wire::{Read, plain_read};
use raw_buf::RecvView;
use std::alloc::Global;
use stub_receiver::Got;
use stub_round::{inlined, receive};
use wire_def::Encoding;

/// What is done with a message.
#[derive(Clone, Copy, PartialEq, Eq)]
pub enum Reading {
    /// It is made, and the code that reads it.
    Prepare,
    /// Besides, stub code reads it.
    Receive,
    /// The plain walk reads it in place of the code.
    Walk,
}

/// What is done, by a word of the command line.
pub fn reading_of(word: &str) -> Option<Reading> {
    match word {
        "prepare" => Some(Reading::Prepare),
        "receive" => Some(Reading::Receive),
        "walk" => Some(Reading::Walk),
        _ => None,
    }
}

/// What a message holds.
#[derive(Clone, Copy, PartialEq, Eq)]
pub enum Content {
    /// A row of so many `int`.
    Ints,
    /// A list of structs of four `int`, of so many `int`.
    Structs,
    /// A struct of twenty `int`.
    Twenty,
    /// So many octets, and before them the greatest count, as if a row of `int` came.
    Claim,
}

/// What a message holds, by a word of the command line.
pub fn content_of(word: &str) -> Option<Content> {
    match word {
        "ints" => Some(Content::Ints),
        "structs" => Some(Content::Structs),
        "twenty" => Some(Content::Twenty),
        "claim" => Some(Content::Claim),
        _ => None,
    }
}

/// The table of what a message holds, and its node.
fn table_of(alloc: Global, content: Content) -> Result<(Mint, NodeId), MintErr> {
    let mut table = Mint::new(alloc);
    match content {
        Content::Structs => {
            let four = add_struct(alloc, &mut table, 4)?;
            let list = table.add(Node::Items(four, Count::Any))?;
            Ok((table, list))
        }
        Content::Twenty => {
            let twenty = add_struct(alloc, &mut table, 20)?;
            Ok((table, twenty))
        }
        Content::Ints | Content::Claim => {
            let row = table.add(Node::Row(Kind::I32, Count::Any))?;
            Ok((table, row))
        }
    }
}

/// The node of a struct of so many `int`.
fn add_struct(alloc: Global, table: &mut Mint, count: u32) -> Result<NodeId, MintErr> {
    let number = table.add(Node::Num(Kind::I32))?;
    let mut fields = NodeIds::new(alloc);
    for _ in 0..count {
        fields.push(number)?;
    }
    table.add(Node::Group(fields))
}

/// The code that receives a node, with one test and one take of what stands together.
fn chunked(alloc: Global, table: &Mint, id: NodeId) -> Result<RecvCode, NoMemory>
    requires { id < length table.now }
    ensures { IfOk result (λ code. IsSoundCode Xdr (type_at table.now id) (IsPlace Xdr) code) }
{
    let flat = inlined(alloc, Encoding::Xdr, table, id)?;
    chunk_recv(alloc, &flat, Phase { m: 4, r: 0 })
}

/// A message of so many numbers, or of so many octets.
fn message_of(alloc: Global, content: Content, size: u32) -> Result<Octets> {
    let (count, numbers) = match content {
        Content::Ints => (Some(size), size),
        Content::Structs => (Some(size / 4), size),
        Content::Twenty => (None, 20),
        Content::Claim => (Some(u32::MAX), (size / 4).saturating_sub(1)),
    };
    let mut message = Octets::new(alloc);
    if let Some(count) = count {
        let Ok(()) = message.append(&count.to_be_bytes()) else {
            bail!("no memory for a message");
        };
    }
    for n in 0..numbers {
        let Ok(()) = message.append(&n.to_be_bytes()) else {
            bail!("no memory for a message");
        };
    }
    Ok(message)
}

/// Whether a message is read as a value.
pub fn read(alloc: Global, reading: Reading, content: Content, size: u32) -> Result<bool> {
    let Ok((table, id)) = table_of(alloc, content) else {
        bail!("no table");
    };
    let message = message_of(alloc, content, size)?;
    let message = message.as_slice();
    if id as usize >= table.len() || message.len() > LONGEST_MESSAGE {
        bail!("a message that is too long");
    }
    let Ok(code) = chunked(alloc, &table, id) else {
        bail!("no memory for code");
    };
    match reading {
        Reading::Prepare => Ok(false),
        Reading::Receive => {
            let mut view = RecvView::new(message);
            match receive(alloc, Encoding::Xdr, &code, &table, id, &mut view) {
                Ok(Got::Value(_)) => Ok(true),
                Ok(Got::Not) => Ok(false),
                Err(_) => bail!("no memory to receive"),
            }
        }
        Reading::Walk => {
            match plain_read(alloc, Encoding::Xdr, &table, id, 0, message) {
                Ok(Read::Value(_, _)) => Ok(true),
                Ok(Read::Stop(_)) => Ok(false),
                Err(_) => bail!("no memory to read"),
            }
        }
    }
}
