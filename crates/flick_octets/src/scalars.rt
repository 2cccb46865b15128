//! Numbers that stand in a body without a node of their own: lengths, discriminants, elements of rows.

use kit_base::NoMemory;
use kit_base::limits::LONGEST_MESSAGE;
use mint::errors::MintErr;
use mint::kind::Kind;
use mint::node::Node;
use mint::table::{Mint, NodeId};
use mint::value::Value;
use plain_wire::{Read, plain_read};
use std::alloc::Global;
use wire_def::Encoding;

/// Every kind of number, in the order of their nodes.
const KINDS: [Kind; 11] = [
    Kind::Octet,
    Kind::I8,
    Kind::U8,
    Kind::Char,
    Kind::I16,
    Kind::U16,
    Kind::I32,
    Kind::U32,
    Kind::I64,
    Kind::U64,
    Kind::Bool,
];

/// A table of a node for each kind.
pub(crate) fn nodes_of_kinds(alloc: Global) -> Result<Mint, NoMemory> {
    let mut mint = Mint::new(alloc);
    for kind in KINDS {
        match mint.add(Node::Num(kind)) {
            Err(MintErr::NoMemory) => return Err(NoMemory),
            Ok(_) | Err(_) => {}
        }
    }
    Ok(mint)
}

/// The node of a kind.
fn node_of(kind: Kind) -> NodeId {
    match kind {
        Kind::Octet => 0,
        Kind::I8 => 1,
        Kind::U8 => 2,
        Kind::Char => 3,
        Kind::I16 => 4,
        Kind::U16 => 5,
        Kind::I32 => 6,
        Kind::U32 => 7,
        Kind::I64 => 8,
        Kind::U64 => 9,
        Kind::Bool => 10,
    }
}

/// The value of a node from a place of a message on, where it is read.
pub(crate) fn value_at(
    alloc: Global,
    enc: Encoding,
    mint: &Mint,
    id: NodeId,
    place: usize,
    message: &[u8],
) -> Result<Option<Value>, NoMemory> {
    if id as usize >= mint.len() || place > message.len() || message.len() > LONGEST_MESSAGE {
        return Ok(None);
    }
    match plain_read(alloc, enc, mint, id, place, message)? {
        Read::Value(value, _) => Ok(Some(value)),
        Read::Stop(_) => Ok(None),
    }
}

/// The number of a kind that stands by itself at a place of a message, where it is read.
pub(crate) fn number_at(
    alloc: Global,
    enc: Encoding,
    kinds: &Mint,
    kind: Kind,
    place: usize,
    message: &[u8],
) -> Result<Option<i128>, NoMemory> {
    match value_at(alloc, enc, kinds, node_of(kind), place, message)? {
        Some(value) => Ok(value.as_num()),
        None => Ok(None),
    }
}

/// The number of a kind that is an element of a row, by its own octets, where it is read. Over Mach these are as
/// over CDR with the least significant octet first.
pub(crate) fn element_of(
    alloc: Global,
    enc: Encoding,
    kinds: &Mint,
    kind: Kind,
    octets: &[u8],
) -> Result<Option<i128>, NoMemory> {
    let alone = match enc {
        Encoding::Mach => Encoding::CdrLittle,
        Encoding::Xdr | Encoding::CdrBig | Encoding::CdrLittle => enc,
    };
    number_at(alloc, alone, kinds, kind, 0, octets)
}
