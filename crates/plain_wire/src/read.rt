//! Values of a node's type from octets.

ghost use Rattle.std.specs.Prelude.{IfOk, ◌≡◌, ◌≤◌, ◌<◌, ◌↔◌, ℕ, length, drop};
ghost use Rattle.kit_base.specs.Limits.{longest_message};
ghost use Rattle.mint.specs.Values.{Val, seen, all_seen};
ghost use Rattle.mint.specs.Types.{type_at, unfolded, fields_at, arms_at, scalar_of, items_type, choice_type, maybe_type, AreBelow, ArmsBelow, IsBelow};
ghost use Rattle.wire_def.specs.Grammar.{AreOctets, times};
ghost use Rattle.wire_def.specs.Laws.{BeginsWith};
ghost use Rattle.wire_def.specs.Stops.{Stops};
ghost use Rattle.wire_def.specs.Reading.{read, read_fields};
ghost use Rattle.wire_def.specs.declared.fault.FaultKind.{FaultKind};
ghost use Rattle.plain_wire.specs.Readers.{Gives, all_values};
ghost use Rattle.plain_wire.specs.Answered.{IsValue, IsStop};

use crate::cursor::{Cursor, ReadError, Taken};
use crate::read_array::{row, text};
use crate::read_head::count;
use crate::read_scalar::{lone, one_label};
use crate::read_tag::tag_with_arm;
use kit_base::{Listed, NoMemory};
use mint::kind::{Count, Kind};
use mint::node::{Arms, Node, NodeIds, Tag};
use mint::table::Mint;
use mint::value::{Value, Values};
use std::alloc::Global;
use wire_def::{Encoding, Fault, bodies_are_light, reading_is_a_grammar};

/// What was read from a message.
#[derive(Drop)]
pub enum Read {
    /// A value, and how many octets spell it.
    Value(Value, usize),
    /// The first fault.
    Stop(Fault),
}

/// Reads a value of a node's type from octet `pos` of a message. It takes memory only for what the
/// octets hold, whatever their counts say.
pub fn plain_read(
    alloc: Global,
    enc: Encoding,
    mint: &Mint,
    id: u32,
    pos: usize,
    message: &[u8],
) -> Result<Read, NoMemory>
    requires id { id < length mint.now }
    requires within { pos ≤ length message.now }
    requires short { length message.now ≤ longest_message }
    ensures value { IfOk result (λ r. (v : Val) (used : ℕ)
        → IsValue r v used ↔ BeginsWith enc (type_at mint.now id) pos (drop pos message.now) v used) }
    ensures stop { IfOk result (λ r. (k : FaultKind) (at : ℕ)
        → IsStop r k at ↔ Stops enc (type_at mint.now id) pos (drop pos message.now) k at) }
{
    reading_is_a_grammar();
    bodies_are_light();
    // A table's type is sound, so no value is refused for its weight.
    let Some(_) = mint.node(id) else {
        unreachable!()
    };
    let rest = octets_from(message, pos);
    match value(alloc, enc, mint, id, Cursor { place: pos, rest }) {
        Ok((read, next)) => Ok(Read::Value(read, next.place - pos)),
        Err(ReadError::Stop(fault)) => Ok(Read::Stop(fault)),
        Err(ReadError::NoMemory) => Err(NoMemory),
    }
}

/// The octets of a message from a place on.
fn octets_from(message: &[u8], place: usize) -> &[u8]
    requires { place ≤ length message.now }
    ensures rest { result.now ≡ drop place message.now }
    ensures octets { AreOctets result.now }
{
    &message[place..]
}

/// A value of a node's type.
#[cycle(read)]
#[tactic(auto, using(crate::proofs::Reading::readers), unfolding(wire_def::specs::Reading::read))]
fn value<'a>(
    alloc: Global,
    enc: Encoding,
    mint: &Mint,
    id: u32,
    at: Cursor<'a>,
) -> Taken<'a, Value, ReadError>
    requires id { id < length mint.now }
    ensures { Gives seen result (read enc (type_at mint.now id) at.entry.place at.entry.rest.now) }
{
    let Some(node) = mint.node(id) else {
        unreachable!()
    };
    match node {
        Node::Void => Ok((Value::Void, at)),
        Node::Num(kind) => {
            let (n, next) = lone(enc, *kind, at)?;
            Ok((Value::Num(n), next))
        }
        Node::Enum(labels) => {
            let (n, next) = one_label(enc, labels, at)?;
            Ok((Value::Num(n), next))
        }
        Node::Text(bound) => {
            let (numbers, next) = text(alloc, enc, *bound, at)?;
            Ok((Value::Row(numbers), next))
        }
        Node::Row(kind, bound) => {
            let (numbers, next) = row(alloc, enc, *kind, *bound, at)?;
            Ok((Value::Row(numbers), next))
        }
        Node::Group(ids) => {
            let (values, next) = fields(alloc, enc, mint, id, ids, at)?;
            Ok((Value::Group(values), next))
        }
        Node::Items(item, bound) => items(alloc, enc, mint, id, *item, *bound, at),
        Node::Choice(tag, arms, other) => choice(alloc, enc, mint, id, tag, arms, *other, at),
        Node::Maybe(item) => maybe(alloc, enc, mint, id, *item, at),
    }
}

/// The fields of a struct, one after the other.
#[cycle(read)]
#[tactic(auto, using(crate::proofs::Reading::readers), unfolding(wire_def::specs::Reading::read))]
fn fields<'a>(
    alloc: Global,
    enc: Encoding,
    mint: &Mint,
    id: u32,
    ids: &NodeIds,
    at: Cursor<'a>,
) -> Taken<'a, Values, ReadError>
    requires id { id < length mint.now }
    requires below { AreBelow id ids.now }
    ensures { Gives all_seen result
        (read_fields enc (fields_at (unfolded mint.now) ids.now) at.entry.place at.entry.rest.now) }
{
    let mut values = Listed::new(alloc);
    let mut at = at;
    for field in ids.as_slice() {
        let (read, next) = value(alloc, enc, mint, *field, at)?;
        values.push(read)?;
        at = next;
    }
    Ok((values, at))
}

/// A list: its count, and its elements.
#[cycle(read)]
#[tactic(auto, using(crate::proofs::Reading::readers), unfolding(wire_def::specs::Reading::read))]
fn items<'a>(
    alloc: Global,
    enc: Encoding,
    mint: &Mint,
    id: u32,
    item: u32,
    bound: Count,
    at: Cursor<'a>,
) -> Taken<'a, Value, ReadError>
    requires id { id < length mint.now }
    requires below { item < id }
    ensures { Gives seen result
        (read enc (items_type bound (type_at mint.now item)) at.entry.place at.entry.rest.now) }
{
    let (n, next) = count(enc, bound, at)?;
    let (values, last) = each(alloc, enc, mint, id, item, n, next)?;
    Ok((Value::Items(values), last))
}

/// So many elements, one after the other.
#[cycle(read)]
#[tactic(auto, using(crate::proofs::Reading::readers), unfolding(wire_def::specs::Reading::read))]
fn each<'a>(
    alloc: Global,
    enc: Encoding,
    mint: &Mint,
    id: u32,
    item: u32,
    n: usize,
    at: Cursor<'a>,
) -> Taken<'a, Values, ReadError>
    requires id { id < length mint.now }
    requires below { item < id }
    ensures { Gives all_values result
        (times (read enc (type_at mint.now item)) n at.entry.place at.entry.rest.now) }
{
    let mut values = Listed::new(alloc);
    let mut at = at;
    for _i in 0..n {
        let (read, next) = value(alloc, enc, mint, item, at)?;
        values.push(read)?;
        at = next;
    }
    Ok((values, at))
}

/// A union: its discriminant, and the value of its arm.
#[cycle(read)]
#[tactic(auto, using(crate::proofs::Reading::readers), unfolding(wire_def::specs::Reading::read))]
fn choice<'a>(
    alloc: Global,
    enc: Encoding,
    mint: &Mint,
    id: u32,
    tag: &Tag,
    arms: &Arms,
    other: Option<u32>,
    at: Cursor<'a>,
) -> Taken<'a, Value, ReadError>
    requires id { id < length mint.now }
    requires below { ArmsBelow id arms.now }
    requires other { IsBelow id other }
    ensures { Gives seen result
        (read enc (choice_type (scalar_of tag.now) (arms_at (unfolded mint.now) arms.now other))
        at.entry.place at.entry.rest.now) }
{
    let ((n, item), next) = tag_with_arm(enc, tag, arms, other, at)?;
    let (inner, last) = value(alloc, enc, mint, item, next)?;
    Ok((Value::Arm(n, boxed(alloc, inner)?), last))
}

/// An optional value: whether it is there, and the value.
#[cycle(read)]
#[tactic(auto, using(crate::proofs::Reading::readers), unfolding(wire_def::specs::Reading::read))]
fn maybe<'a>(
    alloc: Global,
    enc: Encoding,
    mint: &Mint,
    id: u32,
    item: u32,
    at: Cursor<'a>,
) -> Taken<'a, Value, ReadError>
    requires id { id < length mint.now }
    requires below { item < id }
    ensures { Gives seen result
        (read enc (maybe_type (type_at mint.now item)) at.entry.place at.entry.rest.now) }
{
    let (n, next) = lone(enc, Kind::Bool, at)?;
    if n == 0 {
        return Ok((Value::Opt(None), next));
    }
    let (inner, last) = value(alloc, enc, mint, item, next)?;
    Ok((Value::Opt(Some(boxed(alloc, inner)?)), last))
}

/// A value in memory of its own.
fn boxed(alloc: Global, inner: Value) -> Result<Box<Value>, NoMemory>
    ensures { IfOk result (λ b. b.value ≡ inner) }
{
    Ok(Box::new(alloc, inner)?)
}
