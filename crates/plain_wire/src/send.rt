//! Values of a node's type as octets.

ghost use Rattle.std.specs.Prelude.{◌≡◌, ◌≤◌, ◌<◌, ◌++◌, length, OnOk, OnErr};
ghost use Rattle.kit_base.specs.Limits.{longest_message};
ghost use Rattle.mint.specs.Values.{seen, all_seen, items, present};
ghost use Rattle.mint.specs.Types.{maybe_type, items_type, type_at, unfolded, fields_at, arms_at, scalar_of, AreBelow, ArmsBelow, IsBelow};
ghost use Rattle.mint.specs.Typed.{IsWellTyped, IsOf, AreOf, IsOfArm, Each, IsScalar};
ghost use Rattle.wire_def.specs.Lone.{lone_octets};
ghost use Rattle.wire_def.specs.Send.{followed, send, send_fields, send_each, send_arm};
ghost use Rattle.plain_wire.specs.Sending.{Appends, IsNear, IsPrefixed};

use crate::send_array::{put_row, put_text};
use crate::send_scalar::{put_count, put_label, put_lone, put_scalar};
use kit_base::{NoMemory, Octets};
use mint::kind::{Count, Kind};
use mint::node::{Arms, Node, NodeIds, Tag, arm_of};
use mint::table::Mint;
use mint::value::{Value, Values};
use wire_def::Encoding;

/// Appends the octets of a well-typed value that begins at position `pos` of the message. Where
/// memory runs out a prefix of them was appended.
pub fn plain_send(
    enc: Encoding,
    mint: &Mint,
    id: u32,
    pos: usize,
    value: &Value,
    out: &mut Octets,
) -> Result<(), NoMemory>
    requires id { id < length mint.now }
    requires near { pos ≤ longest_message }
    requires typed { IsWellTyped (type_at mint.now id) (seen value.now) }
    ensures ok { OnOk result (out.new ≡ out.old ++ send enc (type_at mint.now id) pos (seen value.now)) }
    ensures err { OnErr result
        (IsPrefixed out.old out.new (send enc (type_at mint.now id) pos (seen value.now))) }
{
    put_value(enc, mint, id, pos, value, out)?;
    Ok(())
}

/// Puts a value of a node's type.
#[cycle(put)]
#[tactic(auto, using(crate::proofs::Values::values), unfolding(wire_def::specs::Send::send))]
fn put_value(
    enc: Encoding,
    mint: &Mint,
    id: u32,
    place: usize,
    value: &Value,
    out: &mut Octets,
) -> Result<usize, NoMemory>
    requires id { id < length mint.now }
    requires typed { IsOf (type_at mint.now id) (seen value.now) }
    requires near { IsNear place out.old }
    ensures { Appends out.old out.new place (send enc (type_at mint.now id) place (seen value.now)) result }
{
    let Some(node) = mint.node(id) else {
        unreachable!()
    };
    match node {
        Node::Void => Ok(place),
        Node::Num(kind) => match value.as_num() {
            Some(n) => put_lone(enc, *kind, place, &n, out),
            None => unreachable!(),
        },
        Node::Enum(labels) => match value.as_num() {
            Some(n) => put_label(enc, labels, place, &n, out),
            None => unreachable!(),
        },
        Node::Text(bound) => match value.as_row() {
            Some(row) => put_text(enc, *bound, place, row, out),
            None => unreachable!(),
        },
        Node::Row(kind, bound) => match value.as_row() {
            Some(row) => put_row(enc, *kind, *bound, place, row, out),
            None => unreachable!(),
        },
        Node::Group(ids) => match value.as_group() {
            Some(values) => put_fields(enc, mint, id, ids, place, values, out),
            None => unreachable!(),
        },
        Node::Items(item, bound) => match value.as_items() {
            Some(values) => put_items(enc, mint, id, *item, *bound, place, values, out),
            None => unreachable!(),
        },
        Node::Choice(tag, arms, other) => match value.as_arm() {
            Some((n, inner)) => put_choice(enc, mint, id, tag, arms, *other, place, &n, inner, out),
            None => unreachable!(),
        },
        Node::Maybe(item) => match value.as_opt() {
            Some(None) => put_lone(enc, Kind::Bool, place, &0, out),
            Some(Some(inner)) => put_present(enc, mint, id, *item, place, inner, out),
            None => unreachable!(),
        },
    }
}

/// Appends the fields of a struct, one after the other.
#[cycle(put)]
#[tactic(auto, using(crate::proofs::Values::values), unfolding(wire_def::specs::Send::send))]
fn put_fields(
    enc: Encoding,
    mint: &Mint,
    id: u32,
    ids: &NodeIds,
    place: usize,
    values: &Values,
    out: &mut Octets,
) -> Result<usize, NoMemory>
    requires id { id < length mint.now }
    requires below { AreBelow id ids.now }
    requires typed { AreOf (fields_at (unfolded mint.now) ids.now) (all_seen values.now) }
    requires near { IsNear place out.old }
    ensures { Appends out.old out.new place
        (send_fields enc (fields_at (unfolded mint.now) ids.now) place (all_seen values.now)) result }
{
    let ids = ids.as_slice();
    let values = values.as_slice();
    let mut at = place;
    for (i, field) in ids.iter().enumerate() {
        at = put_value(enc, mint, *field, at, &values[i], out)?;
    }
    Ok(at)
}

/// Appends a list: its count, and its elements.
#[cycle(put)]
#[tactic(auto, using(crate::proofs::Values::values), unfolding(wire_def::specs::Send::send))]
fn put_items(
    enc: Encoding,
    mint: &Mint,
    id: u32,
    item: u32,
    bound: Count,
    place: usize,
    values: &Values,
    out: &mut Octets,
) -> Result<usize, NoMemory>
    requires id { id < length mint.now }
    requires below { item < id }
    requires typed { IsOf (items_type bound (type_at mint.now item)) (items (all_seen values.now)) }
    requires near { IsNear place out.old }
    ensures { Appends out.old out.new place
        (send enc (items_type bound (type_at mint.now item)) place (items (all_seen values.now))) result }
{
    let after = put_count(enc, bound, place, values.len(), out)?;
    put_each(enc, mint, id, item, after, values, out)
}

/// Appends elements, one after the other.
#[cycle(put)]
#[tactic(auto, using(crate::proofs::Values::values), unfolding(wire_def::specs::Send::send))]
fn put_each(
    enc: Encoding,
    mint: &Mint,
    id: u32,
    item: u32,
    place: usize,
    values: &Values,
    out: &mut Octets,
) -> Result<usize, NoMemory>
    requires id { id < length mint.now }
    requires below { item < id }
    requires typed { Each (IsOf (type_at mint.now item)) (all_seen values.now) }
    requires near { IsNear place out.old }
    ensures { Appends out.old out.new place
        (send_each (send enc (type_at mint.now item)) place (all_seen values.now)) result }
{
    let mut at = place;
    for value in values.as_slice() {
        at = put_value(enc, mint, item, at, value, out)?;
    }
    Ok(at)
}

/// Appends a union: its discriminant, and the value of its arm.
#[cycle(put)]
#[tactic(auto, using(crate::proofs::Values::values), unfolding(wire_def::specs::Send::send))]
fn put_choice(
    enc: Encoding,
    mint: &Mint,
    id: u32,
    tag: &Tag,
    arms: &Arms,
    other: Option<u32>,
    place: usize,
    n: &i128,
    inner: &Value,
    out: &mut Octets,
) -> Result<usize, NoMemory>
    // The union.
    requires id { id < length mint.now }
    requires below { ArmsBelow id arms.now }
    requires other { IsBelow id other }
    // Its value.
    requires tagged { IsScalar (scalar_of tag.now) n.now }
    requires typed { IsOfArm (arms_at (unfolded mint.now) arms.now other) n.now (seen inner.now) }
    requires near { IsNear place out.old }
    ensures { Appends out.old out.new place (followed place (lone_octets enc (scalar_of tag.now) place n.now)
        (λ q. send_arm enc (arms_at (unfolded mint.now) arms.now other) n.now q (seen inner.now))) result }
{
    let after = put_scalar(enc, tag, place, n, out)?;
    put_arm(enc, mint, id, arms, other, after, n, inner, out)
}

/// Appends the value of the discriminant's arm.
#[cycle(put)]
#[tactic(auto, using(crate::proofs::Values::values), unfolding(wire_def::specs::Send::send))]
fn put_arm(
    enc: Encoding,
    mint: &Mint,
    id: u32,
    arms: &Arms,
    other: Option<u32>,
    place: usize,
    n: &i128,
    inner: &Value,
    out: &mut Octets,
) -> Result<usize, NoMemory>
    requires id { id < length mint.now }
    requires below { ArmsBelow id arms.now }
    requires other { IsBelow id other }
    requires typed { IsOfArm (arms_at (unfolded mint.now) arms.now other) n.now (seen inner.now) }
    requires near { IsNear place out.old }
    ensures { Appends out.old out.new place
        (send_arm enc (arms_at (unfolded mint.now) arms.now other) n.now place (seen inner.now)) result }
{
    match arm_of(arms, other, n) {
        Some(item) => put_value(enc, mint, item, place, inner, out),
        None => unreachable!(),
    }
}

/// Appends an optional value that is there.
#[cycle(put)]
#[tactic(auto, using(crate::proofs::Values::values), unfolding(wire_def::specs::Send::send))]
fn put_present(
    enc: Encoding,
    mint: &Mint,
    id: u32,
    item: u32,
    place: usize,
    inner: &Value,
    out: &mut Octets,
) -> Result<usize, NoMemory>
    requires id { id < length mint.now }
    requires below { item < id }
    requires typed { IsOf (type_at mint.now item) (seen inner.now) }
    requires near { IsNear place out.old }
    ensures { Appends out.old out.new place
        (send enc (maybe_type (type_at mint.now item)) place (present (seen inner.now))) result }
{
    let after = put_lone(enc, Kind::Bool, place, &1, out)?;
    put_value(enc, mint, item, after, inner, out)
}
