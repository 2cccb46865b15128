//! Blank values.

ghost use Rattle.std.specs.Prelude.{◌≡◌, ◌<◌, pos, length, replicate, IfOk};
ghost use Rattle.mint.specs.Blank.{blank, blanks, blank_arm, blank_scalar, copies, first_of};
ghost use Rattle.mint.specs.Typed.{IsWellTyped};
ghost use Rattle.mint.specs.Types.{type_at, unfolded, fields_at, arms_at, scalar_of, AreBelow, ArmsBelow, IsBelow};
ghost use Rattle.mint.specs.Values.{seen, all_seen};

use crate::kind::Kind;
use crate::laws::blanks_are_well_typed;
use crate::node::{Arms, Labels, Node, NodeIds, Tag};
use crate::row::Row;
use crate::table::{Mint, NodeId};
use crate::value::{Value, Values};
use kit_base::NoMemory;
use std::alloc::Global;

/// The blank value of a node's type. It calls itself as deep as the type has levels, of which there
/// are at most 32.
pub fn blank(alloc: Global, mint: &Mint, id: NodeId) -> Result<Value, NoMemory>
    requires { id < length mint.now }
    ensures value { IfOk result (λ v. seen v ≡ blank (type_at mint.now id)) }
    ensures typed { IfOk result (λ v. IsWellTyped (type_at mint.now id) (seen v)) }
{
    blanks_are_well_typed();
    let _node = mint.node(id);
    blank_of(alloc, mint, id)
}

#[cycle(blank)]
fn blank_of(alloc: Global, mint: &Mint, id: NodeId) -> Result<Value, NoMemory>
    requires { id < length mint.now }
    ensures { IfOk result (λ v. seen v ≡ blank (type_at mint.now id)) }
{
    let Some(node) = mint.node(id) else {
        unreachable!()
    };
    match node {
        Node::Void => Ok(Value::Void),
        Node::Num(_) => Ok(Value::Num(0)),
        Node::Enum(labels) => Ok(Value::Num(first_of(labels))),
        Node::Text(_) => Ok(Value::Row(Row::new(alloc, Kind::Char))),
        Node::Row(kind, count) => Ok(Value::Row(zeros(alloc, *kind, count.least())?)),
        Node::Group(ids) => Ok(Value::Group(blanks(alloc, mint, id, ids)?)),
        Node::Items(item, count) => {
            Ok(Value::Items(copies(alloc, mint, id, *item, count.least())?))
        }
        Node::Choice(tag, arms, other) => blank_arm(alloc, mint, id, tag, arms, *other),
        Node::Maybe(_) => Ok(Value::Opt(None)),
    }
}

#[cycle(blank)]
fn blanks(alloc: Global, mint: &Mint, id: NodeId, ids: &NodeIds) -> Result<Values, NoMemory>
    requires id { id < length mint.now }
    requires below { AreBelow id ids.now }
    ensures { IfOk result (λ vs. all_seen vs ≡ blanks (fields_at (unfolded mint.now) ids.now)) }
{
    let mut values = Values::new(alloc);
    for field in ids.as_slice() {
        values.push(blank_of(alloc, mint, *field)?)?;
    }
    Ok(values)
}

#[cycle(blank)]
fn copies(
    alloc: Global,
    mint: &Mint,
    id: NodeId,
    item: NodeId,
    many: u32,
) -> Result<Values, NoMemory>
    requires id { id < length mint.now }
    requires below { item < id }
    ensures { IfOk result (λ vs. all_seen vs ≡ copies many (blank (type_at mint.now item))) }
{
    let mut values = Values::new(alloc);
    for _ in 0..many {
        values.push(blank_of(alloc, mint, item)?)?;
    }
    Ok(values)
}

#[cycle(blank)]
fn blank_arm(
    alloc: Global,
    mint: &Mint,
    id: NodeId,
    tag: &Tag,
    arms: &Arms,
    other: Option<NodeId>,
) -> Result<Value, NoMemory>
    requires id { id < length mint.now }
    requires below { ArmsBelow id arms.now }
    requires other { IsBelow id other }
    ensures { IfOk result
        (λ v. seen v ≡ blank_arm (scalar_of tag.now) (arms_at (unfolded mint.now) arms.now other)) }
{
    match arms.get(0) {
        Some((n, item)) => Value::arm(alloc, *n, blank_of(alloc, mint, *item)?),
        None => match other {
            Some(item) => Value::arm(alloc, blank_tag(tag), blank_of(alloc, mint, item)?),
            None => Ok(Value::Void),
        },
    }
}

/// The blank value of a tag.
pub fn blank_tag(tag: &Tag) -> i128
    ensures { result ≡ blank_scalar (scalar_of tag.now) }
{
    match tag {
        Tag::Num(_) => 0,
        Tag::Enum(labels) => first_of(labels),
    }
}

fn first_of(labels: &Labels) -> i128
    ensures { result ≡ first_of labels.now }
{
    match labels.get(0) {
        Some(label) => i128::from(*label),
        None => 0,
    }
}

/// A row of so many zeros.
fn zeros(alloc: Global, kind: Kind, many: u32) -> Result<Row, NoMemory>
    ensures { IfOk result (λ r. r ≡ record { kind = kind; numbers = replicate many (pos 0) }) }
{
    let mut row = Row::new(alloc, kind);
    for _ in 0..many {
        row.push(0)?;
    }
    Ok(row)
}
