//! Whether a value is of a type.

ghost use Rattle.std.specs.Prelude.{not, ◌==◌, ◌≡◌, ◌↔◌, ◌<◌, ◌+◌, IsTrue, IfSome, IfNone, length};
ghost use Rattle.mint.specs.Values.{seen, all_seen, weight, weights};
ghost use Rattle.mint.specs.Types.{type_at, unfolded, fields_at, arms_at, scalar_of, label, text, row_of, AreBelow, ArmsBelow, IsBelow};
ghost use Rattle.mint.specs.Typed.{IsWellTyped, IsOf, AreOf, IsOfArm, Each, is_scalar, IsArray};
ghost use Rattle.mint.specs.Kinds.{is_letter};
ghost use Rattle.std.specs.List.{list_all};

use crate::kind::{Count, Kind};
use crate::node::{Arms, Labels, Node, NodeIds, Tag, arm_of};
use crate::table::Mint;
use crate::value::{Row, Value, Values};
use kit_base::limits::HEAVIEST;

impl Tag {
    /// Whether a number is one of the tag's.
    pub fn has(&self, n: i128) -> bool
        ensures { result ≡ is_scalar (scalar_of self.now) n }
    {
        match self {
            Tag::Num(kind) => kind.has(n),
            Tag::Enum(labels) => has_label(labels, n),
        }
    }
}

/// Whether a number is one of the labels.
pub fn has_label(labels: &Labels, n: i128) -> bool
    ensures { result ≡ is_scalar (label labels.now) n }
{
    Kind::I32.has(n) && labels.has(&n)
}

/// Whether the row is a text of an allowed length.
pub fn is_text(row: &Row, count: Count) -> bool
    ensures { IsTrue result ↔ IsArray (text count) row.now.kind row.now.numbers }
{
    row.kind() == Kind::Char && count.allows(row.len()) && all_letters(row)
}

/// Whether the numbers of a text are letters: none of its octets is zero.
pub fn all_letters(row: &Row) -> bool
    requires { row.now.kind ≡ Kind.Char }
    ensures { result ≡ list_all is_letter row.now.numbers }
{
    has_no_zero(row.image())
}

fn has_no_zero(image: &[u8]) -> bool
    ensures { result ≡ list_all (λ o. not (o == 0)) image.now }
{
    image.iter().all(|o| *o != 0)
}

/// Whether the row has the kind and an allowed length.
pub fn is_row(row: &Row, kind: Kind, count: Count) -> bool
    ensures { IsTrue result ↔ IsArray (row_of kind count) row.now.kind row.now.numbers }
{
    row.kind() == kind && count.allows(row.len())
}

/// Whether a value is of a node's type, whatever it weighs.
#[cycle(is_of)]
#[tactic(auto, using(crate::proofs::Fitting::counting))]
pub fn is_of(mint: &Mint, id: u32, value: &Value) -> bool
    requires { id < length mint.now }
    ensures { IsTrue result ↔ IsOf (type_at mint.now id) (seen value.now) }
{
    let Some(node) = mint.node(id) else {
        unreachable!()
    };
    match node {
        Node::Void => value.is_void(),
        Node::Num(kind) => match value.as_num() {
            Some(n) => kind.has(n),
            None => false,
        },
        Node::Enum(labels) => match value.as_num() {
            Some(n) => has_label(labels, n),
            None => false,
        },
        Node::Text(count) => match value.as_row() {
            Some(row) => is_text(row, *count),
            None => false,
        },
        Node::Row(kind, count) => match value.as_row() {
            Some(row) => is_row(row, *kind, *count),
            None => false,
        },
        Node::Group(ids) => match value.as_group() {
            Some(values) => are_of(mint, id, ids, values),
            None => false,
        },
        Node::Items(item, count) => match value.as_items() {
            Some(values) => count.allows(values.len()) && each_is_of(mint, id, *item, values),
            None => false,
        },
        Node::Choice(tag, arms, other) => match value.as_arm() {
            Some((n, inner)) => tag.has(n) && is_of_arm(mint, id, arms, *other, &n, inner),
            None => false,
        },
        Node::Maybe(item) => match value.as_opt() {
            Some(None) => true,
            Some(Some(inner)) => is_of(mint, *item, inner),
            None => false,
        },
    }
}

#[cycle(is_of)]
#[tactic(auto, using(crate::proofs::Fitting::counting))]
fn are_of(mint: &Mint, id: u32, ids: &NodeIds, values: &Values) -> bool
    requires id { id < length mint.now }
    requires below { AreBelow id ids.now }
    ensures { IsTrue result ↔ AreOf (fields_at (unfolded mint.now) ids.now) (all_seen values.now) }
{
    let ids = ids.as_slice();
    let values = values.as_slice();
    if ids.len() != values.len() {
        return false;
    }
    for (i, field) in ids.iter().enumerate() {
        if !is_of(mint, *field, &values[i]) {
            return false;
        }
    }
    true
}

#[cycle(is_of)]
#[tactic(auto, using(crate::proofs::Fitting::counting))]
fn each_is_of(mint: &Mint, id: u32, item: u32, values: &Values) -> bool
    requires id { id < length mint.now }
    requires below { item < id }
    ensures { IsTrue result ↔ Each (IsOf (type_at mint.now item)) (all_seen values.now) }
{
    for value in values.as_slice() {
        if !is_of(mint, item, value) {
            return false;
        }
    }
    true
}

#[cycle(is_of)]
#[tactic(auto, using(crate::proofs::Arms::arms))]
fn is_of_arm(mint: &Mint, id: u32, arms: &Arms, other: Option<u32>, n: &i128, inner: &Value) -> bool
    requires id { id < length mint.now }
    requires below { ArmsBelow id arms.now }
    requires other { IsBelow id other }
    ensures { IsTrue result ↔ IsOfArm (arms_at (unfolded mint.now) arms.now other) n.now (seen inner.now) }
{
    match arm_of(arms, other, n) {
        Some(item) => is_of(mint, item, inner),
        None => false,
    }
}

/// A weight less that of a value, or none where the value weighs more.
#[cycle(weigh)]
fn take_weight(left: u32, value: &Value) -> Option<u32>
    ensures some { IfSome result (λ n. n + weight (seen value.now) ≡ left) }
    ensures none { IfNone result (left < weight (seen value.now)) }
{
    match value {
        Value::Void => Some(left),
        Value::Num(_) => left.checked_sub(1),
        Value::Row(row) => take_len(left.checked_sub(1)?, row.len()),
        Value::Group(values) => take_weights(left, values),
        Value::Items(values) => take_weights(left.checked_sub(1)?, values),
        Value::Arm(_, inner) => take_weight(left.checked_sub(1)?, inner),
        Value::Opt(None) => left.checked_sub(1),
        Value::Opt(Some(inner)) => take_weight(left.checked_sub(1)?, inner),
    }
}

#[cycle(weigh)]
fn take_weights(left: u32, values: &Values) -> Option<u32>
    ensures some { IfSome result (λ n. n + weights (all_seen values.now) ≡ left) }
    ensures none { IfNone result (left < weights (all_seen values.now)) }
{
    let mut rest = left;
    for value in values.as_slice() {
        rest = take_weight(rest, value)?;
    }
    Some(rest)
}

fn take_len(left: u32, len: usize) -> Option<u32>
    ensures some { IfSome result (λ n. n + len ≡ left) }
    ensures none { IfNone result (left < len) }
{
    if len <= left as usize {
        Some(left - len as u32)
    } else {
        None
    }
}

/// Whether a value is of a node's type, and weighs at most 268,435,456.
pub fn fits(mint: &Mint, id: u32, value: &Value) -> bool
    requires { id < length mint.now }
    ensures { IsTrue result ↔ IsWellTyped (type_at mint.now id) (seen value.now) }
{
    is_of(mint, id, value) && take_weight(HEAVIEST, value).is_some()
}
