//! The distinct types of a table, as a table of their own: a unit has many nodes of one type, and codes are made for a
//! type once.

ghost use Rattle.std.specs.Prelude.{◌≡◌, ◌≢◌, ◌<◌, ◌≤◌, ◌+◌, ◌++◌, ◌∷◌, [], length, map, option_map, true, None, IfOk, IfSome, OnOk};
ghost use Rattle.mint.specs.Sound.{refusal};
ghost use Rattle.mint.specs.Types.{type_at};
ghost use Rattle.stub_codes.specs.Distinct.{arm_in, number_in, renumbered, AreSame, Stands};

use crate::same_node::is_renumbered;
use kit_base::NoMemory;
use mint::errors::MintErr;
use mint::keyed::Keyed;
use mint::kind::{Count, Kind};
use mint::node::{Arms, Node, NodeIds, Tag};
use mint::table::{Mint, NodeId};
use std::alloc::Global;

/// A table of the distinct types of another, and for each node of that the number of its type.
#[derive(Drop)]
pub(crate) struct Distinct {
    /// The types.
    pub(crate) mint: Mint,
    /// The number of the type of each node.
    pub(crate) ids: NodeIds,
}

/// At how many slots a type is looked for.
const TRIES: usize = 4;

/// The number of no node, in a slot without one.
const NONE: u32 = u32::MAX;

/// The number that a number is exchanged for.
pub(crate) fn number_in(ids: &[u32], id: u32) -> u32
    ensures { result ≡ number_in ids.now id }
{
    match ids.get(id as usize) {
        Some(number) => *number,
        None => 0,
    }
}

/// The numbers for which numbers are exchanged.
fn numbers_in(alloc: Global, ids: &[u32], given: &[u32]) -> Result<NodeIds, NoMemory>
    ensures { IfOk result (λ list. list ≡ map (number_in ids.now) given.now) }
{
    let mut list = NodeIds::with_room(alloc, given.len())?;
    for id in given {
        list.push(number_in(ids, *id))?;
    }
    Ok(list)
}

/// Arms with the numbers for which those of their nodes are exchanged.
fn arms_in(alloc: Global, ids: &[u32], given: &Arms) -> Result<Arms, NoMemory>
    ensures { IfOk result (λ arms. arms ≡ map (arm_in ids.now) given.now) }
{
    let mut arms = Arms::new(alloc);
    for arm in given.as_slice() {
        arms.push((arm.0, number_in(ids, arm.1)))?;
    }
    Ok(arms)
}

/// The number for which that of a default is exchanged, if there is one.
fn other_in(ids: &[u32], other: Option<u32>) -> Option<u32>
    ensures { result ≡ option_map (number_in ids.now) other }
{
    match other {
        Some(id) => Some(number_in(ids, id)),
        None => None,
    }
}

/// The same discriminant.
fn tag_of(tag: &Tag) -> Result<Tag, NoMemory>
    ensures { IfOk result (λ copy. copy ≡ tag.now) }
{
    match tag {
        Tag::Num(kind) => Ok(Tag::Num(*kind)),
        Tag::Enum(labels) => Ok(Tag::Enum(labels.share()?)),
    }
}

/// A node whose children have the numbers for which its own are exchanged.
fn renumber(alloc: Global, ids: &[u32], node: &Node) -> Result<Node, NoMemory>
    ensures { IfOk result (λ n. n ≡ renumbered ids.now node.now) }
{
    match node {
        Node::Void => Ok(Node::Void),
        Node::Num(kind) => Ok(Node::Num(*kind)),
        Node::Enum(labels) => Ok(Node::Enum(labels.share()?)),
        Node::Text(count) => Ok(Node::Text(*count)),
        Node::Row(kind, count) => Ok(Node::Row(*kind, *count)),
        Node::Group(given) => Ok(Node::Group(numbers_in(alloc, ids, given.as_slice())?)),
        Node::Items(id, count) => Ok(Node::Items(number_in(ids, *id), *count)),
        Node::Choice(tag, arms, other) => Ok(Node::Choice(
            tag_of(tag)?,
            arms_in(alloc, ids, arms)?,
            other_in(ids, *other),
        )),
        Node::Maybe(id) => Ok(Node::Maybe(number_in(ids, *id))),
    }
}

/// A number from two, for slots.
fn mixed(sum: u32, n: u32) -> u32 {
    sum.wrapping_mul(2654435761).wrapping_add(n)
}

/// A number of a kind, for slots.
fn mark_of_kind(kind: Kind) -> u32 {
    match kind {
        Kind::Octet => 0,
        Kind::I8 => 1,
        Kind::U8 => 2,
        Kind::Char => 3,
        Kind::I16 => 4,
        Kind::U16 => 5,
        Kind::I32 => 6,
        Kind::U32 => 7,
        Kind::I64 => 8,
        Kind::U64 => 9,
        Kind::Bool => 10,
    }
}

/// A number of a count, for slots.
fn mark_of_count(count: Count) -> u32 {
    match count {
        Count::Exactly(n) => mixed(1, n),
        Count::AtMost(n) => mixed(2, n),
        Count::Any => 3,
    }
}

/// A number of the children of a node, for slots.
fn mark_of_ids(ids: &[u32], given: &[u32]) -> u32 {
    let mut sum = 5;
    for id in given {
        sum = mixed(sum, number_in(ids, *id));
    }
    sum
}

/// A number of the arms of a node, for slots.
fn mark_of_arms(ids: &[u32], arms: &[(i128, u32)]) -> u32 {
    let mut sum = 7;
    for arm in arms {
        sum = mixed(sum, number_in(ids, arm.1));
    }
    sum
}

/// A number of a node, for slots: that of two nodes that are the same type is the same.
fn mark_of(ids: &[u32], node: &Node) -> u32 {
    match node {
        Node::Void => 0,
        Node::Num(kind) => mixed(11, mark_of_kind(*kind)),
        Node::Enum(labels) => mixed(12, (labels.len() % 65536) as u32),
        Node::Text(count) => mixed(13, mark_of_count(*count)),
        Node::Row(kind, count) => mixed(mixed(14, mark_of_kind(*kind)), mark_of_count(*count)),
        Node::Group(given) => mixed(15, mark_of_ids(ids, given.as_slice())),
        Node::Items(id, count) => mixed(mixed(16, number_in(ids, *id)), mark_of_count(*count)),
        Node::Choice(_, arms, _) => mixed(17, mark_of_arms(ids, arms.as_slice())),
        Node::Maybe(id) => mixed(18, number_in(ids, *id)),
    }
}

/// The slot of a mark at a try.
fn slot_of(slots: &[u32], mark: u32, k: usize) -> usize
    requires { 0 < length slots.now }
    ensures { result < length slots.now }
{
    (mark as usize).wrapping_add(k) % slots.len()
}

/// Whether the node of a number is another one with other numbers.
fn same_at(small: &Mint, ids: &[u32], node: &Node, id: u32) -> bool
    ensures { result ≡ true → Stands small.now (renumbered ids.now node.now) id }
{
    match small.node(id) {
        Some(kept) => is_renumbered(ids, node, kept),
        None => false,
    }
}

/// The number of a node of a table that is a node with other numbers, where it is at one of its slots.
fn found(small: &Mint, slots: &[u32], ids: &[u32], node: &Node, mark: u32) -> Option<NodeId>
    requires { 0 < length slots.now }
    ensures { IfSome result (Stands small.now (renumbered ids.now node.now)) }
{
    for k in 0..TRIES {
        let id = slots[slot_of(slots, mark, k)];
        if same_at(small, ids, node, id) {
            return Some(id);
        }
    }
    None
}

/// A slot of a mark that has no number, or else the first.
fn free_slot(slots: &[u32], mark: u32) -> usize
    requires { 0 < length slots.now }
    ensures { result < length slots.now }
{
    for k in 0..TRIES {
        let at = slot_of(slots, mark, k);
        if slots[at] == NONE {
            return at;
        }
    }
    slot_of(slots, mark, 0)
}

/// Puts a number into a slot of a mark.
fn keep(slots: &mut Vec<u32>, mark: u32, id: u32)
    requires { 0 < length slots.old.items }
    ensures { length slots.new.items ≡ length slots.old.items }
{
    let at = free_slot(slots.as_slice(), mark);
    slots[at] = id;
}

/// What is reported where a table that refuses no node has no memory.
fn reported(refused: MintErr) -> NoMemory
    requires { (refused ≢ MintErr.NoMemory) → ⊥ }
{
    match refused {
        MintErr::NoMemory => NoMemory,
        _ => unreachable!(),
    }
}

/// Appends a node that is not refused.
fn add(small: &mut Mint, node: Node) -> Result<NodeId, NoMemory>
    requires { refusal small.old node ≡ None }
    ensures ok { OnOk result (small.new ≡ small.old ++ node ∷ []) }
    ensures id { IfOk result (λ i. i ≡ length small.old) }
{
    match small.add(node) {
        Ok(id) => Ok(id),
        Err(refused) => Err(reported(refused)),
    }
}

/// The number of a node's type, which is put into the table where it is not found there.
fn placed(
    alloc: Global,
    mint: &Mint,
    id: NodeId,
    ids: &[u32],
    small: &mut Mint,
    slots: &mut Vec<u32>,
) -> Result<NodeId, NoMemory>
    requires id { id ≡ length ids.now }
    requires within { id < length mint.now }
    requires few { length small.old ≤ length ids.now }
    requires slots { 0 < length slots.old.items }
    requires same { AreSame small.old mint.now ids.now }
    ensures same { IfOk result (λ i. AreSame small.new mint.now (ids.now ++ i ∷ [])) }
    ensures few { OnOk result (length small.new ≤ length ids.now + 1) }
    ensures slots { length slots.new.items ≡ length slots.old.items }
{
    let _count = mint.len();
    let Some(node) = mint.node(id) else {
        unreachable!()
    };
    let mark = mark_of(ids, node);
    if let Some(kept) = found(small, slots, ids, node, mark) {
        return Ok(kept);
    }
    let made = add(small, renumber(alloc, ids, node)?)?;
    keep(slots, mark, made);
    Ok(made)
}

/// The distinct types of a table.
pub(crate) fn distinct_of(alloc: Global, mint: &Mint) -> Result<Distinct, NoMemory>
    ensures many { IfOk result (λ d. length d.ids ≡ length mint.now) }
    ensures same { IfOk result (λ d. AreSame d.mint mint.now d.ids) }
{
    let mut small = Mint::new(alloc);
    let mut ids = NodeIds::with_room(alloc, mint.len())?;
    let mut slots = vec![in alloc; NONE; 2 * mint.len() + 1]?;
    for i in 0..mint.len() {
        let id = placed(
            alloc,
            mint,
            i as u32,
            ids.as_slice(),
            &mut small,
            &mut slots,
        )?;
        ids.push(id)?;
    }
    Ok(Distinct { mint: small, ids })
}
