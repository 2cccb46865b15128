//! A tree over the lengths and the words of names.

ghost use Rattle.std.specs.Prelude.{◌≡◌, ◌≤◌, ◌<◌, ◌+◌, ◌/◌, List, ℕ, IfOk, None, OnOk, if◌then◌else◌, length};
ghost use Rattle.std.specs.Str.{bytes_eq};
ghost use Rattle.demux.specs.Edges.{goal_of};
ghost use Rattle.demux.specs.Spelled.{AreOctets};
ghost use Rattle.demux.specs.Trees.{IsNodeOf, IsTree, Leads, node_at, place_in};
ghost use Rattle.kit_base.specs.Causes.{raised};

use crate::edges::Edges;
use crate::word_name::{WordName, word_in};
use kit_base::NoMemory;
use std::alloc::Global;

/// A node: where the words that occur there lead, and the place of the name that ends there.
#[derive(Drop)]
pub(crate) struct Node {
    pub(crate) edges: Edges,
    pub(crate) place: Option<u32>,
}

/// A tree of one node, in which no name is found.
pub(crate) fn empty_tree(alloc: Global) -> Result<Vec<Node>, NoMemory>
    ensures tree { IfOk result (λ t. IsTree t.items) }
    ensures empty { IfOk result (λ t. (s : List ℕ) → place_in t.items s ≡ None) }
{
    let mut nodes = Vec::new(alloc);
    nodes.push(Node {
        edges: Edges::new(alloc),
        place: None,
    })?;
    Ok(nodes)
}

/// One more node, to which a word leads from a node from which it leads nowhere.
fn grown(alloc: Global, nodes: &mut Vec<Node>, node: u32, word: u64) -> Result<u32, NoMemory>
    requires tree { IsTree nodes.old.items }
    requires within { node < length nodes.old.items }
    requires none { goal_of (node_at nodes.old.items node).edges word ≡ None }
    ensures { IfOk result (Leads nodes.old.items nodes.new.items node word) }
{
    let Ok(next) = u32::try_from(nodes.len()) else {
        return Err(NoMemory);
    };
    nodes.push(Node {
        edges: Edges::new(alloc),
        place: None,
    })?;
    nodes[node as usize].edges.add(word, next)?;
    Ok(next)
}

/// The node to which a word leads from a node.
fn goal(nodes: &[Node], node: u32, word: u64) -> Option<u32>
    ensures { result ≡ goal_of (node_at nodes.now node).edges word }
{
    if (node as usize) < nodes.len() {
        nodes[node as usize].edges.goal(word)
    } else {
        None
    }
}

/// The node to which a word leads from a node, by one comparison where no other word leads anywhere from it.
#[inline(always)]
fn next(nodes: &[Node], node: u32, word: u64) -> Option<u32>
    ensures { result ≡ goal_of (node_at nodes.now node).edges word }
{
    if (node as usize) < nodes.len() {
        nodes[node as usize].edges.next(word)
    } else {
        None
    }
}

/// The place of the name that ends at a node.
fn place_at(nodes: &[Node], node: u32) -> Option<u32>
    ensures { result ≡ (node_at nodes.now node).place }
{
    if (node as usize) < nodes.len() {
        nodes[node as usize].place
    } else {
        None
    }
}

/// The node to which a word leads from a node, one more where it leads nowhere.
fn next_node(alloc: Global, nodes: &mut Vec<Node>, node: u32, word: u64) -> Result<u32, NoMemory>
    requires tree { IsTree nodes.old.items }
    requires within { node < length nodes.old.items }
    ensures { IfOk result (Leads nodes.old.items nodes.new.items node word) }
{
    match next(nodes.as_slice(), node, word) {
        Some(after) => Ok(after),
        None => grown(alloc, nodes, node, word),
    }
}

/// The node of a name, to which its length and its words lead. Nodes that are not there are added.
fn node_of(alloc: Global, nodes: &mut Vec<Node>, name: &[u8]) -> Result<u32, NoMemory>
    requires tree { IsTree nodes.old.items }
    ensures { IfOk result (IsNodeOf nodes.old.items nodes.new.items name.now) }
{
    let first = next_node(alloc, nodes, 0, name.len() as u64)?;
    let mut node = first;
    for i in 0..name.len().div_ceil(4) {
        let next = next_node(alloc, nodes, node, word_in(name, i) as u64)?;
        node = next;
    }
    Ok(node)
}

/// That a name is made of octets.
fn is_octets(name: &[u8])
    ensures { AreOctets name.now }
{}

/// Keeps a place for a name, instead of the one that it had.
pub(crate) fn put_place(
    alloc: Global,
    nodes: &mut Vec<Node>,
    name: &[u8],
    place: Option<u32>,
) -> Result<(), NoMemory>
    requires tree { IsTree nodes.old.items }
    ensures tree { OnOk result (IsTree nodes.new.items) }
    ensures found { OnOk result ((s : List ℕ) → AreOctets s → place_in nodes.new.items s
        ≡ (if bytes_eq name.now s then place else place_in nodes.old.items s)) }
{
    is_octets(name);
    let node = node_of(alloc, nodes, name)?;
    nodes[node as usize].place = place;
    Ok(())
}

/// The place that a tree has for a name. Each word of the name is read at most once.
pub(crate) fn sought(nodes: &[Node], name: &mut WordName<'_>) -> Option<u32>
    ensures place { result ≡ place_in nodes.now name.old.name }
    ensures name { name.new.name ≡ name.old.name }
    ensures reads { name.new.reads ≤ raised name.old.reads ((length name.old.name + 3) / 4) }
{
    let Some(first) = goal(nodes, 0, name.len() as u64) else {
        return None;
    };
    let mut node = first;
    for i in 0..name.len().div_ceil(4) {
        let word = name.word(i);
        let Some(after) = next(nodes, node, word as u64) else {
            return None;
        };
        node = after;
    }
    place_at(nodes, node)
}
