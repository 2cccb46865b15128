//! What a node of the tree leads to.

ghost use Rattle.std.specs.Prelude.{◌≡◌, ◌==◌, [], ℕ, IfErr, IfOk, OnOk, Some, if◌then◌else◌};
ghost use Rattle.demux.specs.Edges.{IsAt, IsGapFor, goal_of};

use kit_base::NoMemory;
use std::alloc::Global;
use std::marker::Model;

/// Words that rise, each with the node to which it leads.
#[derive(Drop)]
pub(crate) struct Edges {
    pairs: Vec<(u64, u32)>,
}

impl Model for Edges {
    ghost use Rattle.demux.specs.Edges.{Pairs, IsRising};

    ghost Value = { Pairs };

    ghost view = { λ e. e.pairs.items };

    ghost invariant = { λ e. IsRising e.pairs.items };
}

/// Memory for one pair alone where there is none, since most nodes have one.
fn leave_room(pairs: &mut Vec<(u64, u32)>) -> Result<(), NoMemory>
    ensures { pairs.new.items ≡ pairs.old.items }
{
    if pairs.is_empty() {
        pairs.reserve_exact(1)?;
    }
    Ok(())
}

impl Edges {
    /// No words. They take no memory.
    pub(crate) fn new(alloc: Global) -> Edges
        ensures { result ≡ [] }
    {
        Edges {
            pairs: Vec::new(alloc),
        }
    }

    /// The node to which a word leads.
    #[inline(never)]
    pub(crate) fn goal(&self, word: u64) -> Option<u32>
        ensures { result ≡ goal_of self.now word }
    {
        match self.search(word) {
            Ok(at) => Some(self.pairs[at].1),
            Err(_) => None,
        }
    }

    /// The node to which a word leads, by one comparison where no other word leads anywhere.
    #[inline(always)]
    pub(crate) fn next(&self, word: u64) -> Option<u32>
        ensures { result ≡ goal_of self.now word }
    {
        match self.pairs.as_slice() {
            [(alone, node)] => { if *alone == word { Some(*node) } else { None } }
            _ => self.goal(word),
        }
    }

    /// Lets a word lead to a node.
    pub(crate) fn add(&mut self, word: u64, node: u32) -> Result<(), NoMemory>
        ensures { OnOk result ((w : ℕ) → goal_of self.new w
            ≡ (if word == w then Some node else goal_of self.old w)) }
    {
        match self.search(word) {
            Ok(at) => {
                self.pairs[at] = (word, node);
                Ok(())
            }
            Err(at) => {
                leave_room(&mut self.pairs)?;
                Ok(self.pairs.insert(at, (word, node))?)
            }
        }
    }

    /// Where a word stands, or where it would go.
    fn search(&self, word: u64) -> Result<usize, usize>
        ensures found { IfOk result (IsAt self.now word) }
        ensures absent { IfErr result (IsGapFor self.now word) }
    {
        self.pairs.binary_search_by_key(&word, |&(w, _)| w)
    }
}
