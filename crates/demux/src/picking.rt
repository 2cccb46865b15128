//! Names to be found.

ghost use Rattle.std.specs.Prelude.{◌≡◌, ◌≤◌, ◌+◌, ◌/◌, ◌<◌, ◌^◌, IfOk, List, ℕ, None, OnOk, length};
ghost use Rattle.demux.specs.Places.{FindsPlaces};
ghost use Rattle.demux.specs.Spelled.{AreOctets};
ghost use Rattle.demux.specs.Trees.{IsTree, place_in};
ghost use Rattle.kit_base.specs.Causes.{raised};
ghost use Rattle.std.specs.List.{position_from};
ghost use Rattle.std.specs.Str.{bytes_eq};

use crate::tree::{Node, empty_tree, put_place, sought};
use crate::word_name::WordName;
use kit_base::{Name, NoMemory};
use kit_shared::{Shared, SharedNames};
use std::alloc::Global;
use std::marker::Model;

/// Names, each at its place from 0, among which the first that is equal to a given one is found.
#[derive(Drop)]
pub struct Demux {
    names: SharedNames,
    nodes: Vec<Node>,
}

impl Model for Demux {
    ghost use Rattle.std.specs.Prelude.{◌<◌, ◌^◌, ℕ, List, length};
    ghost use Rattle.demux.specs.Places.{FindsPlaces};

    ghost Value = { List (List ℕ) };

    ghost view = { λ d. d.names };

    ghost invariant = { λ d. (length d.names < 2 ^ 32) × FindsPlaces d.names d.nodes.items };
}

/// The names in the order of their lengths and words.
fn in_order<'a>(
    alloc: Global,
    names: &'a [Shared<Name>],
) -> Result<Vec<(usize, &'a [u8])>, NoMemory> {
    let mut sorted = Vec::new(alloc);
    for name in names {
        sorted.push((name.len(), name.as_slice()))?;
    }
    sorted.sort_unstable();
    Ok(sorted)
}

/// A tree that has the nodes of names, and finds none of them yet. Each list of words grows at its end alone.
fn nodes_of(alloc: Global, names: &[Shared<Name>]) -> Result<Vec<Node>, NoMemory>
    ensures tree { IfOk result (λ t. IsTree t.items) }
    ensures empty { IfOk result (λ t. (s : List ℕ) → AreOctets s → place_in t.items s ≡ None) }
{
    let mut nodes = empty_tree(alloc)?;
    let order = in_order(alloc, names)?;
    for item in order.as_slice() {
        put_place(alloc, &mut nodes, item.1, None)?;
    }
    Ok(nodes)
}

/// Keeps the places of the names from the last to the first, so that of equal names the place of
/// the first stays.
fn put_places(alloc: Global, nodes: &mut Vec<Node>, names: &[Shared<Name>]) -> Result<(), NoMemory>
    requires few { length names.now < 2 ^ 32 }
    requires tree { IsTree nodes.old.items }
    requires empty { (s : List ℕ) → AreOctets s → place_in nodes.old.items s ≡ None }
    ensures { OnOk result (FindsPlaces names.now nodes.new.items) }
{
    let mut place = names.len();
    while place > 0 {
        place -= 1;
        put_place(alloc, nodes, names[place].as_slice(), Some(place as u32))?;
    }
    Ok(())
}

impl Demux {
    /// Names, and what finds them.
    pub fn new(alloc: Global, names: SharedNames) -> Result<Demux, NoMemory>
        requires { length names < 2 ^ 32 }
        ensures { IfOk result (λ d. d ≡ names) }
    {
        let mut nodes = nodes_of(alloc, names.as_slice())?;
        put_places(alloc, &mut nodes, names.as_slice())?;
        Ok(Demux { names, nodes })
    }

    /// The place of the first name that is equal to this one, counted from 0. It takes no memory,
    /// and reads at most a quarter as many words as the name has octets, rounded up, and one.
    pub fn pick(&self, name: &mut WordName<'_>) -> Option<u32>
        ensures place { result ≡ position_from (bytes_eq name.old.name) 0 self.now }
        ensures name { name.new.name ≡ name.old.name }
        ensures reads { name.new.reads ≤ raised name.old.reads ((length name.old.name + 3) / 4 + 1) }
    {
        name.has_octets();
        sought(self.nodes.as_slice(), name)
    }
}
