//! The repository ids of an operation's exceptions, which are found.

ghost use Rattle.std.specs.Prelude.{◌≡◌, ◌+◌, ◌<◌, ◌^◌, length, IfOk, IfSome};
ghost use Rattle.std.specs.List.{position_from};
ghost use Rattle.std.specs.Str.{bytes_eq};
ghost use Rattle.back_cdr.specs.Offered.{IsListed, number_in};

use crate::numbered::Numbered;
use aoi::{FullName, FullNames};
use kit_base::NoMemory;
use kit_shared::{Shared, SharedNames};
use std::alloc::Global;
use std::marker::Model;

/// The octets of the longest name that is found by its words.
const LONGEST: usize = 128;

/// Names in order, numbered from 1. One is found by a tree, or one by one where a name is long: a tree has a node for
/// each word of a name.
#[derive(Drop)]
pub(crate) struct Listing {
    names: FullNames,
    tree: Option<Numbered>,
}

impl Model for Listing {
    ghost use Rattle.back_cdr.specs.Offered.{IsListed, Offered};

    ghost Value = { Offered };

    ghost view = { λ l. record { first = 1; names = l.names } };

    ghost invariant = { λ l. IsListed l.names l.tree };
}

/// Whether a name is long.
fn has_long(names: &[Shared<FullName>]) -> bool {
    for name in names {
        if name.get().is_longer(LONGEST) {
            return true;
        }
    }
    false
}

/// The same names, each in one piece.
fn wholes(alloc: Global, names: &[Shared<FullName>]) -> Result<SharedNames, NoMemory>
    ensures { IfOk result (λ ns. ns ≡ names.now) }
{
    let mut all = SharedNames::new(alloc);
    for name in names {
        all.push(Shared::new(alloc, name.get().whole(alloc)?)?)?;
    }
    Ok(all)
}

/// A tree of names, unless one is long.
fn tree_of(alloc: Global, names: &[Shared<FullName>]) -> Result<Option<Numbered>, NoMemory>
    requires { length names.now + 1 < 2 ^ 32 }
    ensures { IfOk result (λ tree. IsListed names.now tree) }
{
    if has_long(names) {
        return Ok(None);
    }
    let tree = Numbered::of(alloc, 1, wholes(alloc, names)?)?;
    Ok(Some(tree))
}

/// The place of the first of these names that is equal to this one, counted from 0.
fn place_of(names: &[Shared<FullName>], name: &[u8]) -> Option<u32>
    requires { length names.now + 1 < 2 ^ 32 }
    ensures place { result ≡ position_from (bytes_eq name.now) 0 names.now }
    ensures few { IfSome result (λ n. n < length names.now) }
{
    let mut place = 0;
    for other in names {
        if other.get().is(name) {
            return Some(place);
        }
        place += 1;
    }
    None
}

/// The number of the first of these names that is equal to this one.
fn number_among(names: &[Shared<FullName>], name: &[u8]) -> Option<u32>
    requires { length names.now + 1 < 2 ^ 32 }
    ensures { result ≡ number_in (record { first = 1; names = names.now }) name.now }
{
    match place_of(names, name) {
        Some(place) => Some(1 + place),
        None => None,
    }
}

impl Listing {
    /// Names in order.
    pub(crate) fn of(alloc: Global, names: FullNames) -> Result<Listing, NoMemory>
        ensures { IfOk result (λ l. l ≡ record { first = 1; names = names }) }
    {
        if names.len() > 4_294_967_290 {
            return Err(NoMemory);
        }
        let tree = tree_of(alloc, names.as_slice())?;
        Ok(Listing { names, tree })
    }

    /// The number of the first such name.
    pub(crate) fn number(&self, name: &[u8]) -> Option<u32>
        ensures { result ≡ number_in self.now name.now }
    {
        match &self.tree {
            Some(tree) => tree.number(name),
            None => number_among(self.names.as_slice(), name),
        }
    }
}
