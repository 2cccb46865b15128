//! Operations that are found by their names.

ghost use Rattle.std.specs.Prelude.{◌≡◌, [], ◌∷◌, ◌++◌, map, length, slice_get, IfOk, OnOk};
ghost use Rattle.std.specs.Option.{is_some};
ghost use Rattle.idl_names.specs.Names.{has};
ghost use Rattle.corba_scopes.specs.Names.{lower};
ghost use Rattle.corba_scopes.specs.Finding.{added};
ghost use Rattle.front_corba.specs.Held.{plain_offer};
ghost use Rattle.front_corba.specs.Offers.{offer_names};
ghost use Rattle.front_corba.specs.Bases.{is_same, is_this, is_there, sought};
ghost use Rattle.front_corba.specs.Named.{declares, with_origin};

use crate::state::Offer;
use indexmap::IndexSet;
use kit_base::{Listed, NoMemory};
use std::alloc::Global;
use std::marker::Model;
use std::mem::replace;

/// Names, each once.
#[derive(Drop)]
struct Names {
    keys: IndexSet<Vec<u8>>,
}

impl Model for Names {
    ghost use Rattle.std.specs.Prelude.{List, ℕ, map};
    ghost use Rattle.std.specs.Coded.{codes};

    ghost Value = { List (List ℕ) };

    ghost view = { λ s. map (λ k. k.items) s.keys.keys };
}

impl Names {
    /// No names.
    fn new(alloc: Global) -> Names
        ensures { result ≡ [] }
    {
        Names {
            keys: IndexSet::new(alloc),
        }
    }

    /// Whether a name is one of them.
    fn has(&self, name: &[u8]) -> bool
        ensures { result ≡ has name.now self.now }
    {
        self.keys.contains(name)
    }

    /// Puts a name after the others, unless it is there.
    fn add(&mut self, name: Vec<u8>) -> Result<(), NoMemory>
        ensures { OnOk result (self.new ≡ added name.items self.old) }
    {
        self.keys.insert(name)?;
        Ok(())
    }
}

/// Names, each with the interface in which it is declared.
#[derive(Drop)]
struct Origins {
    keys: IndexSet<(u32, Vec<u8>)>,
}

impl Model for Origins {
    ghost use Rattle.std.specs.Prelude.{List, ℕ, map};
    ghost use Rattle.std.specs.Coded.{codes};

    ghost Value = { List (ℕ × List ℕ) };

    ghost view = { λ s. map (λ k. (k.0, k.1.items)) s.keys.keys };
}

impl Origins {
    /// No names.
    fn new(alloc: Global) -> Origins
        ensures { result ≡ [] }
    {
        Origins {
            keys: IndexSet::new(alloc),
        }
    }

    /// Where a name of an interface is, if the interface declares it.
    fn place(&self, alloc: Global, home: u32, name: &[u8]) -> Result<Option<usize>, NoMemory>
        ensures { IfOk result (λ place. is_some place ≡ declares home name.now self.now) }
    {
        let key = (home, Vec::from_slice(alloc, name)?);
        Ok(self.keys.get_index_of(&key))
    }

    /// Puts a name of an interface after the others, unless it is there.
    fn add(&mut self, alloc: Global, home: u32, name: &[u8]) -> Result<(), NoMemory>
        ensures { OnOk result (self.new ≡ with_origin home name.now self.old) }
    {
        let key = (home, Vec::from_slice(alloc, name)?);
        self.keys.insert(key)?;
        Ok(())
    }
}

/// Puts the name of an operation into each set.
fn index(
    alloc: Global,
    names: &mut Names,
    folded: &mut Names,
    origins: &mut Origins,
    home: u32,
    name: &[u8],
) -> Result<(), NoMemory>
    ensures exact { OnOk result (names.new ≡ added name.now names.old) }
    ensures small { OnOk result (folded.new ≡ added (lower name.now) folded.old) }
    ensures origin { OnOk result (origins.new ≡ with_origin home name.now origins.old) }
{
    names.add(Vec::from_slice(alloc, name)?)?;
    folded.add(name.to_ascii_lowercase(alloc)?)?;
    origins.add(alloc, home, name)
}

/// Where the next operation of a base is guessed to be: those of a base mostly stand in its order.
#[derive(Drop)]
pub(crate) struct Guess {
    /// The place.
    place: usize,
}

impl Guess {
    /// The first place.
    pub(crate) fn new() -> Guess {
        Guess { place: 0 }
    }

    /// The next operation is guessed after this place.
    fn pass(&mut self, place: usize) {
        self.place = place.saturating_add(1);
    }
}

/// Whether two operations are one: by the interface that declares each, and by their names.
fn is_same(offer: &Offer, other: &Offer) -> bool
    ensures { result ≡ is_same (plain_offer offer.now) (plain_offer other.now) }
{
    other.home == offer.home && other.operation.name.as_slice() == offer.operation.name.as_slice()
}

/// The operations of an interface in order, found by their names.
#[derive(Drop)]
pub(crate) struct Offers {
    /// The operations.
    list: Listed<Offer>,
    /// Their names.
    names: Names,
    /// Their names in lower case.
    folded: Names,
    /// Where they are declared.
    origins: Origins,
}

impl Model for Offers {
    ghost use Rattle.std.specs.Prelude.{List};
    ghost use Rattle.std.specs.Coded.{codes};
    ghost use Rattle.aoi.specs.contracts.types.Ty as t;
    ghost use Rattle.aoi.specs.contracts.types.Field as f;
    ghost use Rattle.front_corba.specs.declared.state.Offer.{Offer};
    ghost use Rattle.front_corba.specs.Named.{IsIndex};

    ghost Value = { List Offer };

    ghost coded = { Prim.hlevel (codes, t.the_row.coded, f.the_row.coded) };

    ghost view = { λ s. s.list };

    ghost invariant = { λ s. IsIndex s.list s.names s.folded s.origins };
}

impl Offers {
    /// No operations.
    pub(crate) fn new(alloc: Global) -> Offers
        ensures { result ≡ [] }
    {
        Offers {
            list: Listed::new(alloc),
            names: Names::new(alloc),
            folded: Names::new(alloc),
            origins: Origins::new(alloc),
        }
    }

    /// How many operations there are.
    pub(crate) fn len(&self) -> usize
        ensures { result ≡ length self.now }
    {
        self.list.len()
    }

    /// The operations.
    pub(crate) fn as_slice(&self) -> &[Offer]
        ensures { result.now ≡ self.now }
    {
        self.list.as_slice()
    }

    /// Whether an operation has the name.
    pub(crate) fn has_name(&self, name: &[u8]) -> bool
        ensures { result ≡ has name.now (offer_names (map plain_offer self.now)) }
    {
        self.names.has(name)
    }

    /// Whether an operation has the name, in lower case.
    pub(crate) fn has_lower(&self, small: &[u8]) -> bool
        ensures { result ≡ has small.now (map lower (offer_names (map plain_offer self.now))) }
    {
        self.folded.has(small)
    }

    /// Whether an operation is the one at a place: by the interface that declares it, and its name.
    fn is_at(&self, place: usize, offer: &Offer) -> bool
        ensures { result ≡ is_this (plain_offer offer.now) (slice_get (map plain_offer self.now) place) }
    {
        match self.list.get(place) {
            Some(other) => is_same(offer, other),
            None => false,
        }
    }

    /// Whether an operation is one of these, if one has its name. It is looked for where it is guessed first, and
    /// its interface only where its name is found.
    pub(crate) fn sought(
        &self,
        alloc: Global,
        guess: &mut Guess,
        offer: &Offer,
    ) -> Result<Option<bool>, NoMemory>
        ensures { IfOk result (λ b. b ≡ sought (plain_offer offer.now) (map plain_offer self.now)) }
    {
        if self.is_at(guess.place, offer) {
            guess.pass(guess.place);
            return Ok(Some(true));
        }
        let name = offer.operation.name.as_slice();
        if !self.has_name(name) {
            return Ok(None);
        }
        match self.origins.place(alloc, offer.home, name)? {
            Some(place) => {
                guess.pass(place);
                Ok(Some(true))
            }
            None => Ok(Some(false)),
        }
    }

    /// Whether an operation is one of these: by the interface that declares it, and its name.
    pub(crate) fn is_there(
        &self,
        alloc: Global,
        guess: &mut Guess,
        offer: &Offer,
    ) -> Result<bool, NoMemory>
        ensures { IfOk result (λ b. b ≡ is_there (plain_offer offer.now) (map plain_offer self.now)) }
    {
        match self.sought(alloc, guess, offer)? {
            Some(there) => Ok(there),
            None => Ok(false),
        }
    }

    /// These, with an operation after them.
    fn extended(self, alloc: Global, offer: Offer) -> Result<Offers, NoMemory>
        ensures { IfOk result (λ r. r ≡ self ++ offer ∷ []) }
    {
        let Offers {
            mut list,
            mut names,
            mut folded,
            mut origins,
        } = self;
        let name = offer.operation.name.as_slice();
        index(
            alloc,
            &mut names,
            &mut folded,
            &mut origins,
            offer.home,
            name,
        )?;
        list.push(offer)?;
        Ok(Offers {
            list,
            names,
            folded,
            origins,
        })
    }

    /// Puts an operation after the others. Where that is out of memory, no operation is left.
    pub(crate) fn push(&mut self, alloc: Global, offer: Offer) -> Result<(), NoMemory>
        ensures ok { OnOk result (self.new ≡ self.old ++ offer ∷ []) }
    {
        let held = replace(self, Offers::new(alloc));
        *self = held.extended(alloc, offer)?;
        Ok(())
    }
}
