//! The keys of full names: the number of their scope, and that of the own part after its prefix.

ghost use Rattle.std.specs.Prelude.{◌≡◌, ℕ, List, [], ◌∷◌, ◌++◌, length, None, Some, IfOk};
ghost use Rattle.corba_scopes.specs.Around.{prefix_of};
ghost use Rattle.corba_scopes.specs.Parted.{cut, number_of, key_of, full_of, scope_of, IsKey, IsPlace, PutsKey, PutsScope, PutsScopes, PutsBoth};

use crate::prefixes::cut;
use crate::texts::Texts;
use indexmap::IndexSet;
use kit_base::NoMemory;
use std::alloc::Global;
use std::marker::Model;

/// The number of a scope, and that of an own part.
pub(crate) type Key = (usize, usize);

/// The parts of full names by their numbers.
#[derive(Drop)]
pub(crate) struct Keys {
    /// Own parts.
    owns: Texts,
    /// The keys of what has scopes: the key at k is of what has the scope k + 1, since that of the file is 0.
    scopes: IndexSet<Key>,
}

impl Model for Keys {
    ghost use Rattle.std.specs.Coded.{codes};
    ghost use Rattle.corba_scopes.specs.Parted.{Parts, parts_of, AreScopes};

    ghost Value = { Parts };

    ghost view = { λ s. parts_of s.owns s.scopes.keys };

    ghost invariant = { λ s. AreScopes (parts_of s.owns s.scopes.keys) s.scopes.keys };
}

impl Keys {
    /// No own parts, and the scope of the file.
    pub(crate) fn new(alloc: Global) -> Keys
        ensures { result ≡ record { prefixes = [] ∷ []; owns = [] } }
    {
        Keys {
            owns: Texts::new(alloc),
            scopes: IndexSet::new(alloc),
        }
    }

    /// The number of the file's scope.
    pub(crate) fn file(&self) -> usize
        ensures place { IsPlace self.now result }
        ensures scope { scope_of self.now result ≡ [] }
    {
        let _scopes = &self.scopes;
        0
    }

    /// The number of the scope of what has a key, if it has one.
    pub(crate) fn scope_after(&self, key: Key) -> Option<usize>
        requires { IsKey self.now key }
        ensures value { result ≡ number_of (prefix_of (full_of self.now key)) self.now.prefixes }
        ensures none { result ≡ None → (name : List ℕ) →
            key_of (prefix_of (full_of self.now key) ++ name) self.now ≡ None }
    {
        // There are fewer than 2^63 scopes, by this call's contract.
        let _known = self.scopes.len();
        let before = self.scopes.get_index_of(&key)?;
        Some(before + 1)
    }

    /// The key of what is declared by this name in a scope, if its parts have numbers.
    #[cycle(key_in)]
    pub(crate) fn key(&self, place: usize, name: &[u8]) -> Option<Key>
        requires { IsPlace self.now place }
        ensures { result ≡ key_of (scope_of self.now place ++ name.now) self.now }
    {
        let (front, own) = name.split_at(cut(name));
        let own = self.owns.number(own)?;
        let place = self.scope_in(place, front)?;
        Some((place, own))
    }

    /// The number of the scope whose prefix is that of another scope with some octets, up to a dot, after it.
    #[cycle(key_in)]
    fn scope_in(&self, place: usize, front: &[u8]) -> Option<usize>
        requires place { IsPlace self.now place }
        requires front { cut front.now ≡ length front.now }
        ensures { result ≡ number_of (scope_of self.now place ++ front.now) self.now.prefixes }
    {
        let _scopes = &self.scopes;
        match front {
            [name @ .., _] => self.scope_after(self.key(place, name)?),
            [] => Some(place),
        }
    }

    /// These with one more scope.
    fn with_next(self, key: Key) -> Result<(Keys, usize), NoMemory>
        requires key { IsKey self key }
        requires none { number_of (prefix_of (full_of self key)) self.prefixes ≡ None }
        ensures { IfOk result (λ r. PutsScope (prefix_of (full_of self key)) self r.0 r.1) }
    {
        let Keys { owns, mut scopes } = self;
        scopes.insert(key)?;
        let place = scopes.len();
        Ok((Keys { owns, scopes }, place))
    }

    /// These with the scope of what has a key, and its number.
    pub(crate) fn with_scope_after(self, key: Key) -> Result<(Keys, usize), NoMemory>
        requires { IsKey self key }
        ensures { IfOk result (λ r. PutsScope (prefix_of (full_of self key)) self r.0 r.1) }
    {
        match self.scope_after(key) {
            Some(place) => Ok((self, place)),
            None => self.with_next(key),
        }
    }

    /// These with an own part without dots, and its key in a scope.
    fn with_own(self, alloc: Global, place: usize, own: &[u8]) -> Result<(Keys, Key), NoMemory>
        requires place { IsPlace self place }
        requires own { cut own.now ≡ 0 }
        ensures { IfOk result (λ r. PutsKey (scope_of self place ++ own.now) self r.0 r.1) }
    {
        let Keys { owns, scopes } = self;
        let (owns, own) = owns.with(alloc, own)?;
        Ok((Keys { owns, scopes }, (place, own)))
    }

    /// These with the parts of what is declared by this name in a scope, and its key.
    #[cycle(with_name)]
    fn with(self, alloc: Global, place: usize, name: &[u8]) -> Result<(Keys, Key), NoMemory>
        requires { IsPlace self place }
        ensures { IfOk result (λ r. PutsKey (scope_of self place ++ name.now) self r.0 r.1) }
    {
        let (front, own) = name.split_at(cut(name));
        let (keys, place) = self.with_scope_in(alloc, place, front)?;
        keys.with_own(alloc, place, own)
    }

    /// These with the scope whose prefix is that of another scope with some octets, up to a dot, after it.
    #[cycle(with_name)]
    fn with_scope_in(
        self,
        alloc: Global,
        place: usize,
        front: &[u8],
    ) -> Result<(Keys, usize), NoMemory>
        requires place { IsPlace self place }
        requires front { cut front.now ≡ length front.now }
        ensures { IfOk result (λ r. PutsScope (scope_of self place ++ front.now) self r.0 r.1) }
    {
        match front {
            [name @ .., _] => {
                let (keys, key) = self.with(alloc, place, name)?;
                keys.with_scope_after(key)
            }
            [] => Ok((self, place)),
        }
    }

    /// These with the scope of what is declared by this name in a scope, and its number.
    pub(crate) fn with_scope(
        self,
        alloc: Global,
        place: usize,
        name: &[u8],
    ) -> Result<(Keys, usize), NoMemory>
        requires { IsPlace self place }
        ensures { IfOk result (λ r. PutsScope (prefix_of (scope_of self place ++ name.now)) self r.0 r.1) }
    {
        let (keys, key) = self.with(alloc, place, name)?;
        keys.with_scope_after(key)
    }

    /// These with the scope of what is declared by this name in a scope, and that of what has a key, and their numbers.
    pub(crate) fn with_scopes(
        self,
        alloc: Global,
        place: usize,
        name: &[u8],
        other: Key,
    ) -> Result<(Keys, usize, usize), NoMemory>
        requires place { IsPlace self place }
        requires other { IsKey self other }
        ensures { IfOk result (λ r. PutsScopes (prefix_of (scope_of self place ++ name.now))
            (prefix_of (full_of self other)) self r.0 r.1 r.2) }
    {
        let (keys, place) = self.with_scope(alloc, place, name)?;
        let (keys, other) = keys.with_scope_after(other)?;
        Ok((keys, place, other))
    }

    /// These with the parts of one more name of a scope, and its key: that of the other, where both are the same.
    fn with_other(
        self,
        alloc: Global,
        place: usize,
        name: &[u8],
        key: Key,
        other: &[u8],
    ) -> Result<(Keys, Key), NoMemory>
        requires place { IsPlace self place }
        requires key { key_of (scope_of self place ++ name.now) self ≡ Some key }
        ensures { IfOk result (λ r. PutsKey (scope_of self place ++ other.now) self r.0 r.1) }
    {
        if other == name {
            return Ok((self, key));
        }
        self.with(alloc, place, other)
    }

    /// These with the parts of two names of a scope, and their keys.
    pub(crate) fn with_both(
        self,
        alloc: Global,
        place: usize,
        name: &[u8],
        other: &[u8],
    ) -> Result<(Keys, Key, Key), NoMemory>
        requires { IsPlace self place }
        ensures { IfOk result (λ r.
            PutsBoth (scope_of self place ++ name.now) (scope_of self place ++ other.now) self r.0 r.1 r.2) }
    {
        let (keys, key) = self.with(alloc, place, name)?;
        let (keys, below) = keys.with_other(alloc, place, name, key, other)?;
        Ok((keys, key, below))
    }
}
