//! How names are found.

ghost use Rattle.std.specs.Prelude.{◌≡◌, ◌++◌, map, option_map, IfSome};
ghost use Rattle.corba_scopes.specs.Around.{prefix_of};
ghost use Rattle.corba_scopes.specs.Finding.{entry_at, first_in, found, sought, within, first, named};
ghost use Rattle.corba_scopes.specs.Parted.{full_of, scope_of, IsKey, IsPlace, ArePlaces};
ghost use Rattle.corba_scopes.specs.Stored.{entry_of, scopes_around, AreAround};

use crate::around::Around;
use crate::meanings::Found;
use crate::store::Store;
use idl_exprs::{Identifier, ScopedName};

impl Store {
    /// A name that is declared in a scope itself.
    fn at(&self, place: usize, name: &[u8]) -> Option<Found>
        requires { IsPlace self.now.parts place }
        ensures entry { option_map (entry_of self.now.parts) result
            ≡ entry_at self.now.names (scope_of self.now.parts place ++ name.now) }
        ensures key { IfSome result (λ f. IsKey self.now.parts f.key) }
    {
        let key = self.keys.key(place, name)?;
        let meaning = self.table.at(key)?;
        Some(Found { key, meaning })
    }

    /// A name in the first of these scopes in which it is declared.
    fn along(&self, places: &[usize], name: &[u8]) -> Option<Found>
        requires { ArePlaces self.now.parts places.now }
        ensures entry { option_map (entry_of self.now.parts) result
            ≡ first_in self.now.names name.now (map (scope_of self.now.parts) places.now) }
        ensures key { IfSome result (λ f. IsKey self.now.parts f.key) }
    {
        match places {
            [place, rest @ ..] => match self.at(*place, name) {
                Some(found) => Some(found),
                None => self.along(rest, name),
            },
            [] => None,
        }
    }

    /// A name in a scope or, where that is an interface's, in a base.
    pub(crate) fn found(&self, place: usize, name: &[u8]) -> Option<Found>
        requires { IsPlace self.now.parts place }
        ensures entry { option_map (entry_of self.now.parts) result
            ≡ found self.now.names (scope_of self.now.parts place) name.now }
        ensures key { IfSome result (λ f. IsKey self.now.parts f.key) }
    {
        match self.lines.line(place) {
            Some(line) => self.along(line.as_slice(), name),
            None => self.at(place, name),
        }
    }

    /// A name in the innermost of the scopes around a place in which it is found, the first of which is in that of the file.
    fn sought(&self, env: &[Around], name: &[u8]) -> Option<Found>
        requires { AreAround self.now.parts env.now }
        ensures entry { option_map (entry_of self.now.parts) result
            ≡ sought self.now.names (scopes_around env.now) name.now }
        ensures key { IfSome result (λ f. IsKey self.now.parts f.key) }
    {
        match env {
            [outer @ .., around] => match self.found(around.place, name) {
                Some(found) => Some(found),
                None => self.sought(outer, name),
            },
            [] => self.found(self.keys.file(), name),
        }
    }

    /// A name in the scope of what is found.
    fn inside(&self, outer: Found, name: &[u8]) -> Option<Found>
        requires { IsKey self.now.parts outer.key }
        ensures entry { option_map (entry_of self.now.parts) result
            ≡ found self.now.names (prefix_of (full_of self.now.parts outer.key)) name.now }
        ensures key { IfSome result (λ f. IsKey self.now.parts f.key) }
    {
        let place = self.keys.scope_after(outer.key)?;
        self.found(place, name)
    }

    /// Identifiers after a name, each found in the scope into which what is before it leads.
    fn within(&self, outer: Option<Found>, parts: &[Identifier]) -> Option<Found>
        requires { IfSome outer (λ f. IsKey self.now.parts f.key) }
        ensures entry { option_map (entry_of self.now.parts) result
            ≡ within self.now.names (option_map (entry_of self.now.parts) outer) parts.now }
        ensures key { IfSome result (λ f. IsKey self.now.parts f.key) }
    {
        let outer = outer?;
        match parts {
            [part, rest @ ..] => self.within(self.inside(outer, part.name.as_slice()), rest),
            [] => Some(outer),
        }
    }

    /// The first identifier of a scoped name: with `::` before it, it is one of the file.
    fn first(&self, absolute: bool, name: &[u8]) -> Option<Found>
        ensures entry { option_map (entry_of self.now.parts) result ≡ first self.now.names absolute name.now }
        ensures key { IfSome result (λ f. IsKey self.now.parts f.key) }
    {
        if absolute {
            return self.found(self.keys.file(), name);
        }
        self.sought(self.env.as_slice(), name)
    }

    /// What a scoped name names here, if it names something.
    pub(crate) fn named(&self, name: &ScopedName) -> Option<Found>
        ensures entry { option_map (entry_of self.now.parts) result ≡ named self.now.names name.now }
        ensures key { IfSome result (λ f. IsKey self.now.parts f.key) }
    {
        match name.parts.as_slice() {
            [part, rest @ ..] => {
                let outer = self.first(name.absolute, part.name.as_slice());
                self.within(outer, rest)
            }
            [] => None,
        }
    }
}
