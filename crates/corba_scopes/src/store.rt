//! What is held of names, and of the scopes around the place of the next declaration.

ghost use Rattle.std.specs.Prelude.{◌≡◌};
ghost use Rattle.corba_scopes.specs.Names.{nothing, here};
ghost use Rattle.corba_scopes.specs.Parted.{scope_of, IsPlace};

use crate::around::Around;
use crate::held::Held;
use crate::keys::Keys;
use crate::lines::Lines;
use crate::meanings::Meaning;
use std::alloc::Global;
use std::marker::Model;

/// What is held of names.
#[derive(Drop)]
pub(crate) struct Store {
    /// The keys of full names, and the numbers of scopes.
    pub(crate) keys: Keys,
    /// What each name stands for.
    pub(crate) table: Held<Meaning>,
    /// The same names with the last identifier in lower case.
    pub(crate) folded: Held<()>,
    /// The lines of interfaces.
    pub(crate) lines: Lines,
    /// The scopes around the place, the innermost last, without that of the file.
    pub(crate) env: Vec<Around>,
}

impl Model for Store {
    ghost use Rattle.std.specs.Coded.{codes};
    ghost use Rattle.corba_scopes.specs.Stored.{Stored, names_by, AreHeld};

    ghost Value = { Stored };

    ghost view = { λ s. record { parts = s.keys; names = names_by s.keys s.table s.folded s.lines s.env.items } };

    ghost invariant = { λ s. AreHeld s.keys s.table s.folded s.lines s.env.items };
}

impl Store {
    /// No names, at a place outside of every definition.
    pub(crate) fn new(alloc: Global) -> Store
        ensures { result.names ≡ nothing }
    {
        Store {
            keys: Keys::new(alloc),
            table: Held::new(alloc),
            folded: Held::new(alloc),
            lines: Lines::new(alloc),
            env: Vec::new(alloc),
        }
    }

    /// The number of the innermost scope.
    pub(crate) fn place(&self) -> usize
        ensures place { IsPlace self.now.parts result }
        ensures scope { scope_of self.now.parts result ≡ here self.now.names }
    {
        match self.env.last() {
            Some(around) => around.place,
            None => self.keys.file(),
        }
    }
}
