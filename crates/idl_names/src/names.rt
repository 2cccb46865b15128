//! Names of one place.

ghost use Rattle.std.specs.Prelude.{◌≡◌, [], ◌∷◌, ◌++◌, false, OnOk};
ghost use Rattle.idl_names.specs.Names.{has};

use indexmap::IndexSet;
use kit_base::NoMemory;
use std::alloc::Global;
use std::marker::Model;

/// Names of one place, each different from the others, in their order.
#[derive(Drop)]
pub struct Names {
    names: IndexSet<Vec<u8>>,
}

impl Model for Names {
    ghost use Rattle.std.specs.Prelude.{List, ℕ, map};
    ghost use Rattle.std.specs.Coded.{codes};

    ghost Value = { List (List ℕ) };

    ghost view = { λ s. map (λ n. n.items) s.names.keys };
}

impl Names {
    /// No names.
    pub fn new(alloc: Global) -> Names
        ensures { result ≡ [] }
    {
        Names {
            names: IndexSet::new(alloc),
        }
    }

    /// Whether a name is one of them.
    pub fn has(&self, name: &[u8]) -> bool
        ensures { result ≡ has name.now self.now }
    {
        self.names.contains(name)
    }

    /// Puts a name after the others.
    pub fn push(&mut self, alloc: Global, name: &[u8]) -> Result<(), NoMemory>
        requires { has name.now self.old ≡ false }
        ensures ok { OnOk result (self.new ≡ self.old ++ name.now ∷ []) }
    {
        let mut key = Vec::new(alloc);
        key.extend_from_slice(name)?;
        self.names.insert(key)?;
        Ok(())
    }
}
