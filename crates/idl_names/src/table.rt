//! Names of one place, each with what it stands for.

ghost use Rattle.std.specs.Prelude.{◌≡◌, [], ◌∷◌, ◌++◌, false, OnOk};
ghost use Rattle.idl_names.specs.Names.{is_declared, meaning_of};

use indexmap::IndexMap;
use kit_base::NoMemory;
use std::alloc::Global;
use std::marker::Model;

/// Names in the order of their declarations, each different from the others, with what each stands for.
#[derive(Drop)]
pub struct Table<M> {
    meanings: IndexMap<Vec<u8>, M>,
}

impl<M> Model for Table<M> {
    ghost use Rattle.std.specs.Prelude.{List, ℕ, map};
    ghost use Rattle.std.specs.Coded.{codes, coded×, coded_list, coded_ℕ};

    ghost Value = { List (List ℕ × M) };

    ghost coded = { coded_list (coded× (coded_list coded_ℕ) M.code) };

    ghost view = { λ t. map (λ e. (e.0.items, e.1)) t.meanings.entries };
}

impl<M> Table<M> {
    /// No names.
    pub fn new(alloc: Global) -> Table<M>
        ensures { result ≡ [] }
    {
        Table {
            meanings: IndexMap::new(alloc),
        }
    }
}

impl<M: Copy> Table<M> {
    /// Whether a name is declared.
    pub fn has(&self, name: &[u8]) -> bool
        ensures { result ≡ is_declared name.now self.now }
    {
        self.meanings.contains_key(name)
    }

    /// What a name stands for, if it is declared.
    pub fn meaning(&self, name: &[u8]) -> Option<M>
        ensures { result ≡ meaning_of name.now self.now }
    {
        self.meanings.get(name).copied()
    }

    /// Declares a name.
    pub fn declare(&mut self, alloc: Global, name: &[u8], meaning: M) -> Result<(), NoMemory>
        requires { is_declared name.now self.old ≡ false }
        ensures ok { OnOk result (self.new ≡ self.old ++ (name.now, meaning) ∷ []) }
    {
        let key = Vec::from_slice(alloc, name)?;
        self.meanings.insert(key, meaning)?;
        Ok(())
    }
}
