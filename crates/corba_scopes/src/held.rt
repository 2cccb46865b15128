//! What is held by keys.

ghost use Rattle.std.specs.Prelude.{◌≡◌, [], OnOk};
ghost use Rattle.indexmap.specs.IndexMap.{insert_entry};
ghost use Rattle.corba_scopes.specs.Parted.{same_key, held_at};

use crate::keys::Key;
use indexmap::IndexMap;
use kit_base::NoMemory;
use std::alloc::Global;
use std::marker::Model;

/// Keys of names, and what is held by them.
#[derive(Drop)]
pub(crate) struct Held<M> {
    table: IndexMap<Key, M>,
}

impl<M> Model for Held<M> {
    ghost use Rattle.std.specs.Prelude.{List, ℕ};
    ghost use Rattle.std.specs.Coded.{codes, coded×, coded_list, coded_ℕ};

    ghost Value = { List ((ℕ × ℕ) × M) };

    ghost coded = { coded_list (coded× (coded× coded_ℕ coded_ℕ) M.code) };

    ghost view = { λ t. t.table.entries };
}

impl<M> Held<M> {
    /// Nothing.
    pub(crate) fn new(alloc: Global) -> Held<M>
        ensures { result ≡ [] }
    {
        Held {
            table: IndexMap::new(alloc),
        }
    }
}

impl<M: Copy> Held<M> {
    /// What is held by a key.
    pub(crate) fn at(&self, key: Key) -> Option<M>
        ensures { result ≡ held_at key self.now }
    {
        self.table.get(&key).copied()
    }

    /// Puts something by a key.
    pub(crate) fn put(&mut self, key: Key, held: M) -> Result<(), NoMemory>
        ensures ok { OnOk result (self.new ≡ insert_entry same_key self.old key held) }
    {
        self.table.insert(key, held)?;
        Ok(())
    }
}
