//! How a name is declared.

ghost use Rattle.std.specs.Prelude.{◌≡◌, ◌++◌, None, IfOk, OnOk};
ghost use Rattle.idl_names.specs.Names.{has, is_declared};
ghost use Rattle.corba_scopes.specs.Names.{lower, clash, declared};
ghost use Rattle.corba_scopes.specs.Parted.{same_key, scope_of, IsPlace};
ghost use Rattle.indexmap.specs.IndexMap.{insert_entry};

use crate::held::Held;
use crate::keys::Key;
use crate::meanings::Meaning;
use crate::store::Store;
use aoi::NameFault;
use kit_base::NoMemory;
use std::alloc::Global;

/// An identifier with its letters in lower case.
fn lower(alloc: Global, name: &[u8]) -> Result<Vec<u8>, NoMemory>
    ensures { IfOk result (λ key. key.items ≡ lower name.now) }
{
    Ok(name.to_ascii_lowercase(alloc)?)
}

/// Puts what a name stands for by its key, and the name in lower case by its own.
fn put_both(
    table: &mut Held<Meaning>,
    folded: &mut Held<()>,
    key: Key,
    below: Key,
    meaning: Meaning,
) -> Result<(), NoMemory>
    ensures table { OnOk result (table.new ≡ insert_entry same_key table.old key meaning) }
    ensures folded { OnOk result (folded.new ≡ insert_entry same_key folded.old below tt) }
{
    table.put(key, meaning)?;
    folded.put(below, ())
}

impl Store {
    /// Whether a name of a scope is declared.
    fn has(&self, place: usize, name: &[u8]) -> bool
        requires { IsPlace self.now.parts place }
        ensures { result ≡ is_declared (scope_of self.now.parts place ++ name.now) self.now.names.meanings }
    {
        match self.keys.key(place, name) {
            Some(key) => self.table.at(key).is_some(),
            None => false,
        }
    }

    /// Whether a name of a scope is declared, in lower case.
    fn has_small(&self, place: usize, small: &[u8]) -> bool
        requires { IsPlace self.now.parts place }
        ensures { result ≡ has (scope_of self.now.parts place ++ small.now) self.now.names.folded }
    {
        match self.keys.key(place, small) {
            Some(key) => self.folded.at(key).is_some(),
            None => false,
        }
    }

    /// Why a name may not be declared here, or nothing.
    pub(crate) fn clash(&self, alloc: Global, name: &[u8]) -> Result<Option<NameFault>, NoMemory>
        ensures { IfOk result (λ fault. fault ≡ clash self.now.names name.now) }
    {
        let place = self.place();
        if self.has(place, name) {
            return Ok(Some(NameFault::Twice));
        }
        if self.has_small(place, lower(alloc, name)?.as_slice()) {
            return Ok(Some(NameFault::CaseClash));
        }
        Ok(None)
    }

    /// These, with a name here that clashes with none of them.
    pub(crate) fn declared(
        self,
        alloc: Global,
        name: &[u8],
        meaning: Meaning,
    ) -> Result<Store, NoMemory>
        requires { clash self.names name.now ≡ None }
        ensures { IfOk result (λ s. s.names ≡ declared name.now meaning self.names) }
    {
        let small = lower(alloc, name)?;
        let place = self.place();
        let Store {
            keys,
            mut table,
            mut folded,
            lines,
            env,
        } = self;
        match keys.with_both(alloc, place, name, small.as_slice()) {
            Ok((keys, key, below)) => match put_both(&mut table, &mut folded, key, below, meaning) {
                Ok(()) => Ok(Store {
                    keys,
                    table,
                    folded,
                    lines,
                    env,
                }),
                Err(out) => Err(out),
            },
            Err(out) => Err(out),
        }
    }
}
