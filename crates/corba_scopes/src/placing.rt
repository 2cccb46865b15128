//! How the place of the next declaration moves, and the full names and ids at a place.

ghost use Rattle.std.specs.Prelude.{◌≡◌, [], ◌∷◌, ◌++◌, IfOk, OnOk};
ghost use Rattle.corba_scopes.specs.Around.{prefix_of, ids_of};
ghost use Rattle.corba_scopes.specs.Names.{here, entered, left};

use crate::around::Around;
use crate::ids::ids_of;
use crate::scope::Scope;
use crate::store::Store;
use aoi::FullName;
use kit_base::{Name, NoMemory};
use std::alloc::Global;

/// Puts a scope after those around it.
fn put_around(env: &mut Vec<Around>, scope: Scope, place: usize) -> Result<(), NoMemory>
    ensures { OnOk result (env.new.items ≡ env.old.items ++ record { scope = scope; place = place } ∷ []) }
{
    env.push(Around { scope, place })?;
    Ok(())
}

impl Store {
    /// The full name of what is declared by this name here.
    pub(crate) fn full_name(&self, alloc: Global, name: &[u8]) -> Result<FullName, NoMemory>
        ensures { IfOk result (λ full. full ≡ here self.now.names ++ name.now) }
    {
        match self.env.last() {
            Some(around) => around.scope.named(alloc, name),
            None => Ok(FullName::of(Name::from_slice(alloc, name)?)),
        }
    }

    /// The repository id of what is declared by this name here, with this end.
    pub(crate) fn id(&self, alloc: Global, name: &[u8], end: &[u8]) -> Result<FullName, NoMemory>
        ensures { IfOk result (λ id. id ≡ ids_of (here self.now.names ++ name.now) ++ end.now) }
    {
        match self.env.last() {
            Some(around) => around.scope.id(alloc, name, end),
            None => {
                let mut id = ids_of(alloc, name)?;
                id.append(end)?;
                Ok(FullName::of(id))
            }
        }
    }

    /// The scope of what is declared by this name here.
    fn inner(&self, alloc: Global, name: &[u8]) -> Result<Scope, NoMemory>
        ensures { IfOk result (λ scope. scope ≡ prefix_of (here self.now.names ++ name.now)) }
    {
        match self.env.last() {
            Some(around) => around.scope.inner(alloc, name),
            None => Scope::of_file(alloc)?.inner(alloc, name),
        }
    }

    /// These at a place inside what is declared by this name here.
    pub(crate) fn entered(self, alloc: Global, name: &[u8]) -> Result<Store, NoMemory>
        ensures { IfOk result (λ s. s.names ≡ entered name.now self.names) }
    {
        let scope = self.inner(alloc, name)?;
        let place = self.place();
        let Store {
            keys,
            table,
            folded,
            lines,
            mut env,
        } = self;
        match keys.with_scope(alloc, place, name) {
            Ok((keys, place)) => match put_around(&mut env, scope, place) {
                Ok(()) => Ok(Store {
                    keys,
                    table,
                    folded,
                    lines,
                    env,
                }),
                Err(out) => Err(out),
            },
            Err(out) => Err(out),
        }
    }

    /// Goes to a place outside of the innermost scope.
    pub(crate) fn leave(&mut self)
        ensures { self.new.names ≡ left self.old.names }
    {
        self.env.pop();
    }
}
