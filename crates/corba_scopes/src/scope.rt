//! A scope.

ghost use Rattle.std.specs.Prelude.{◌≡◌, ◌++◌, [], IfOk};
ghost use Rattle.corba_scopes.specs.Around.{prefix_of, ids_of};

use crate::ids::{add_slashed, ids_of};
use aoi::FullName;
use kit_base::{Name, NoMemory};
use kit_shared::Shared;
use std::alloc::Global;
use std::marker::Model;

/// The most octets of a scope's prefix after its base. A scope that would have more has a base of its own.
const NEAR: usize = 1024;

/// The prefix of a scope. Contracts see the list of its octets.
///
/// What is declared in it keeps only the scope's base, which is kept once for the scopes within it, too: a long name of a
/// module is not kept anew for each scope within the module.
#[derive(Debug, Drop)]
pub(crate) struct Scope {
    /// What the prefix begins with.
    base: Shared<Name>,
    /// The end of the prefix.
    tail: Name,
    /// The prefix of the repository ids of what has the base.
    ids: Shared<Name>,
}

impl Model for Scope {
    ghost use Rattle.std.specs.Prelude.{◌≡◌, ◌++◌, List, ℕ};
    ghost use Rattle.corba_scopes.specs.Around.{ids_of};

    ghost Value = { List ℕ };

    ghost view = { λ s. s.base ++ s.tail };

    ghost invariant = { λ s. s.ids ≡ ids_of s.base };
}

impl Scope {
    /// The scope of the file.
    pub(crate) fn of_file(alloc: Global) -> Result<Scope, NoMemory>
        ensures { IfOk result (λ s. s ≡ []) }
    {
        Ok(Scope {
            base: Shared::new(alloc, Name::new(alloc))?,
            tail: Name::new(alloc),
            ids: Shared::new(alloc, ids_of(alloc, b"")?)?,
        })
    }

    /// The full name of what is declared in the scope.
    pub(crate) fn named(&self, alloc: Global, name: &[u8]) -> Result<FullName, NoMemory>
        ensures { IfOk result (λ full. full ≡ self.now ++ name.now) }
    {
        let mut own = Name::from_slice(alloc, self.tail.as_slice())?;
        own.append(name)?;
        FullName::after(alloc, &self.base, own.as_slice())
    }

    /// The repository id of what is declared in the scope, with this end.
    pub(crate) fn id(&self, alloc: Global, name: &[u8], end: &[u8]) -> Result<FullName, NoMemory>
        ensures { IfOk result (λ id. id ≡ ids_of (self.now ++ name.now) ++ end.now) }
    {
        let mut own = Name::new(alloc);
        add_slashed(&mut own, self.tail.as_slice())?;
        add_slashed(&mut own, name)?;
        own.append(end)?;
        FullName::after(alloc, &self.ids, own.as_slice())
    }

    /// The scope of what is declared by this name in the scope, with the same base.
    fn near(&self, alloc: Global, name: &[u8]) -> Result<Scope, NoMemory>
        ensures { IfOk result (λ s. s ≡ prefix_of (self.now ++ name.now)) }
    {
        let mut tail = Name::from_slice(alloc, self.tail.as_slice())?;
        tail.append(name)?;
        tail.append(b".")?;
        Ok(Scope {
            base: self.base.share()?,
            tail,
            ids: self.ids.share()?,
        })
    }

    /// The prefix of the scope of what is declared by this name in the scope.
    fn whole(&self, alloc: Global, name: &[u8]) -> Result<Name, NoMemory>
        ensures { IfOk result (λ whole. whole ≡ prefix_of (self.now ++ name.now)) }
    {
        let most = self.base.len().saturating_add(self.tail.len());
        let most = most.saturating_add(name.len()).saturating_add(1);
        let mut whole = Name::with_room(alloc, most)?;
        whole.append(self.base.as_slice())?;
        whole.append(self.tail.as_slice())?;
        whole.append(name)?;
        whole.append(b".")?;
        Ok(whole)
    }

    /// The scope of what is declared by this name in the scope, with a base of its own.
    fn far(&self, alloc: Global, name: &[u8]) -> Result<Scope, NoMemory>
        ensures { IfOk result (λ s. s ≡ prefix_of (self.now ++ name.now)) }
    {
        let base = self.whole(alloc, name)?;
        let ids = ids_of(alloc, base.as_slice())?;
        Ok(Scope {
            base: Shared::new(alloc, base)?,
            tail: Name::new(alloc),
            ids: Shared::new(alloc, ids)?,
        })
    }

    /// The scope of what is declared by this name in the scope.
    pub(crate) fn inner(&self, alloc: Global, name: &[u8]) -> Result<Scope, NoMemory>
        ensures { IfOk result (λ s. s ≡ prefix_of (self.now ++ name.now)) }
    {
        if self.tail.len().saturating_add(name.len()) < NEAR {
            return self.near(alloc, name);
        }
        self.far(alloc, name)
    }
}
