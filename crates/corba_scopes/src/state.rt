//! The names of a file, and the place of the next declaration.

ghost use Rattle.std.specs.Prelude.{◌≡◌, ◌++◌, None, option_map, IfOk, OnOk};
ghost use Rattle.idl_names.specs.Answers.{Gives};
ghost use Rattle.corba_scopes.specs.Around.{ids_of};
ghost use Rattle.corba_scopes.specs.Names.{nothing, here, entered, left, clash, declared, declared_on, refused_by};
ghost use Rattle.corba_scopes.specs.Finding.{found, named, meaning, inheriting};

use crate::clashes::refuse_fault;
use crate::meanings::{Found, Meaning};
use crate::store::Store;
use aoi::{FullName, NameErr, NameFault};
use idl_exprs::ScopedName;
use kit_base::NoMemory;
use std::alloc::Global;
use std::marker::Model;
use std::mem::replace;

/// What a name stands for, if it is found.
fn meaning_of(found: Option<Found>) -> Option<Meaning>
    ensures { result ≡ option_map (λ f. f.meaning) found }
{
    Some(found?.meaning)
}

/// The names that a file has declared, each in its scope, and the scopes around the place of the next declaration.
#[derive(Drop)]
pub struct Scopes {
    store: Store,
}

impl Model for Scopes {
    ghost use Rattle.std.specs.Coded.{codes};
    ghost use Rattle.corba_scopes.specs.Names.{Names};

    ghost Value = { Names };

    ghost view = { λ s. s.store.names };
}

impl Scopes {
    /// No names, at a place outside of every definition.
    pub fn new(alloc: Global) -> Scopes
        ensures { result ≡ nothing }
    {
        Scopes {
            store: Store::new(alloc),
        }
    }

    /// Goes to a place inside what is declared by this name here. Where that is out of memory, no name is left.
    pub fn enter(&mut self, alloc: Global, name: &[u8]) -> Result<(), NoMemory>
        ensures ok { OnOk result (self.new ≡ entered name.now self.old) }
    {
        let store = replace(&mut self.store, Store::new(alloc));
        self.store = store.entered(alloc, name)?;
        Ok(())
    }

    /// Goes to a place outside of the innermost scope.
    pub fn leave(&mut self)
        ensures { self.new ≡ left self.old }
    {
        self.store.leave();
    }

    /// The full name of what is declared by this name here.
    pub fn full_name(&self, alloc: Global, name: &[u8]) -> Result<FullName, NoMemory>
        ensures { IfOk result (λ full. full ≡ here self.now ++ name.now) }
    {
        self.store.full_name(alloc, name)
    }

    /// The repository id of what is declared by this name here, with this end.
    pub fn id(&self, alloc: Global, name: &[u8], end: &[u8]) -> Result<FullName, NoMemory>
        ensures { IfOk result (λ id. id ≡ ids_of (here self.now ++ name.now) ++ end.now) }
    {
        self.store.id(alloc, name, end)
    }

    /// Why a name may not be declared here, or nothing.
    pub fn clash(&self, alloc: Global, name: &[u8]) -> Result<Option<NameFault>, NoMemory>
        ensures { IfOk result (λ fault. fault ≡ clash self.now name.now) }
    {
        self.store.clash(alloc, name)
    }

    /// Refuses a name that may not be declared here.
    pub fn refuse_clash(&self, alloc: Global, decl: u32, name: &[u8]) -> Result<(), NameErr>
        ensures { Gives (λ x. x) result (refused_by decl (clash self.now name.now)) }
    {
        let fault = self.clash(alloc, name)?;
        refuse_fault(decl, fault)
    }

    /// Declares a name here that clashes with none. Where that is out of memory, no name is left.
    fn declare(&mut self, alloc: Global, name: &[u8], meaning: Meaning) -> Result<(), NoMemory>
        requires { clash self.old name.now ≡ None }
        ensures { OnOk result (self.new ≡ declared name.now meaning self.old) }
    {
        let store = replace(&mut self.store, Store::new(alloc));
        self.store = store.declared(alloc, name, meaning)?;
        Ok(())
    }

    /// Declares a name here, or refuses it where it clashes. Where that is out of memory, no name is left.
    pub fn declare_new(
        &mut self,
        alloc: Global,
        decl: u32,
        name: &[u8],
        meaning: Meaning,
    ) -> Result<(), NameErr>
        ensures { Gives (λ _. self.new) result (declared_on decl self.old name.now meaning) }
    {
        match self.clash(alloc, name)? {
            Some(fault) => Err(NameErr { fault, decl }),
            None => {
                self.declare(alloc, name, meaning)?;
                Ok(())
            }
        }
    }

    /// Puts the line of one more base after that of the interface by this name here, if the base is declared. Where that is
    /// out of memory, no name is left.
    pub fn inherit(&mut self, alloc: Global, name: &[u8], base: &ScopedName) -> Result<(), NoMemory>
        ensures { OnOk result (self.new ≡ inheriting name.now (named self.old base.now) self.old) }
    {
        if let Some(base) = self.store.named(base) {
            let store = replace(&mut self.store, Store::new(alloc));
            self.store = store.with_base(alloc, name, base.key)?;
        }
        Ok(())
    }

    /// What a name stands for in the innermost scope or, where that is an interface's, in a base.
    pub fn found_here(&self, name: &[u8]) -> Option<Meaning>
        ensures { result ≡ meaning (found self.now (here self.now) name.now) }
    {
        meaning_of(self.store.found(self.store.place(), name))
    }

    /// What a scoped name stands for here, if it stands for something.
    pub fn named(&self, name: &ScopedName) -> Option<Meaning>
        ensures { result ≡ meaning (named self.now name.now) }
    {
        meaning_of(self.store.named(name))
    }
}
