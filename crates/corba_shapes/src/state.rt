//! What is declared so far.

ghost use Rattle.std.specs.Prelude.{◌≡◌, ◌<◌, ◌+◌, length, IfOk, IfErr, OnOk};
ghost use Rattle.aoi.specs.Shapes.{seen};
ghost use Rattle.aoi.specs.declared.faults.NameFault.TheVariants.{NoMemory as OutOfMemory};
ghost use Rattle.idl_names.specs.Answers.{Gives};
ghost use Rattle.corba_shapes.specs.Held.{state};
ghost use Rattle.corba_shapes.specs.State.{start, counted, with_type};

use crate::types::TypeList;
use aoi::{NameErr, Raises, Ty};
use corba_scopes::{Meaning, Scopes};
use idl_names::{Tag, Use, count_of, next_decl};
use indexmap::IndexSet;
use mint::kind::Count;
use std::alloc::Global;

/// What is declared so far.
#[derive(Drop)]
pub struct Shapes {
    /// The names.
    pub scopes: Scopes,
    /// The numbers of the items of enums, each after the number of its enum among the types.
    pub labels: IndexSet<(u32, i128)>,
    /// The types, by their full names.
    pub types: TypeList,
    /// The exceptions.
    pub exceptions: Raises,
    /// How many declarations have begun.
    pub count: u32,
}

impl Shapes {
    /// Nothing, before the first declaration.
    pub fn new(alloc: Global) -> Shapes
        ensures { state result ≡ start }
    {
        Shapes {
            scopes: Scopes::new(alloc),
            labels: IndexSet::new(alloc),
            types: TypeList::new(alloc),
            exceptions: Raises::new(alloc),
            count: 0,
        }
    }

    /// Begins the next declaration, and gives its number.
    pub fn next(&mut self) -> Result<u32, NameErr>
        ensures ok { OnOk result (state self.new ≡ counted (state self.old)) }
        ensures number { IfOk result (λ d. d ≡ self.old.count + 1) }
        ensures err { IfErr result (λ e. e.fault ≡ OutOfMemory) }
    {
        let n = next_decl(self.count)?;
        self.count = n;
        Ok(n)
    }

    /// The number of the next type.
    pub(crate) fn next_type(&self) -> Result<u32, NameErr>
        ensures ok { IfOk result (λ k. k ≡ length self.now.types) }
        ensures err { IfErr result (λ e. e.fault ≡ OutOfMemory) }
    {
        count_of(self.types.len())
    }

    /// Puts a type after the others, and declares its name here.
    pub(crate) fn declare_type(
        &mut self,
        alloc: Global,
        d: u32,
        name: &[u8],
        ty: Ty,
        tag: Tag,
        text: Option<Count>,
    ) -> Result<(), NameErr>
        ensures { Gives (λ _. state self.new) result
            (with_type d name.now (seen ty) tag text (state self.old)) }
    {
        let k = self.next_type()?;
        let full = self.scopes.full_name(alloc, name)?;
        let meaning = Meaning::Type(Use::Declared(k, tag), text);
        self.scopes.declare_new(alloc, d, name, meaning)?;
        self.types.add(full, ty)?;
        Ok(())
    }
}
