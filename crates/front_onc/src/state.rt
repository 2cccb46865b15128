//! What is declared so far.

ghost use Rattle.std.specs.Prelude.{◌≡◌, ◌<◌, ◌≤◌, ◌+◌, false, length, IfOk, IfErr, OnOk};
ghost use Rattle.kit_base.specs.Limits.{most_interfaces, most_operations};
ghost use Rattle.aoi.specs.Shapes.{seen};
ghost use Rattle.aoi.specs.Plain.{plain_interface};
ghost use Rattle.idl_names.specs.Answers.{Gives};
ghost use Rattle.idl_names.specs.Names.{is_declared};
ghost use Rattle.front_onc.specs.Held.{state};
ghost use Rattle.front_onc.specs.Programs.{offered};
ghost use Rattle.front_onc.specs.Resolved.{start};
ghost use Rattle.front_onc.specs.State.{counted, declared, with_type};
ghost use Rattle.front_onc.specs.Enums.{with_label};
ghost use Rattle.aoi.specs.declared.faults.NameFault.TheVariants.{NoMemory as OutOfMemory};

use crate::meaning::Scope;
use crate::{Meaning, NameErr, NameFault, Tag, Use};
use aoi::{Interface, Ty, Unit, UnitErr};
use idl_names::{add_label, add_type, count_of, fault, next_decl, want};
use indexmap::IndexSet;
use kit_base::NoMemory;
use std::alloc::Global;
use std::marker::Model;

/// The names, the numbers of the enums, the unit, how many versions its programs have, and how many
/// declarations there are.
#[derive(Drop)]
pub(crate) struct Resolver {
    scope: Scope,
    labels: IndexSet<(u32, i128)>,
    unit: Unit,
    versions: usize,
    count: u32,
}

impl Model for Resolver {
    ghost use Rattle.std.specs.Prelude.{◌≤◌, length};
    ghost use Rattle.front_onc.specs.Held.{Held};
    ghost use Rattle.std.specs.Coded.{codes};
    ghost use Rattle.aoi.specs.contracts.types.Ty as t;
    ghost use Rattle.aoi.specs.contracts.types.Field as f;

    ghost Value = { Held };

    ghost coded = { Prim.hlevel (codes, t.the_row.coded, f.the_row.coded) };

    ghost view = { λ r. record { scope = r.scope; labels = r.labels.keys; unit = r.unit; versions = r.versions; count = r.count } };

    ghost invariant = { λ r. length r.unit.interfaces ≤ r.versions };
}

impl Resolver {
    /// The state over these names, before the first declaration.
    pub(crate) fn over(alloc: Global, scope: Scope) -> Resolver
        ensures { state result ≡ record start { scope = scope } }
    {
        Resolver {
            scope,
            labels: IndexSet::new(alloc),
            unit: Unit::new(alloc),
            versions: 0,
            count: 0,
        }
    }

    /// The names.
    pub(crate) fn scope(&self) -> &Scope
        ensures { result.now ≡ self.now.scope }
    {
        &self.scope
    }

    /// Begins the next declaration, and gives its number.
    pub(crate) fn next(&mut self) -> Result<u32, NameErr>
        ensures ok { OnOk result (state self.new ≡ counted (state self.old)) }
        ensures number { IfOk result (λ d. d ≡ self.old.count + 1) }
        ensures scope { self.new.scope ≡ self.old.scope }
        ensures versions { self.new.versions ≡ self.old.versions }
        ensures err { IfErr result (λ e. e.fault ≡ OutOfMemory) }
    {
        let n = next_decl(self.count)?;
        self.count = n;
        Ok(n)
    }

    /// Declares a name.
    pub(crate) fn declare(
        &mut self,
        alloc: Global,
        name: &[u8],
        meaning: Meaning,
    ) -> Result<(), NameErr>
        requires { is_declared name.now self.old.scope ≡ false }
        ensures ok { OnOk result (state self.new ≡ declared name.now meaning (state self.old)) }
        ensures err { IfErr result (λ e. e.fault ≡ OutOfMemory) }
    {
        self.scope.declare(alloc, name, meaning)?;
        Ok(())
    }

    /// Appends a type, and declares its name.
    pub(crate) fn declare_type(
        &mut self,
        alloc: Global,
        name: &[u8],
        ty: Ty,
        tag: Tag,
    ) -> Result<(), NameErr>
        requires { is_declared name.now self.old.scope ≡ false }
        ensures ok { OnOk result (state self.new ≡ with_type name.now (seen ty) tag (state self.old)) }
        ensures err { IfErr result (λ e. e.fault ≡ OutOfMemory) }
    {
        let k = add_type(alloc, &mut self.unit, name, ty)?;
        self.scope
            .declare(alloc, name, Meaning::Type(Use::Declared(k, tag)))?;
        Ok(())
    }

    /// The number of the next type.
    pub(crate) fn next_type(&self) -> Result<u32, NameErr>
        ensures ok { IfOk result (λ k. k ≡ length self.now.unit.types) }
        ensures err { IfErr result (λ e. e.fault ≡ OutOfMemory) }
    {
        count_of(self.unit.types().len())
    }

    /// How many numbers the enums have.
    pub(crate) fn count_labels(&self) -> usize
        ensures { result ≡ length self.now.labels }
    {
        self.labels.len()
    }

    /// The numbers that the enums have.
    pub(crate) fn labels(&self) -> &IndexSet<(u32, i128)>
        ensures { result.now.keys ≡ self.now.labels }
    {
        &self.labels
    }

    /// Makes a number one of the k-th type's; those of other enums come before the place.
    pub(crate) fn label(&mut self, d: u32, k: u32, place: usize, n: i128) -> Result<(), NameErr>
        ensures { Gives (λ _. state self.new) result (with_label d k place (state self.old) n) }
    {
        add_label(&mut self.labels, d, k, place, n)
    }

    /// How many versions there are.
    pub(crate) fn versions(&self) -> usize
        ensures { result ≡ self.now.versions }
    {
        self.versions
    }

    /// Passes over a version whose program has no number.
    pub(crate) fn pass_version(&mut self)
        requires { self.old.versions < most_interfaces }
        ensures passed { state self.new ≡ record (state self.old) { versions = self.old.versions + 1 } }
        ensures scope { self.new.scope ≡ self.old.scope }
    {
        self.versions += 1;
    }

    /// Appends an interface.
    pub(crate) fn offer(&mut self, d: u32, i: Interface) -> Result<(), NameErr>
        requires place { self.old.versions < most_interfaces }
        requires few { length i.ops ≤ most_operations }
        ensures value { Gives (λ _. state self.new) result (offered d (plain_interface i) (state self.old)) }
        ensures scope { self.new.scope ≡ self.old.scope }
    {
        match self.unit.add_interface(i) {
            Ok(()) => {
                self.versions += 1;
                Ok(())
            }
            Err(UnitErr::Twice) => Err(fault(NameFault::Twice, d)),
            Err(UnitErr::Many) => unreachable!(),
            Err(UnitErr::NoMemory) => Err(want()),
        }
    }

    /// The unit.
    pub(crate) fn into_unit(self) -> Unit
        ensures { result ≡ self.unit }
    {
        self.unit
    }
}
