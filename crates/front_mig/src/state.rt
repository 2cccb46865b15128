//! What is declared so far.

ghost use Rattle.std.specs.Prelude.{◌≡◌, ◌<◌, ◌+◌, [], false, length, IfOk, IfErr, OnOk};
ghost use Rattle.kit_base.specs.Limits.{most_operations};
ghost use Rattle.aoi.specs.Shapes.{seen};
ghost use Rattle.aoi.specs.Plain.{plain, plain_operation};
ghost use Rattle.aoi.specs.declared.faults.NameFault.TheVariants.{NoMemory as OutOfMemory};
ghost use Rattle.idl_names.specs.Answers.{Gives};
ghost use Rattle.idl_names.specs.Names.{has, is_declared};
ghost use Rattle.front_mig.specs.Held.{state};
ghost use Rattle.front_mig.specs.Resolved.{unit_of};
ghost use Rattle.front_mig.specs.Routines.{with_routine};
ghost use Rattle.front_mig.specs.State.{start, declared, with_type, skip_on};

use crate::meaning::Scope;
use crate::{Meaning, NameErr, NameFault};
use aoi::{Interface, Operation, Operations, Ty, Unit, UnitErr};
use idl_names::{Names, Tag, Use, add_type, fault, want};
use kit_base::{Name, NoMemory};
use kit_shared::Shared;
use std::alloc::Global;
use std::marker::Model;

/// The types of the file by their names; the unit, without an interface; the routines by their names, their
/// operations, and how many message ids are taken.
#[derive(Drop)]
pub(crate) struct Resolver {
    scope: Scope,
    unit: Unit,
    names: Names,
    ops: Operations,
    slots: u32,
}

impl Model for Resolver {
    ghost use Rattle.std.specs.Prelude.{◌≡◌, ◌≤◌, [], length};
    ghost use Rattle.kit_base.specs.Limits.{most_operations};
    ghost use Rattle.front_mig.specs.Held.{Held};
    ghost use Rattle.std.specs.Coded.{codes};
    ghost use Rattle.aoi.specs.contracts.types.Ty as t;
    ghost use Rattle.aoi.specs.contracts.types.Field as f;

    ghost Value = { Held };

    ghost coded = { Prim.hlevel (codes, t.the_row.coded, f.the_row.coded) };

    ghost view = { λ r. record { scope = r.scope; unit = r.unit; names = r.names; ops = r.ops; slots = r.slots } };

    ghost invariant = { λ r. (r.unit.interfaces ≡ []) × (length r.ops ≤ most_operations) };
}

impl Resolver {
    /// The state before the first statement.
    pub(crate) fn new(alloc: Global) -> Resolver
        ensures { state result ≡ start }
    {
        Resolver {
            scope: Scope::new(alloc),
            unit: Unit::new(alloc),
            names: Names::new(alloc),
            ops: Operations::new(alloc),
            slots: 0,
        }
    }

    /// The types of the file by their names.
    pub(crate) fn scope(&self) -> &Scope
        ensures { result.now ≡ self.now.scope }
    {
        &self.scope
    }

    /// Declares a name of a port's type.
    pub(crate) fn declare_port(&mut self, alloc: Global, name: &[u8]) -> Result<(), NameErr>
        requires { is_declared name.now self.old.scope ≡ false }
        ensures ok { OnOk result (state self.new ≡ declared name.now Meaning.Port (state self.old)) }
        ensures err { IfErr result (λ e. e.fault ≡ OutOfMemory) }
    {
        self.scope.declare(alloc, name, Meaning::Port)?;
        Ok(())
    }

    /// Appends a type, and declares its name.
    pub(crate) fn declare_type(
        &mut self,
        alloc: Global,
        name: &[u8],
        ty: Ty,
        tag: Tag,
    ) -> Result<(), NameErr>
        requires { is_declared name.now self.old.scope ≡ false }
        ensures ok { OnOk result (state self.new ≡ with_type name.now (seen ty) tag (state self.old)) }
        ensures err { IfErr result (λ e. e.fault ≡ OutOfMemory) }
    {
        let k = add_type(alloc, &mut self.unit, name, ty)?;
        self.scope
            .declare(alloc, name, Meaning::Data(Use::Declared(k, tag)))?;
        Ok(())
    }

    /// Whether a routine has the name.
    pub(crate) fn has_routine(&self, name: &[u8]) -> bool
        ensures { result ≡ has name.now self.now.names }
    {
        self.names.has(name)
    }

    /// How many routines there are.
    pub(crate) fn routine_count(&self) -> usize
        ensures { result ≡ length self.now.ops }
    {
        self.ops.len()
    }

    /// Takes the next message id, and gives its place above the base.
    pub(crate) fn take_slot(&mut self, decl: u32, base: u32) -> Result<u32, NameErr>
        ensures taken { Gives (λ _. state self.new) result (skip_on decl base (state self.old)) }
        ensures place { IfOk result (λ slot. slot ≡ self.old.slots) }
        ensures scope { self.new.scope ≡ self.old.scope }
        ensures names { self.new.names ≡ self.old.names }
        ensures ops { self.new.ops ≡ self.old.ops }
    {
        let slot = self.slots;
        if u64::from(base) + (u64::from(slot) + 1) + 100 <= (1 << 31) - 1 {
            self.slots = slot + 1;
            return Ok(slot);
        }
        Err(fault(NameFault::Range, decl))
    }

    /// Appends a routine.
    pub(crate) fn add_routine(
        &mut self,
        alloc: Global,
        name: &[u8],
        op: Operation,
    ) -> Result<(), NameErr>
        requires new { has name.now self.old.names ≡ false }
        requires room { length self.old.ops < most_operations }
        ensures ok { OnOk result
            (state self.new ≡ with_routine name.now (plain_operation op) (state self.old)) }
        ensures err { IfErr result (λ e. e.fault ≡ OutOfMemory) }
    {
        self.names.push(alloc, name)?;
        self.ops.push(op)?;
        Ok(())
    }

    /// The unit, with the subsystem as its interface.
    pub(crate) fn into_unit(self, alloc: Global, name: &[u8], base: u32) -> Result<Unit, NameErr>
        ensures ok { IfOk result (λ unit. plain unit ≡ unit_of name.now base (state self)) }
        ensures err { IfErr result (λ e. e.fault ≡ OutOfMemory) }
    {
        let interface = Interface {
            name: Shared::new(alloc, Name::from_slice(alloc, name)?)?,
            program: 0x2000_0000,
            version: 1,
            base,
            slots: self.slots,
            ops: self.ops,
        };
        let mut unit = self.unit;
        match unit.add_interface(interface) {
            Ok(()) => Ok(unit),
            Err(UnitErr::NoMemory) => Err(want()),
            Err(UnitErr::Twice | UnitErr::Many) => unreachable!(),
        }
    }
}
