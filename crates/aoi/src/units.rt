//! The unit of a file.

ghost use Rattle.std.specs.Prelude.{◌≡◌, ◌<◌, ◌≤◌, ◌^◌, ◌⊎◌, ◌↔◌, [], ◌∷◌, ◌++◌, length, true, false, IfOk, OnOk, OnErr};
ghost use Rattle.kit_base.specs.Limits.{most_interfaces, most_operations};
ghost use Rattle.aoi.specs.Units.{is_twice, AreApart};
ghost use Rattle.aoi.specs.declared.units.UnitErr.TheVariants.{NoMemory as OutOfMemory};

use crate::{FullName, Interface, Interfaces, Ty, Types};
use kit_base::NoMemory;
use kit_base::limits::{MOST_INTERFACES, MOST_OPERATIONS};
use std::alloc::Global;
use std::marker::Model;

/// Why an interface is not taken.
#[derive(Clone, Copy, Debug, PartialEq, Eq)]
pub enum UnitErr {
    /// An interface of the unit has its name, or its program and version.
    Twice,
    /// The unit has 64 interfaces, or this one has more than 256 operations.
    Many,
    /// Out of memory.
    NoMemory,
}

impl From<NoMemory> for UnitErr {
    ghost from_gives = { λ _ e. e ≡ OutOfMemory };

    fn from(_: NoMemory) -> UnitErr {
        UnitErr::NoMemory
    }
}

/// The types and interfaces of a file.
#[derive(Drop)]
pub struct Unit {
    types: Types,
    interfaces: Interfaces,
}

impl Model for Unit {
    ghost use Rattle.std.specs.Prelude.{◌≤◌, length};
    ghost use Rattle.kit_base.specs.Limits.{most_interfaces};
    ghost use Rattle.aoi.specs.Units.{Parts, AreApart};
    ghost use Rattle.std.specs.Coded.{codes};
    ghost use Rattle.aoi.specs.contracts.types.Ty as t;
    ghost use Rattle.aoi.specs.contracts.types.Field as f;

    ghost Value = { Parts };

    ghost coded = { Prim.hlevel (codes, t.the_row.coded, f.the_row.coded) };

    ghost view = { λ u. record { types = u.types; interfaces = u.interfaces } };

    ghost invariant = { λ u. (length u.interfaces ≤ most_interfaces) × AreApart u.interfaces };
}

impl Unit {
    /// A unit without types and interfaces.
    pub fn new(alloc: Global) -> Unit
        ensures types { result.types ≡ [] }
        ensures interfaces { result.interfaces ≡ [] }
    {
        Unit {
            types: Types::new(alloc),
            interfaces: Interfaces::new(alloc),
        }
    }

    /// The types, each with its name.
    pub fn types(&self) -> &Types
        ensures { result.now ≡ self.now.types }
    {
        &self.types
    }

    /// The interfaces.
    pub fn interfaces(&self) -> &Interfaces
        ensures { result.now ≡ self.now.interfaces }
    {
        &self.interfaces
    }

    /// How many interfaces there are, at most 64.
    pub fn interface_count(&self) -> usize
        ensures value { result ≡ length self.now.interfaces }
        ensures most { result ≤ most_interfaces }
    {
        self.interfaces.len()
    }

    /// Appends a type, and gives its number, counted from 0.
    pub fn add_type(&mut self, name: FullName, ty: Ty) -> Result<u32, NoMemory>
        requires { length self.old.types < 2 ^ 32 }
        ensures value { IfOk result (λ k. k ≡ length self.old.types) }
        ensures ok { OnOk result (self.new ≡ record self.old { types = self.old.types ++ (name, ty) ∷ [] }) }
        ensures err { OnErr result (self.new ≡ self.old) }
    {
        let k = self.types.len() as u32;
        self.types.push((name, ty))?;
        Ok(k)
    }

    /// Appends an interface.
    pub fn add_interface(&mut self, i: Interface) -> Result<(), UnitErr>
        ensures ok { OnOk result (self.new ≡ record self.old { interfaces = self.old.interfaces ++ i ∷ [] }) }
        ensures err { OnErr result (self.new ≡ self.old) }
        ensures twice { (result ≡ Err UnitErr.Twice) ↔ (is_twice i self.old.interfaces ≡ true) }
        ensures many { (result ≡ Err UnitErr.Many) ↔ ((is_twice i self.old.interfaces ≡ false)
            × ((most_interfaces ≤ length self.old.interfaces) ⊎ (most_operations < length i.ops))) }
    {
        if is_twice(&i, self.interfaces.as_slice()) {
            return Err(UnitErr::Twice);
        }
        if self.interfaces.len() >= MOST_INTERFACES || i.ops.len() > MOST_OPERATIONS {
            return Err(UnitErr::Many);
        }
        self.interfaces.push(i)?;
        Ok(())
    }

    /// A law: a unit has at most 64 interfaces, each with at most 256 operations, and no two
    /// collide. The function does nothing.
    pub fn interfaces_are_apart(&self)
        ensures few { length self.now.interfaces ≤ most_interfaces }
        ensures apart { AreApart self.now.interfaces }
    {
        let _interfaces = &self.interfaces;
    }
}

fn is_twice(i: &Interface, others: &[Interface]) -> bool
    ensures { result ≡ is_twice i.now others.now }
{
    for other in others {
        if other.name.as_slice() == i.name.as_slice()
            || other.program == i.program && other.version == i.version
        {
            return true;
        }
    }
    false
}
