//! The types of a file, before its interfaces.

ghost use Rattle.std.specs.Prelude.{◌≡◌, ◌<◌, ◌^◌, [], ◌∷◌, ◌++◌, length, OnOk, OnErr};

use aoi::{FullName, Ty, Unit};
use kit_base::NoMemory;
use std::alloc::Global;
use std::marker::Model;

/// Types, each with its name: those of a unit without interfaces.
#[derive(Drop)]
pub struct TypeList {
    unit: Unit,
}

impl Model for TypeList {
    ghost use Rattle.std.specs.Prelude.{◌≡◌, List, ℕ, []};
    ghost use Rattle.std.specs.Coded.{codes};
    ghost use Rattle.aoi.specs.declared.types.Ty.{Ty};
    ghost use Rattle.aoi.specs.contracts.types.Ty as t;
    ghost use Rattle.aoi.specs.contracts.types.Field as f;

    ghost Value = { List (List ℕ × Ty) };

    ghost coded = { Prim.hlevel (codes, t.the_row.coded, f.the_row.coded) };

    ghost view = { λ l. l.unit.types };

    ghost invariant = { λ l. l.unit.interfaces ≡ [] };
}

impl TypeList {
    /// No types.
    pub(crate) fn new(alloc: Global) -> TypeList
        ensures { result ≡ [] }
    {
        TypeList {
            unit: Unit::new(alloc),
        }
    }

    /// How many types there are.
    pub(crate) fn len(&self) -> usize
        ensures { result ≡ length self.now }
    {
        self.unit.types().len()
    }

    /// Puts a type after the others.
    pub(crate) fn add(&mut self, name: FullName, ty: Ty) -> Result<(), NoMemory>
        requires { length self.old < 2 ^ 32 }
        ensures ok { OnOk result (self.new ≡ self.old ++ (name, ty) ∷ []) }
        ensures err { OnErr result (self.new ≡ self.old) }
    {
        self.unit.add_type(name, ty)?;
        Ok(())
    }

    /// The unit of these types, without interfaces.
    pub fn into_unit(self) -> Unit
        ensures types { result.types ≡ self }
        ensures interfaces { result.interfaces ≡ [] }
    {
        let TypeList { unit } = self;
        unit
    }
}
