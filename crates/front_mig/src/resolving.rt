//! The unit of a file.

ghost use Rattle.std.specs.Prelude.{◌≡◌, ◌⊎◌, IfOk, IfErr, Ok, Err};
ghost use Rattle.aoi.specs.Plain.{plain};
ghost use Rattle.aoi.specs.Sound.{IsSound};
ghost use Rattle.aoi.specs.declared.faults.NameFault.TheVariants.{NoMemory as OutOfMemory};
ghost use Rattle.idl_names.specs.Answers.{Gives};
ghost use Rattle.front_mig.specs.Held.{state};
ghost use Rattle.front_mig.specs.Resolved.{stated, stated_on, resolved};

use crate::NameErr;
use crate::numbers::base_of;
use crate::routines::{routine, type_};
use crate::state::Resolver;
use aoi::Unit;
use idl_names::next_decl;
use mig_syntax::{Statement, Tree};
use std::alloc::Global;

/// A statement, by its number among the declarations.
fn state_one(
    alloc: Global,
    r: &mut Resolver,
    decl: u32,
    base: u32,
    statement: &Statement,
) -> Result<(), NameErr>
    ensures { Gives (λ _. state r.new) result (stated base decl (state r.old) statement.now) }
{
    match statement {
        Statement::Type(name, t) => type_(alloc, r, decl, name.as_slice(), t),
        Statement::Routine(item) => routine(alloc, r, decl, base, item),
        Statement::Prefix(..) | Statement::Import(..) => Ok(()),
        Statement::Skip => {
            r.take_slot(decl, base)?;
            Ok(())
        }
    }
}

/// The statements after the `subsystem` line, which is the first declaration.
fn state_all(alloc: Global, r: &mut Resolver, base: u32, list: &[Statement]) -> Result<(), NameErr>
    ensures { Gives (λ _. state r.new) result (stated_on base 1 (state r.old) list.now) }
{
    let mut decl = 1u32;
    for statement in list {
        decl = next_decl(decl)?;
        state_one(alloc, r, decl, base, statement)?;
    }
    Ok(())
}

/// The unit of a file, or the first fault of its text.
pub fn resolve(alloc: Global, tree: &Tree) -> Result<Unit, NameErr>
    ensures value { IfOk result (λ unit. resolved tree.now ≡ Ok (plain unit)) }
    ensures sound { IfOk result (λ unit. IsSound unit) }
    ensures stop { IfErr result (λ e. (e.fault ≡ OutOfMemory) ⊎ (resolved tree.now ≡ Err e)) }
{
    let base = base_of(1, &tree.base)?;
    let mut r = Resolver::new(alloc);
    state_all(alloc, &mut r, base, tree.statements.as_slice())?;
    r.into_unit(alloc, tree.name.as_slice(), base)
}
