//! Types and routines.

ghost use Rattle.std.specs.Prelude.{◌≡◌, ◌+◌, ◌<◌, map, false, IfOk, IfErr, OnOk};
ghost use Rattle.aoi.specs.declared.faults.NameFault.TheVariants.{NoMemory as OutOfMemory};
ghost use Rattle.kit_base.specs.Limits.{most_operations};
ghost use Rattle.aoi.specs.Shapes.{seen_field};
ghost use Rattle.aoi.specs.Plain.{plain_operation};
ghost use Rattle.idl_names.specs.Answers.{Gives};
ghost use Rattle.front_mig.specs.Held.{state};
ghost use Rattle.idl_names.specs.Names.{is_declared};
ghost use Rattle.front_mig.specs.State.{with_form, type_on};
ghost use Rattle.front_mig.specs.Routines.{operation, routine_on};

use crate::parameters::parameters;
use crate::state::Resolver;
use crate::types::form;
use crate::{Form, NameErr, NameFault};
use aoi::{Fields, Operation, Raises, Ty};
use idl_names::{Tag, array_of, fault, tag_of_use, ty_of_use};
use kit_base::limits::MOST_OPERATIONS;
use kit_base::{Name, NoMemory};
use kit_shared::Shared;
use mig_syntax::{Routine, TypeForm};
use std::alloc::Global;

/// A type that a `type` statement makes, and its name.
fn declare(alloc: Global, r: &mut Resolver, name: &[u8], form: Form) -> Result<(), NameErr>
    requires { is_declared name.now r.old.scope ≡ false }
    ensures ok { OnOk result (state r.new ≡ with_form name.now form (state r.old)) }
    ensures err { IfErr result (λ e. e.fault ≡ OutOfMemory) }
{
    match form {
        Form::Port => r.declare_port(alloc, name),
        Form::Data(used) => r.declare_type(alloc, name, ty_of_use(used), tag_of_use(used)),
        Form::Row(used, count) => {
            let ty = array_of(alloc, ty_of_use(used), count)?;
            r.declare_type(alloc, name, ty, Tag::Other)
        }
    }
}

/// A type.
pub(crate) fn type_(
    alloc: Global,
    r: &mut Resolver,
    decl: u32,
    name: &[u8],
    t: &TypeForm,
) -> Result<(), NameErr>
    ensures { Gives (λ _. state r.new) result (type_on decl (state r.old) name.now t.now) }
{
    if r.scope().has(name) {
        return Err(fault(NameFault::Twice, decl));
    }
    let form = form(r.scope(), decl, t)?;
    declare(alloc, r, name, form)
}

/// The operation of a routine.
fn operation(
    alloc: Global,
    place: u32,
    slot: u32,
    name: &[u8],
    simple: bool,
    ins: Fields,
    outs: Fields,
) -> Result<Operation, NoMemory>
    requires { place < most_operations }
    ensures { IfOk result (λ o. plain_operation o
        ≡ operation place slot name.now simple (map seen_field ins) (map seen_field outs)) }
{
    Ok(Operation {
        name: Shared::new(alloc, Name::from_slice(alloc, name)?)?,
        proc_no: place + 1,
        slot,
        ins: Shared::new(alloc, ins)?,
        outs: Shared::new(alloc, outs)?,
        result: Shared::new(alloc, Ty::Void)?,
        raises: Shared::new(alloc, Raises::new(alloc))?,
        oneway: simple,
    })
}

/// A routine.
pub(crate) fn routine(
    alloc: Global,
    r: &mut Resolver,
    decl: u32,
    base: u32,
    routine: &Routine,
) -> Result<(), NameErr>
    ensures { Gives (λ _. state r.new) result (routine_on decl base (state r.old) routine.now) }
{
    let name = routine.name.as_slice();
    if r.has_routine(name) {
        return Err(fault(NameFault::Twice, decl));
    }
    let slot = r.take_slot(decl, base)?;
    let place = r.routine_count();
    if place >= MOST_OPERATIONS {
        return Err(fault(NameFault::Limit, decl));
    }
    let list = routine.parameters.as_slice();
    let (ins, outs) = parameters(alloc, r.scope(), decl, routine.simple, list)?;
    let op = operation(alloc, place as u32, slot, name, routine.simple, ins, outs)?;
    r.add_routine(alloc, name, op)
}
