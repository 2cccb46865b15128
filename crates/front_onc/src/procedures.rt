//! Procedures.

ghost use Rattle.std.specs.Prelude.{◌≡◌, ◌≤◌, [], map, length, IfOk, IfErr, OnOk, Err};
ghost use Rattle.kit_base.specs.Limits.{most_operations};
ghost use Rattle.aoi.specs.Shapes.{seen, seen_field};
ghost use Rattle.aoi.specs.Plain.{plain_operation};
ghost use Rattle.idl_names.specs.Answers.{Gives};
ghost use Rattle.front_onc.specs.Held.{state};
ghost use Rattle.front_onc.specs.Programs.{result_of, parameter, argument, parameters_on, is_void, parameters, procedure_on, procedures_on, operation, operations};

use crate::meaning::Scope;
use crate::state::Resolver;
use crate::values::{number_of, type_use};
use crate::{NameErr, NameFault};
use aoi::{Field, Fields, Operation, Operations, Raises, Ty};
use idl_names::{Names, add_number, fault, has_number, refuse, ty_of_use};
use indexmap::IndexSet;
use kit_base::limits::MOST_OPERATIONS;
use kit_base::{Name, NoMemory};
use kit_shared::Shared;
use mint::kind::Count;
use onc_syntax::{ProcType, Procedure};
use std::alloc::Global;

/// The type of a result.
fn result_of(scope: &Scope, d: u32, t: &ProcType) -> Result<Ty, NameErr>
    ensures value { Gives seen result (result_of scope.now d t.now) }
    ensures stop { IfErr result (λ e. result_of scope.now d t.now ≡ Err e) }
{
    match t {
        ProcType::Void => Ok(Ty::Void),
        ProcType::Text => Ok(Ty::Text(Count::Any)),
        ProcType::Plain(t) => Ok(ty_of_use(type_use(scope, d, t)?)),
    }
}

/// The type of one parameter of several.
fn parameter(scope: &Scope, d: u32, t: &ProcType) -> Result<Ty, NameErr>
    ensures value { Gives seen result (parameter scope.now d t.now) }
    ensures stop { IfErr result (λ e. parameter scope.now d t.now ≡ Err e) }
{
    match t {
        ProcType::Void => Err(fault(NameFault::OutOfScope, d)),
        ProcType::Text => Ok(Ty::Text(Count::Any)),
        ProcType::Plain(t) => Ok(ty_of_use(type_use(scope, d, t)?)),
    }
}

/// The name of a parameter.
fn argument(alloc: Global, n: usize) -> Result<Name, NoMemory>
    ensures { IfOk result (λ name. name ≡ argument n) }
{
    let mut name = Name::new(alloc);
    name.append(b"arg")?;
    name.append(itoa::Buffer::new().format(n).as_bytes())?;
    Ok(name)
}

fn field(alloc: Global, n: usize, ty: Ty) -> Result<Field, NoMemory>
    ensures { IfOk result (λ f. seen_field f ≡ (argument n, seen ty)) }
{
    Ok(Field {
        name: argument(alloc, n)?,
        ty,
    })
}

/// Several parameters.
fn parameters_on(alloc: Global, scope: &Scope, d: u32, list: &[ProcType]) -> Result<Fields, NameErr>
    ensures { Gives (map seen_field) result (parameters_on scope.now d [] list.now) }
{
    let mut fields = Fields::with_room(alloc, list.len())?;
    for (i, t) in list.iter().enumerate() {
        let ty = parameter(scope, d, t)?;
        fields.push(field(alloc, i + 1, ty)?)?;
    }
    Ok(fields)
}

/// Whether these are void alone.
fn is_void(list: &[ProcType]) -> bool
    ensures { result ≡ is_void list.now }
{
    match list {
        [ProcType::Void] => true,
        _ => false,
    }
}

/// The parameters of a procedure.
fn parameters(alloc: Global, scope: &Scope, d: u32, list: &[ProcType]) -> Result<Fields, NameErr>
    ensures { Gives (map seen_field) result (parameters scope.now d list.now) }
{
    if is_void(list) {
        return Ok(Fields::new(alloc));
    }
    parameters_on(alloc, scope, d, list)
}

fn operation(
    alloc: Global,
    slot: u32,
    name: &[u8],
    proc_no: u32,
    ins: Fields,
    ty: Ty,
) -> Result<Operation, NoMemory>
    ensures { IfOk result
        (λ o. plain_operation o ≡ operation slot name.now proc_no (map seen_field ins) (seen ty)) }
{
    Ok(Operation {
        name: Shared::new(alloc, Name::from_slice(alloc, name)?)?,
        proc_no,
        slot,
        ins: Shared::new(alloc, ins)?,
        outs: Shared::new(alloc, Fields::new(alloc))?,
        result: Shared::new(alloc, ty)?,
        raises: Shared::new(alloc, Raises::new(alloc))?,
        oneway: false,
    })
}

/// Appends a procedure.
fn procedure(
    alloc: Global,
    scope: &Scope,
    d: u32,
    names: &mut Names,
    numbers: &mut IndexSet<u32>,
    ops: &mut Operations,
    p: &Procedure,
) -> Result<(), NameErr>
    ensures value { Gives
        (λ _. record { names = names.new; numbers = numbers.new.keys; ops = map plain_operation ops.new })
        result (procedure_on scope.now d
        (record { names = names.old; numbers = numbers.old.keys; ops = map plain_operation ops.old }) p.now) }
    ensures few { OnOk result (length ops.new ≤ most_operations) }
{
    let name = p.name.as_slice();
    let ty = result_of(scope, d, &p.result)?;
    if names.has(name) {
        return Err(fault(NameFault::Twice, d));
    }
    let place = ops.len();
    if place >= MOST_OPERATIONS {
        return Err(fault(NameFault::Limit, d));
    }
    let ins = parameters(alloc, scope, d, p.parameters.as_slice())?;
    let n = number_of(scope, d, &p.number)?;
    if has_number(numbers, n) {
        return Err(fault(NameFault::Twice, d));
    }
    names.push(alloc, name)?;
    add_number(numbers, n)?;
    ops.push(operation(alloc, place as u32, name, n, ins, ty)?)?;
    Ok(())
}

/// The operations of procedures, after the names and numbers that are taken.
fn procedures(
    alloc: Global,
    r: &mut Resolver,
    names: &mut Names,
    numbers: &mut IndexSet<u32>,
    list: &[Procedure],
) -> Result<Operations, NameErr>
    ensures value { Gives (λ ops. (
      state r.new,
      record {
        names = names.new;
        numbers = numbers.new.keys;
        ops = map plain_operation ops;
      },
    )) result (procedures_on (state r.old)
        (record { names = names.old; numbers = numbers.old.keys; ops = [] }) list.now) }
    ensures few { IfOk result (λ ops. length ops ≤ most_operations) }
    ensures scope { OnOk result (r.new.scope ≡ r.old.scope) }
    ensures versions { OnOk result (r.new.versions ≡ r.old.versions) }
{
    let mut ops = Operations::with_room(alloc, list.len())?;
    for p in list {
        let d = r.next()?;
        procedure(alloc, r.scope(), d, names, numbers, &mut ops, p)?;
    }
    Ok(ops)
}

/// The operations of a version.
pub(crate) fn operations(
    alloc: Global,
    r: &mut Resolver,
    list: &[Procedure],
) -> Result<Operations, NameErr>
    ensures value { Gives (λ ops. (state r.new, map plain_operation ops)) result
        (operations (state r.old) list.now) }
    ensures few { IfOk result (λ ops. length ops ≤ most_operations) }
    ensures scope { OnOk result (r.new.scope ≡ r.old.scope) }
    ensures versions { OnOk result (r.new.versions ≡ r.old.versions) }
{
    let mut names = Names::new(alloc);
    let mut numbers = IndexSet::new(alloc);
    procedures(alloc, r, &mut names, &mut numbers, list)
}
