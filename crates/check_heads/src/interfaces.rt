//! Interfaces over back ends that no command has yet, or with what no front end reads yet.

use aoi::{
    Field, Fields, FullName, Interface, Operation, Operations, Raise, RaiseFields, Raises, Ty,
    Unit, is_sound,
};
use check_rows::Bad;
use kit_base::{Name, NoMemory};
use kit_shared::Shared;
use mint::kind::{Count, Kind};
use pres::{Bound, bind};
use std::alloc::Global;
use wire_def::Back;

fn name(alloc: Global, text: &[u8]) -> Result<Name, NoMemory> {
    let mut name = Name::new(alloc);
    name.append(text)?;
    Ok(name)
}

fn shared_name(alloc: Global, text: &[u8]) -> Result<Shared<Name>, NoMemory> {
    Shared::new(alloc, name(alloc, text)?)
}

fn full_name(alloc: Global, text: &[u8]) -> Result<Shared<FullName>, NoMemory> {
    Shared::new(alloc, FullName::of(name(alloc, text)?))
}

fn one_field(alloc: Global, text: &[u8], ty: Ty) -> Result<Fields, NoMemory> {
    let mut fields = Fields::new(alloc);
    let name = name(alloc, text)?;
    fields.push(Field { name, ty })?;
    Ok(fields)
}

/// The exception `E` of one text.
fn exception(alloc: Global) -> Result<Raises, NoMemory> {
    let mut raises = Raises::new(alloc);
    let why = one_field(alloc, b"why", Ty::Text(Count::Any))?;
    raises.push(Raise {
        name: full_name(alloc, b"E")?,
        id: full_name(alloc, b"IDL:E:1.0")?,
        members: Shared::new(alloc, RaiseFields::new(why))?,
    })?;
    Ok(raises)
}

/// The operation `f` of one parameter `x`, with a result of 32 bits.
fn operation(
    alloc: Global,
    outs: Fields,
    raises: Raises,
    oneway: bool,
) -> Result<Operation, NoMemory> {
    Ok(Operation {
        name: shared_name(alloc, b"f")?,
        proc_no: 0,
        slot: 0,
        ins: Shared::new(alloc, one_field(alloc, b"x", Ty::Num(Kind::I32))?)?,
        outs: Shared::new(alloc, outs)?,
        result: Shared::new(alloc, Ty::Num(Kind::I32))?,
        raises: Shared::new(alloc, raises)?,
        oneway,
    })
}

/// The interface `I` of one operation, bound.
fn bound(alloc: Global, operation: Operation, back: Back) -> Result<Bound, Bad> {
    let mut ops = Operations::new(alloc);
    ops.push(operation)?;
    let mut unit = Unit::new(alloc);
    let interface = Interface {
        name: shared_name(alloc, b"I")?,
        program: 1,
        version: 1,
        base: 0,
        slots: 1,
        ops,
    };
    if unit.add_interface(interface).is_err() || !is_sound(&unit) {
        return Err(Bad::Row("no sound unit"));
    }
    match bind(alloc, unit, back) {
        Ok(bound) => Ok(bound),
        Err(_) => Err(Bad::Row("not bound")),
    }
}

/// `I.f` over Mach, which takes a number and never answers.
pub fn silent(alloc: Global) -> Result<Bound, Bad> {
    let operation = operation(alloc, Fields::new(alloc), Raises::new(alloc), true)?;
    bound(alloc, operation, Back::Mach)
}

/// `I.f` over CDR, which raises `E` and answers two numbers.
pub fn raising(alloc: Global) -> Result<Bound, Bad> {
    let outs = one_field(alloc, b"y", Ty::Num(Kind::U8))?;
    let operation = operation(alloc, outs, exception(alloc)?, false)?;
    bound(alloc, operation, Back::CdrBig)
}
