//! Parameters.

ghost use Rattle.std.specs.Prelude.{◌≡◌, [], map, IfOk, OnOk};
ghost use Rattle.aoi.specs.Shapes.{seen_field};
ghost use Rattle.idl_names.specs.Answers.{Gives};
ghost use Rattle.front_mig.specs.Held.{parameters_held};
ghost use Rattle.idl_names.specs.Uses.{shape_of_use};
ghost use Rattle.front_mig.specs.Routines.{goes_in, comes_out, is_requestport, is_port, port_on, with_field, parameter_on, parameters_on, parameters};

use crate::meaning::Scope;
use crate::types::{data_in, type_of};
use crate::{Meaning, NameErr, NameFault};
use aoi::{Field, Fields};
use idl_names::{Names, Use, fault, refuse, ty_of_use};
use kit_base::{Name, NoMemory};
use mig_syntax::{Direction, Parameter};
use std::alloc::Global;

/// Whether a parameter goes in; one without a word does.
fn goes_in(direction: Option<Direction>) -> bool
    ensures { result ≡ goes_in direction }
{
    !matches!(direction, Some(Direction::Out))
}

/// Whether a parameter comes out.
fn comes_out(direction: Option<Direction>) -> bool
    ensures { result ≡ comes_out direction }
{
    matches!(direction, Some(Direction::Out | Direction::InOut))
}

/// Whether a parameter is said to be the port of requests.
fn is_requestport(direction: Option<Direction>) -> bool
    ensures { result ≡ is_requestport direction }
{
    matches!(direction, Some(Direction::RequestPort))
}

/// Whether a type is a port's.
fn is_port(meaning: Meaning) -> bool
    ensures { result ≡ is_port meaning }
{
    matches!(meaning, Meaning::Port)
}

/// The first parameter, which is a port.
fn port(
    alloc: Global,
    scope: &Scope,
    decl: u32,
    simple: bool,
    p: &Parameter,
) -> Result<Names, NameErr>
    ensures { Gives (λ names. parameters_held names [] []) result (port_on scope.now decl simple p.now) }
{
    refuse(NameFault::Oneway, decl, simple && comes_out(p.direction))?;
    let meaning = type_of(scope, decl, p.of.as_slice())?;
    refuse(NameFault::Port, decl, !is_port(meaning))?;
    let mut names = Names::new(alloc);
    names.push(alloc, p.name.as_slice())?;
    Ok(names)
}

/// Appends a field, where one is wanted.
fn add_field(
    alloc: Global,
    fields: &mut Fields,
    wanted: bool,
    name: &[u8],
    used: Use,
) -> Result<(), NoMemory>
    ensures { OnOk result
        (map seen_field fields.new ≡ with_field wanted name.now used (map seen_field fields.old)) }
{
    if !wanted {
        return Ok(());
    }
    fields.push(field(alloc, name, used)?)?;
    Ok(())
}

fn field(alloc: Global, name: &[u8], used: Use) -> Result<Field, NoMemory>
    ensures { IfOk result (λ f. seen_field f ≡ (name.now, shape_of_use used)) }
{
    Ok(Field {
        name: Name::from_slice(alloc, name)?,
        ty: ty_of_use(used),
    })
}

/// Appends a parameter.
fn parameter(
    alloc: Global,
    scope: &Scope,
    decl: u32,
    simple: bool,
    names: &mut Names,
    ins: &mut Fields,
    outs: &mut Fields,
    p: &Parameter,
) -> Result<(), NameErr>
    ensures { Gives (λ _. parameters_held names.new ins.new outs.new) result
        (parameter_on scope.now decl simple (parameters_held names.old ins.old outs.old) p.now) }
{
    let name = p.name.as_slice();
    refuse(NameFault::Oneway, decl, simple && comes_out(p.direction))?;
    refuse(NameFault::Port, decl, is_requestport(p.direction))?;
    if names.has(name) {
        return Err(fault(NameFault::Twice, decl));
    }
    let used = data_in(decl, type_of(scope, decl, p.of.as_slice())?)?;
    names.push(alloc, name)?;
    add_field(alloc, ins, goes_in(p.direction), name, used)?;
    add_field(alloc, outs, comes_out(p.direction), name, used)?;
    Ok(())
}

/// Puts parameters after the first.
fn parameters_on(
    alloc: Global,
    scope: &Scope,
    decl: u32,
    simple: bool,
    names: &mut Names,
    ins: &mut Fields,
    outs: &mut Fields,
    list: &[Parameter],
) -> Result<(), NameErr>
    ensures { Gives (λ _. parameters_held names.new ins.new outs.new) result
        (parameters_on scope.now decl simple (parameters_held names.old ins.old outs.old) list.now) }
{
    for p in list {
        parameter(alloc, scope, decl, simple, names, ins, outs, p)?;
    }
    Ok(())
}

/// The fields that go in, and those that come out.
pub(crate) fn parameters(
    alloc: Global,
    scope: &Scope,
    decl: u32,
    simple: bool,
    list: &[Parameter],
) -> Result<(Fields, Fields), NameErr>
    ensures { Gives (λ f. (map seen_field f.0, map seen_field f.1)) result
        (parameters scope.now decl simple list.now) }
{
    let [first, rest @ ..] = list else {
        return Err(fault(NameFault::Port, decl));
    };
    let mut names = port(alloc, scope, decl, simple, first)?;
    let mut ins = Fields::new(alloc);
    let mut outs = Fields::new(alloc);
    parameters_on(
        alloc, scope, decl, simple, &mut names, &mut ins, &mut outs, rest,
    )?;
    Ok((ins, outs))
}
