//! The parameters and exceptions of an operation.

ghost use Rattle.std.specs.Prelude.{◌≡◌, [], map, option_copied, IfOk, OnOk};
ghost use Rattle.std.specs.Option.{option_map};
ghost use Rattle.aoi.specs.Shapes.{seen_field};
ghost use Rattle.aoi.specs.Plain.{plain_raise};
ghost use Rattle.idl_names.specs.Answers.{Gives};
ghost use Rattle.corba_shapes.specs.Forms.{form_shape};
ghost use Rattle.front_corba.specs.Parameters.{goes_in, comes_out, are_in, with_field, parameter_on, parameters_on, exception_at, with_raise, raised_by, raises_on};

use crate::copies::{copy_name, share_raise};
use crate::{NameErr, NameFault};
use aoi::{Field, Fields, Raise, Raises};
use corba_scopes::{Meaning, Scopes};
use corba_shapes::{Form, form_ty, type_form};
use corba_syntax::{Direction, Parameter, Reference};
use idl_names::{fault, refuse};
use kit_base::NoMemory;
use kit_base::limits::MOST_RAISES;
use std::alloc::Global;

/// Whether the value of a parameter goes from the client to the server.
fn goes_in(direction: Direction) -> bool
    ensures { result ≡ goes_in direction }
{
    match direction {
        Direction::In | Direction::InOut => true,
        Direction::Out => false,
    }
}

/// Whether the value of a parameter goes from the server to the client.
fn comes_out(direction: Direction) -> bool
    ensures { result ≡ comes_out direction }
{
    match direction {
        Direction::Out | Direction::InOut => true,
        Direction::In => false,
    }
}

/// Whether the values of all parameters go only from the client to the server.
pub(crate) fn are_in(list: &[Parameter]) -> bool
    ensures { result ≡ are_in list.now }
{
    for parameter in list {
        if comes_out(parameter.direction) {
            return false;
        }
    }
    true
}

/// A field of a type.
pub(crate) fn field(alloc: Global, name: &[u8], form: &Form) -> Result<Field, NoMemory>
    ensures { IfOk result (λ f. seen_field f ≡ (name.now, form_shape form.now [])) }
{
    Ok(Field {
        name: copy_name(alloc, name)?,
        ty: form_ty(alloc, form, &[])?,
    })
}

/// Puts a field of a type after the others, where something holds.
fn add_field(
    alloc: Global,
    holds: bool,
    fields: &mut Fields,
    name: &[u8],
    form: &Form,
) -> Result<(), NoMemory>
    ensures { OnOk result (map seen_field fields.new
        ≡ with_field holds (map seen_field fields.old) (name.now, form_shape form.now [])) }
{
    if holds {
        fields.push(field(alloc, name, form)?)?;
    }
    Ok(())
}

/// Puts a parameter after the others of its directions, and declares its name.
fn parameter(
    alloc: Global,
    scopes: &mut Scopes,
    d: u32,
    ins: &mut Fields,
    outs: &mut Fields,
    p: &Parameter,
) -> Result<(), NameErr>
    ensures { Gives
        (λ _. record { names = scopes.new; ins = map seen_field ins.new; outs = map seen_field outs.new })
        result (parameter_on d
        (record { names = scopes.old; ins = map seen_field ins.old; outs = map seen_field outs.old }) p.now) }
{
    let form = type_form(alloc, scopes, d, &p.of)?;
    let name = p.name.name.as_slice();
    scopes.declare_new(alloc, d, name, Meaning::Other)?;
    add_field(alloc, goes_in(p.direction), ins, name, &form)?;
    add_field(alloc, comes_out(p.direction), outs, name, &form)?;
    Ok(())
}

/// Puts parameters after the others of their directions, and declares their names.
pub(crate) fn parameters(
    alloc: Global,
    scopes: &mut Scopes,
    d: u32,
    ins: &mut Fields,
    outs: &mut Fields,
    list: &[Parameter],
) -> Result<(), NameErr>
    ensures { Gives
        (λ _. record { names = scopes.new; ins = map seen_field ins.new; outs = map seen_field outs.new })
        result (parameters_on d
        (record { names = scopes.old; ins = map seen_field ins.old; outs = map seen_field outs.old })
        list.now) }
{
    for p in list {
        parameter(alloc, scopes, d, ins, outs, p)?;
    }
    Ok(())
}

/// The number of an exception.
fn exception_at(d: u32, given: Option<Meaning>) -> Result<u32, NameErr>
    ensures value { Gives (λ x. x) result (exception_at d given) }
    ensures exact { result ≡ exception_at d given }
{
    match given {
        Some(Meaning::Exception(k)) => Ok(k),
        Some(_) => Err(fault(NameFault::NotType, d)),
        None => Err(fault(NameFault::Unknown, d)),
    }
}

/// Puts an exception after the others.
fn add_raise(raises: &mut Raises, raise: Option<&Raise>) -> Result<(), NoMemory>
    ensures { OnOk result (map plain_raise raises.new
        ≡ with_raise (map plain_raise raises.old) (option_map plain_raise (option_copied raise.entry))) }
{
    match raise {
        Some(raise) => raises.push(share_raise(raise)?),
        None => Ok(()),
    }
}

/// Puts an exception that an operation raises after the others.
#[tactic(auto, using(crate::proofs::Getting::raise_got))]
fn raise(
    alloc: Global,
    scopes: &Scopes,
    exceptions: &Raises,
    d: u32,
    raises: &mut Raises,
    reference: &Reference,
) -> Result<(), NameErr>
    ensures { Gives (λ _. map plain_raise raises.new) result
        (raised_by scopes.now (map plain_raise exceptions.now) d (map plain_raise raises.old) reference.now) }
{
    let given = scopes.named(&reference.name);
    let k = exception_at(d, given)?;
    refuse(NameFault::Limit, d, raises.len() >= MOST_RAISES)?;
    add_raise(raises, exceptions.get(k as usize))?;
    Ok(())
}

/// The exceptions that an operation raises.
pub(crate) fn raises(
    alloc: Global,
    scopes: &Scopes,
    exceptions: &Raises,
    d: u32,
    list: &[Reference],
) -> Result<Raises, NameErr>
    ensures { Gives (map plain_raise) result
        (raises_on scopes.now (map plain_raise exceptions.now) d [] list.now) }
{
    let mut raises = Raises::new(alloc);
    for reference in list {
        raise(alloc, scopes, exceptions, d, &mut raises, reference)?;
    }
    Ok(raises)
}
