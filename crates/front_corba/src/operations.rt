//! Operations.

ghost use Rattle.std.specs.Prelude.{◌≡◌, ◌&&◌, map, IfOk};
ghost use Rattle.aoi.specs.Shapes.{seen, seen_field};
ghost use Rattle.aoi.specs.Plain.{plain_operation, plain_raise};
ghost use Rattle.idl_names.specs.Answers.{Gives};
ghost use Rattle.idl_names.specs.Lists.{is_some_list};
ghost use Rattle.front_corba.specs.Held.{plain_offer, body};
ghost use Rattle.front_corba.specs.Operations.{gives_back, result_of, operation_of, judged_on, signed_on, operation_on};

use crate::copies::copy_name;
use crate::named::Offers;
use crate::offers::{offer, own_clash};
use crate::parameters::{are_in, parameters, raises};
use crate::{NameErr, NameFault};
use aoi::{Fields, Operation, Raises, Ty};
use corba_decls::TypeName;
use corba_scopes::{Scopes, refuse_fault};
use corba_shapes::{Shapes, form_ty, type_form};
use corba_syntax::{Operation as OperationTree, Reference};
use idl_names::refuse;
use kit_base::limits::MOST_OPERATIONS;
use kit_base::{Name, NoMemory};
use kit_shared::Shared;
use std::alloc::Global;

/// Whether there are exceptions.
fn are_some(list: &[Reference]) -> bool
    ensures { result ≡ is_some_list list.now }
{
    match list {
        [] => false,
        _ => true,
    }
}

/// Whether an operation gives something back: a result, what a parameter brings out, or an exception.
fn gives_back(o: &OperationTree) -> bool
    ensures { result ≡ gives_back o.now }
{
    o.result.is_some() || !are_in(o.parameters.as_slice()) || are_some(o.raises.as_slice())
}

/// The type of a result.
fn result_of(
    alloc: Global,
    scopes: &Scopes,
    d: u32,
    given: &Option<TypeName>,
) -> Result<Ty, NameErr>
    ensures { Gives seen result (result_of scopes.now d given.now) }
{
    match given {
        None => Ok(Ty::Void),
        Some(t) => {
            let form = type_form(alloc, scopes, d, t)?;
            Ok(form_ty(alloc, &form, &[])?)
        }
    }
}

/// An operation of these parts, before it has its place.
pub(crate) fn operation_of(
    alloc: Global,
    name: Name,
    oneway: bool,
    ins: Fields,
    outs: Fields,
    ty: Ty,
    raises: Raises,
) -> Result<Operation, NoMemory>
    ensures { IfOk result (λ p. plain_operation p ≡ operation_of name oneway
        (map seen_field ins) (map seen_field outs) (seen ty) (map plain_raise raises)) }
{
    Ok(Operation {
        name: Shared::new(alloc, name)?,
        proc_no: 0,
        slot: 0,
        ins: Shared::new(alloc, ins)?,
        outs: Shared::new(alloc, outs)?,
        result: Shared::new(alloc, ty)?,
        raises: Shared::new(alloc, raises)?,
        oneway,
    })
}

/// Whether an operation is oneway, though it gives something back.
fn breaks_oneway(o: &OperationTree) -> bool
    ensures { result ≡ (o.now.oneway && gives_back o.now) }
{
    o.oneway && gives_back(o)
}

/// The type of the result of an operation, whose name is tested where it is.
fn judged(
    alloc: Global,
    scopes: &Scopes,
    d: u32,
    ops: &Offers,
    o: &OperationTree,
) -> Result<Ty, NameErr>
    ensures { Gives seen result (judged_on d scopes.now (map plain_offer ops.now) o.now) }
{
    refuse(NameFault::Oneway, d, breaks_oneway(o))?;
    let ty = result_of(alloc, scopes, d, &o.result)?;
    let clash = own_clash(alloc, scopes, o.name.name.as_slice(), ops)?;
    refuse_fault(d, clash)?;
    refuse(NameFault::Limit, d, ops.len() >= MOST_OPERATIONS)?;
    Ok(ty)
}

/// An operation of a result, whose parameters are declared here, in its own scope.
fn signed(
    alloc: Global,
    scopes: &mut Scopes,
    exceptions: &Raises,
    d: u32,
    o: &OperationTree,
    ty: Ty,
) -> Result<Operation, NameErr>
    ensures { Gives (λ p. (scopes.new, plain_operation p)) result
        (signed_on d scopes.old (map plain_raise exceptions.now) o.now (seen ty)) }
{
    let mut ins = Fields::new(alloc);
    let mut outs = Fields::new(alloc);
    parameters(
        alloc,
        scopes,
        d,
        &mut ins,
        &mut outs,
        o.parameters.as_slice(),
    )?;
    let raises = raises(alloc, scopes, exceptions, d, o.raises.as_slice())?;
    let name = copy_name(alloc, o.name.name.as_slice())?;
    Ok(operation_of(alloc, name, o.oneway, ins, outs, ty, raises)?)
}

/// Declares an operation, and at its end its name.
pub(crate) fn operation(
    alloc: Global,
    d: u32,
    home: u32,
    shapes: &mut Shapes,
    ops: &mut Offers,
    o: &OperationTree,
) -> Result<(), NameErr>
    ensures { Gives (λ _. body shapes.new ops.new) result
        (operation_on d home (body shapes.old ops.old) o.now) }
{
    let ty = judged(alloc, &shapes.scopes, d, ops, o)?;
    shapes.scopes.enter(alloc, o.name.name.as_slice())?;
    let made = signed(alloc, &mut shapes.scopes, &shapes.exceptions, d, o, ty)?;
    shapes.scopes.leave();
    offer(alloc, d, home, shapes, ops, made)
}
