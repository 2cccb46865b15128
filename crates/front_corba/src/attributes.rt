//! Attributes.

ghost use Rattle.std.specs.Prelude.{◌≡◌, [], ◌∷◌, map, IfOk};
ghost use Rattle.aoi.specs.Shapes.{seen_field};
ghost use Rattle.aoi.specs.Plain.{plain_operation};
ghost use Rattle.idl_names.specs.Answers.{Gives};
ghost use Rattle.corba_shapes.specs.Forms.{form_shape};
ghost use Rattle.front_corba.specs.Held.{plain_offer, body};
ghost use Rattle.front_corba.specs.Attributes.{getter, setter, get_name, set_name, attribute_clash, attribute_on, attributes_on};

use crate::named::Offers;
use crate::offers::{offer, own_clash};
use crate::operations::operation_of;
use crate::parameters::field;
use crate::{NameErr, NameFault};
use aoi::{Fields, Operation, Raises, Ty};
use corba_scopes::{Meaning, Scopes, full_name, lower_of, refuse_fault};
use corba_shapes::{Form, Shapes, form_ty, type_form};
use corba_syntax::Attribute;
use kit_base::{Name, NoMemory};
use std::alloc::Global;

/// The name of the operation that gives an attribute.
fn get_name(alloc: Global, name: &[u8]) -> Result<Name, NoMemory>
    ensures { IfOk result (λ n. n ≡ get_name name.now) }
{
    full_name(alloc, b"_get_", name)
}

/// The name of the operation that sets an attribute.
fn set_name(alloc: Global, name: &[u8]) -> Result<Name, NoMemory>
    ensures { IfOk result (λ n. n ≡ set_name name.now) }
{
    full_name(alloc, b"_set_", name)
}

/// The operation that gives an attribute.
fn getter(alloc: Global, name: &[u8], form: &Form) -> Result<Operation, NoMemory>
    ensures { IfOk result (λ o. plain_operation o ≡ getter name.now (form_shape form.now [])) }
{
    let ins = Fields::new(alloc);
    let outs = Fields::new(alloc);
    let ty = form_ty(alloc, form, &[])?;
    operation_of(
        alloc,
        get_name(alloc, name)?,
        false,
        ins,
        outs,
        ty,
        Raises::new(alloc),
    )
}

/// The operation that sets an attribute.
fn setter(alloc: Global, name: &[u8], form: &Form) -> Result<Operation, NoMemory>
    ensures { IfOk result (λ o. plain_operation o ≡ setter name.now (form_shape form.now [])) }
{
    let mut ins = Fields::new(alloc);
    ins.push(field(alloc, name, form)?)?;
    let outs = Fields::new(alloc);
    operation_of(
        alloc,
        set_name(alloc, name)?,
        false,
        ins,
        outs,
        Ty::Void,
        Raises::new(alloc),
    )
}

/// Why an attribute may not be beside these operations, or nothing.
fn attribute_clash(
    alloc: Global,
    scopes: &Scopes,
    ops: &Offers,
    readonly: bool,
    name: &[u8],
) -> Result<Option<NameFault>, NoMemory>
    ensures { IfOk result (λ f. f ≡ attribute_clash scopes.now (map plain_offer ops.now) readonly name.now) }
{
    let f = scopes.clash(alloc, name)?;
    let g = own_clash(alloc, scopes, get_name(alloc, name)?.as_slice(), ops)?;
    if readonly {
        return Ok(lower_of(f, lower_of(g, None)));
    }
    let h = own_clash(alloc, scopes, set_name(alloc, name)?.as_slice(), ops)?;
    Ok(lower_of(f, lower_of(g, h)))
}

/// Declares an attribute: its name, and its operations.
fn attribute(
    alloc: Global,
    d: u32,
    home: u32,
    readonly: bool,
    form: &Form,
    shapes: &mut Shapes,
    ops: &mut Offers,
    name: &[u8],
) -> Result<(), NameErr>
    ensures { Gives (λ _. body shapes.new ops.new) result
        (attribute_on d home readonly form.now (body shapes.old ops.old) name.now) }
{
    let clash = attribute_clash(alloc, &shapes.scopes, ops, readonly, name)?;
    refuse_fault(d, clash)?;
    shapes.scopes.declare_new(alloc, d, name, Meaning::Other)?;
    let get = getter(alloc, name, form)?;
    offer(alloc, d, home, shapes, ops, get)?;
    if readonly {
        return Ok(());
    }
    let set = setter(alloc, name, form)?;
    offer(alloc, d, home, shapes, ops, set)
}

/// Declares attributes of one type.
pub(crate) fn attributes(
    alloc: Global,
    d: u32,
    home: u32,
    shapes: &mut Shapes,
    ops: &mut Offers,
    a: &Attribute,
) -> Result<(), NameErr>
    ensures { Gives (λ _. body shapes.new ops.new) result
        (attributes_on d home (body shapes.old ops.old) a.now) }
{
    let form = type_form(alloc, &shapes.scopes, d, &a.of)?;
    for item in a.names.as_slice() {
        let name = item.name.as_slice();
        attribute(alloc, d, home, a.readonly, &form, shapes, ops, name)?;
    }
    Ok(())
}
