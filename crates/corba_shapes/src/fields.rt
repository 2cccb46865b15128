//! The fields of structs and exceptions.

ghost use Rattle.std.specs.Prelude.{◌≡◌, [], map, IfOk};
ghost use Rattle.aoi.specs.Shapes.{seen_field};
ghost use Rattle.idl_names.specs.Answers.{Gives};
ghost use Rattle.corba_shapes.specs.Forms.{form_shape};
ghost use Rattle.corba_shapes.specs.Fields.{lengths_on, placed_on, fields_on, members_on};

use crate::forms::{Form, form_ty, type_form};
use aoi::{Counts, Field, Fields, NameErr};
use corba_decls::{Declarator, Dimension, Member};
use corba_scopes::{Meaning, Scopes};
use kit_base::{Name, NoMemory};
use mint::kind::Count;
use std::alloc::Global;

/// The lengths of an array, the outermost first.
pub(crate) fn lengths(
    alloc: Global,
    scopes: &Scopes,
    d: u32,
    list: &[Dimension],
) -> Result<Counts, NameErr>
    ensures { Gives (λ x. x) result (lengths_on scopes.now d [] list.now) }
{
    let mut counts = Counts::new(alloc);
    for dimension in list {
        let n = scopes.length(d, &dimension.length)?;
        counts.push(Count::Exactly(n))?;
    }
    Ok(counts)
}

/// Declares a name that hides others, and gives the lengths after it.
pub(crate) fn placed(
    alloc: Global,
    scopes: &mut Scopes,
    d: u32,
    declarator: &Declarator,
) -> Result<Counts, NameErr>
    ensures { Gives (λ ns. (scopes.new, ns)) result
        (placed_on d scopes.old declarator.now) }
{
    let name = declarator.name.name.as_slice();
    scopes.refuse_clash(alloc, d, name)?;
    let counts = lengths(alloc, scopes, d, declarator.dimensions.as_slice())?;
    scopes.declare_new(alloc, d, name, Meaning::Other)?;
    Ok(counts)
}

/// A field of a type with lengths.
fn field(alloc: Global, name: &[u8], form: &Form, lengths: &[Count]) -> Result<Field, NoMemory>
    ensures { IfOk result (λ f. seen_field f ≡ (name.now, form_shape form.now lengths.now)) }
{
    Ok(Field {
        name: Name::from_slice(alloc, name)?,
        ty: form_ty(alloc, form, lengths)?,
    })
}

/// Puts fields of one type after the others.
fn add_fields(
    alloc: Global,
    scopes: &mut Scopes,
    d: u32,
    form: &Form,
    fields: &mut Fields,
    list: &[Declarator],
) -> Result<(), NameErr>
    ensures { Gives (λ _. record { names = scopes.new; fields = map seen_field fields.new }) result
        (fields_on d form.now
        (record { names = scopes.old; fields = map seen_field fields.old }) list.now) }
{
    for declarator in list {
        let counts = placed(alloc, scopes, d, declarator)?;
        let name = declarator.name.name.as_slice();
        fields.push(field(alloc, name, form, counts.as_slice())?)?;
    }
    Ok(())
}

/// The fields that members make.
pub(crate) fn members(
    alloc: Global,
    scopes: &mut Scopes,
    d: u32,
    list: &[Member],
) -> Result<Fields, NameErr>
    ensures { Gives (λ fields. record { names = scopes.new; fields = map seen_field fields }) result
        (members_on d (record { names = scopes.old; fields = [] }) list.now) }
{
    let mut fields = Fields::new(alloc);
    for member in list {
        let form = type_form(alloc, scopes, d, &member.of)?;
        add_fields(
            alloc,
            scopes,
            d,
            &form,
            &mut fields,
            member.declarators.as_slice(),
        )?;
    }
    Ok(fields)
}
