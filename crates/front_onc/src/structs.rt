//! Typedefs and structs.

ghost use Rattle.std.specs.Prelude.{◌≡◌, [], map, IfOk};
ghost use Rattle.aoi.specs.Shapes.{seen_field};
ghost use Rattle.idl_names.specs.Answers.{Gives};
ghost use Rattle.front_onc.specs.Held.{state};
ghost use Rattle.front_onc.specs.Declarations.{members_on, shape, typedef, struct_on};

use crate::forms::{form, name_of, tag_of, ty};
use crate::meaning::Scope;
use crate::state::Resolver;
use crate::{Form, NameErr, NameFault, Tag};
use aoi::{Field, Fields};
use idl_names::{Names, fault, struct_of};
use kit_base::{Name, NoMemory};
use onc_syntax::{Decl, Member};
use std::alloc::Global;

/// A field of a declaration's type.
fn field(alloc: Global, name: &[u8], form: Form) -> Result<Field, NoMemory>
    ensures { IfOk result (λ f. seen_field f ≡ (name.now, shape form)) }
{
    Ok(Field {
        name: Name::from_slice(alloc, name)?,
        ty: ty(alloc, form)?,
    })
}

/// The members of a struct.
fn members(alloc: Global, scope: &Scope, number: u32, members: &[Member]) -> Result<Fields, NameErr>
    ensures { Gives (map seen_field) result (members_on scope.now number [] members.now) }
{
    let mut fields = Fields::new(alloc);
    let mut names = Names::new(alloc);
    for member in members {
        let name = name_of(&member.decl).as_slice();
        let form = form(scope, number, names.has(name), &member.decl)?;
        names.push(alloc, name)?;
        fields.push(field(alloc, name, form)?)?;
    }
    Ok(fields)
}

/// A type with another name.
pub(crate) fn typedef(
    alloc: Global,
    r: &mut Resolver,
    number: u32,
    decl: &Decl,
) -> Result<(), NameErr>
    ensures { Gives (λ _. state r.new) result (typedef number (state r.old) decl.now) }
{
    let name = name_of(decl).as_slice();
    let form = form(r.scope(), number, r.scope().has(name), decl)?;
    r.declare_type(alloc, name, ty(alloc, form)?, tag_of(form))
}

/// A struct.
pub(crate) fn struct_(
    alloc: Global,
    r: &mut Resolver,
    number: u32,
    name: &[u8],
    list: &[Member],
) -> Result<(), NameErr>
    ensures { Gives (λ _. state r.new) result (struct_on number (state r.old) name.now list.now) }
{
    if r.scope().has(name) {
        return Err(fault(NameFault::Twice, number));
    }
    let fields = members(alloc, r.scope(), number, list)?;
    r.declare_type(alloc, name, struct_of(fields), Tag::Other)
}
