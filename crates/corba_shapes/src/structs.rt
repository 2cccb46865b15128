//! Structs and exceptions.

ghost use Rattle.std.specs.Prelude.{◌≡◌, ◌++◌, IfOk};
ghost use Rattle.aoi.specs.Shapes.{members};
ghost use Rattle.aoi.specs.Plain.{plain_raise};
ghost use Rattle.idl_names.specs.Answers.{Gives};
ghost use Rattle.corba_shapes.specs.Held.{state};
ghost use Rattle.corba_scopes.specs.Names.{here};
ghost use Rattle.corba_shapes.specs.Structs.{struct_on, repository, raised, exception_on};

use crate::fields::members;
use crate::state::Shapes;
use aoi::{Fields, FullName, NameErr, Raise, RaiseFields};
use corba_decls::{Exception, Struct};
use corba_scopes::{Meaning, Scopes};
use idl_names::{Tag, count_of, struct_of};
use kit_base::NoMemory;
use kit_shared::Shared;
use std::alloc::Global;

/// Declares a struct, after its members.
pub(crate) fn struct_(alloc: Global, r: &mut Shapes, d: u32, t: &Struct) -> Result<(), NameErr>
    ensures { Gives (λ _. state r.new) result (struct_on d (state r.old) t.now) }
{
    let name = t.name.name.as_slice();
    r.scopes.refuse_clash(alloc, d, name)?;
    r.scopes.enter(alloc, name)?;
    let fields = members(alloc, &mut r.scopes, d, t.members.as_slice())?;
    r.scopes.leave();
    r.declare_type(alloc, d, name, struct_of(fields), Tag::Other, None)
}

/// The repository id of what is declared here: `IDL:M/Bad:1.0`.
fn repository(alloc: Global, scopes: &Scopes, name: &[u8]) -> Result<FullName, NoMemory>
    ensures { IfOk result (λ id. id ≡ repository (here scopes.now ++ name.now)) }
{
    scopes.id(alloc, name, b":1.0")
}

/// An exception by its name here.
fn raised(alloc: Global, scopes: &Scopes, name: &[u8], fields: Fields) -> Result<Raise, NoMemory>
    ensures { IfOk result (λ e. plain_raise e ≡ raised (here scopes.now ++ name.now) (members fields)) }
{
    Ok(Raise {
        id: Shared::new(alloc, repository(alloc, scopes, name)?)?,
        name: Shared::new(alloc, scopes.full_name(alloc, name)?)?,
        members: Shared::new(alloc, RaiseFields::new(fields))?,
    })
}

/// Declares an exception, after its members, and puts it after the others.
pub(crate) fn exception(alloc: Global, r: &mut Shapes, d: u32, e: &Exception) -> Result<(), NameErr>
    ensures { Gives (λ _. state r.new) result (exception_on d (state r.old) e.now) }
{
    let name = e.name.name.as_slice();
    r.scopes.refuse_clash(alloc, d, name)?;
    r.scopes.enter(alloc, name)?;
    let fields = members(alloc, &mut r.scopes, d, e.members.as_slice())?;
    r.scopes.leave();
    let k = count_of(r.exceptions.len())?;
    r.scopes.declare_new(alloc, d, name, Meaning::Exception(k))?;
    r.exceptions.push(raised(alloc, &r.scopes, name, fields)?)?;
    Ok(())
}
