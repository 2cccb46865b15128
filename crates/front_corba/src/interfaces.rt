//! Interfaces.

ghost use Rattle.std.specs.Prelude.{◌≡◌, map};
ghost use Rattle.idl_names.specs.Names.{has};
ghost use Rattle.idl_names.specs.Answers.{Gives};
ghost use Rattle.front_corba.specs.State.{no_bases};
ghost use Rattle.front_corba.specs.Held.{plain_offer, plain_offering, body, heirs, held};
ghost use Rattle.front_corba.specs.Bases.{bases_on};
ghost use Rattle.front_corba.specs.Interfaces.{export_on, exports_on, full_names, seat_on, entered_on, built_on, seated_on, interface_on};

use crate::attributes::attributes;
use crate::bases::bases;
use crate::named::Offers;
use crate::operations::operation;
use crate::state::{Heir, Offering, Resolver};
use crate::{NameErr, NameFault};
use corba_scopes::{Meaning, Scopes};
use corba_shapes::{Shapes, declare};
use corba_syntax::{Export, Interface};
use idl_names::{fault, refuse};
use kit_base::Name;
use kit_base::limits::MOST_INTERFACES;
use kit_shared::Shared;
use std::alloc::Global;

/// Declares one export of an interface, by its number as a declaration.
fn export(
    alloc: Global,
    d: u32,
    home: u32,
    shapes: &mut Shapes,
    ops: &mut Offers,
    export: &Export,
) -> Result<(), NameErr>
    ensures { Gives (λ _. body shapes.new ops.new) result
        (export_on d home (body shapes.old ops.old) export.now) }
{
    match export {
        Export::Declaration(x) => declare(alloc, shapes, d, x),
        Export::Attribute(a) => attributes(alloc, d, home, shapes, ops, a),
        Export::Operation(o) => operation(alloc, d, home, shapes, ops, o),
    }
}

/// Declares the exports of an interface, each as a declaration of its own number.
fn exports(
    alloc: Global,
    home: u32,
    shapes: &mut Shapes,
    ops: &mut Offers,
    list: &[Export],
) -> Result<(), NameErr>
    ensures { Gives (λ _. body shapes.new ops.new) result
        (exports_on home (body shapes.old ops.old) list.now) }
{
    for item in list {
        let d = shapes.next()?;
        export(alloc, d, home, shapes, ops, item)?;
    }
    Ok(())
}

/// Whether an interface has the full name.
fn has_full(full: &[u8], interfaces: &[Offering]) -> bool
    ensures { result ≡ has full.now (full_names (map plain_offering interfaces.now)) }
{
    for i in interfaces {
        if full == i.name.as_slice() {
            return true;
        }
    }
    false
}

/// The number and the full name of an interface, whose name is tested where it is.
fn seat(
    alloc: Global,
    scopes: &Scopes,
    interfaces: &[Offering],
    d: u32,
    name: &[u8],
) -> Result<(u32, Name), NameErr>
    ensures { Gives (λ x. x) result
        (seat_on d scopes.now (map plain_offering interfaces.now) name.now) }
{
    scopes.refuse_clash(alloc, d, name)?;
    let full = scopes.full_name(alloc, name)?.whole(alloc)?;
    let held = has_full(full.as_slice(), interfaces);
    refuse(NameFault::Twice, d, held)?;
    let place = interfaces.len();
    if place >= MOST_INTERFACES {
        return Err(fault(NameFault::Limit, d));
    }
    Ok((place as u32, full))
}

/// What an interface has, with what it has of its bases after it.
fn with_bases(
    alloc: Global,
    scopes: &mut Scopes,
    interfaces: &[Offering],
    d: u32,
    mut heir: Heir,
    i: &Interface,
) -> Result<Heir, NameErr>
    ensures { Gives (heirs scopes.new) result (bases_on d i.now.name.name
        (map plain_offering interfaces.now) (heirs scopes.old heir) i.now.bases) }
{
    let name = i.name.name.as_slice();
    let list = i.bases.as_slice();
    match bases(alloc, scopes, interfaces, d, name, &mut heir, list) {
        Ok(()) => Ok(heir),
        Err(e) => Err(e),
    }
}

/// What an interface has of its bases.
fn heritage(
    alloc: Global,
    scopes: &mut Scopes,
    interfaces: &[Offering],
    d: u32,
    i: &Interface,
) -> Result<Heir, NameErr>
    ensures { Gives (heirs scopes.new) result (bases_on d i.now.name.name
        (map plain_offering interfaces.now) (no_bases scopes.old) i.now.bases) }
{
    with_bases(alloc, scopes, interfaces, d, Heir::new(alloc), i)
}

/// Declares the name of an interface, and what it declares after the operations of its bases.
fn enter(
    alloc: Global,
    d: u32,
    home: u32,
    shapes: &mut Shapes,
    ops: &mut Offers,
    i: &Interface,
) -> Result<(), NameErr>
    ensures { Gives (λ _. body shapes.new ops.new) result
        (entered_on d home (body shapes.old ops.old) i.now) }
{
    let name = i.name.name.as_slice();
    shapes
        .scopes
        .declare_new(alloc, d, name, Meaning::Interface(home))?;
    shapes.scopes.enter(alloc, name)?;
    exports(alloc, home, shapes, ops, i.exports.as_slice())?;
    shapes.scopes.leave();
    Ok(())
}

/// Puts an interface of this number and full name, which has these operations of its bases, after the others.
fn built(
    alloc: Global,
    r: &mut Resolver,
    d: u32,
    i: &Interface,
    home: u32,
    full: Name,
    mut ops: Offers,
) -> Result<(), NameErr>
    ensures { Gives (λ _. held r.new) result
        (built_on d (held r.old) i.now (home, full) (map plain_offer ops)) }
{
    enter(alloc, d, home, &mut r.shapes, &mut ops, i)?;
    let name = Shared::new(alloc, full)?;
    r.interfaces.push(Offering { name, ops })?;
    Ok(())
}

/// Puts an interface of this number and full name after the others.
fn seated(
    alloc: Global,
    r: &mut Resolver,
    d: u32,
    i: &Interface,
    home: u32,
    full: Name,
) -> Result<(), NameErr>
    ensures { Gives (λ _. held r.new) result (seated_on d (held r.old) i.now (home, full)) }
{
    let scopes = &mut r.shapes.scopes;
    let heir = heritage(alloc, scopes, r.interfaces.as_slice(), d, i)?;
    let Heir { numbers: _, ops } = heir;
    built(alloc, r, d, i, home, full, ops)
}

/// Declares an interface, and puts it after the others.
pub(crate) fn interface(
    alloc: Global,
    r: &mut Resolver,
    d: u32,
    i: &Interface,
) -> Result<(), NameErr>
    ensures { Gives (λ _. held r.new) result (interface_on d (held r.old) i.now) }
{
    let name = i.name.name.as_slice();
    let (home, full) = seat(alloc, &r.shapes.scopes, r.interfaces.as_slice(), d, name)?;
    seated(alloc, r, d, i, home, full)
}
