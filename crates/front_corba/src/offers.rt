//! The operations of an interface, and their names.

ghost use Rattle.std.specs.Prelude.{◌≡◌, ◌≤◌, map, IfOk};
ghost use Rattle.kit_base.specs.Limits.{most_operations};
ghost use Rattle.aoi.specs.Plain.{plain_operation};
ghost use Rattle.idl_names.specs.Answers.{Gives};
ghost use Rattle.front_corba.specs.Held.{plain_offer, body};
ghost use Rattle.front_corba.specs.Offers.{case_clash, operation_clash, own_clash, placed, added_on, offered_on};

use crate::named::Offers;
use crate::state::Offer;
use crate::{NameErr, NameFault};
use aoi::Operation;
use corba_scopes::{Meaning, Scopes, lower_of};
use corba_shapes::Shapes;
use kit_base::NoMemory;
use kit_base::limits::MOST_OPERATIONS;
use std::alloc::Global;

/// Why no operation may have a name beside these, none of which has it, or nothing.
pub(crate) fn case_clash(
    alloc: Global,
    name: &[u8],
    ops: &Offers,
) -> Result<Option<NameFault>, NoMemory>
    ensures { IfOk result (λ f. f ≡ case_clash name.now (map plain_offer ops.now)) }
{
    let small = name.to_ascii_lowercase(alloc)?;
    if ops.has_lower(small.as_slice()) {
        return Ok(Some(NameFault::CaseClash));
    }
    Ok(None)
}

/// Why no operation may have a name beside these, or nothing.
fn operation_clash(alloc: Global, name: &[u8], ops: &Offers) -> Result<Option<NameFault>, NoMemory>
    ensures { IfOk result (λ f. f ≡ operation_clash name.now (map plain_offer ops.now)) }
{
    if ops.has_name(name) {
        return Ok(Some(NameFault::Twice));
    }
    case_clash(alloc, name, ops)
}

/// Why no operation may have a name here and beside these, or nothing.
pub(crate) fn own_clash(
    alloc: Global,
    scopes: &Scopes,
    name: &[u8],
    ops: &Offers,
) -> Result<Option<NameFault>, NoMemory>
    ensures { IfOk result (λ f. f ≡ own_clash scopes.now name.now (map plain_offer ops.now)) }
{
    let f = scopes.clash(alloc, name)?;
    let g = operation_clash(alloc, name, ops)?;
    Ok(lower_of(f, g))
}

/// An operation at its place: procedures are numbered from 1, slots from 0.
fn placed(home: u32, mut operation: Operation, place: usize) -> Offer
    requires { place ≤ most_operations }
    ensures { plain_offer result ≡ placed home place (plain_operation operation) }
{
    operation.proc_no = place as u32 + 1;
    operation.slot = place as u32;
    Offer { home, operation }
}

/// Puts an operation after the others.
pub(crate) fn add(
    alloc: Global,
    d: u32,
    home: u32,
    operation: Operation,
    ops: &mut Offers,
) -> Result<(), NameErr>
    ensures { Gives (λ _. map plain_offer ops.new) result
        (added_on d home (plain_operation operation) (map plain_offer ops.old)) }
{
    let place = ops.len();
    if place >= MOST_OPERATIONS {
        return Err(NameErr {
            fault: NameFault::Limit,
            decl: d,
        });
    }
    ops.push(alloc, placed(home, operation, place))?;
    Ok(())
}

/// Declares the name of an operation here, and puts the operation after the others.
pub(crate) fn offer(
    alloc: Global,
    d: u32,
    home: u32,
    shapes: &mut Shapes,
    ops: &mut Offers,
    operation: Operation,
) -> Result<(), NameErr>
    ensures { Gives (λ _. body shapes.new ops.new) result
        (offered_on d home (body shapes.old ops.old) (plain_operation operation)) }
{
    let name = operation.name.as_slice();
    shapes.scopes.declare_new(alloc, d, name, Meaning::Other)?;
    add(alloc, d, home, operation, ops)
}
