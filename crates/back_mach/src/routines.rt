//! The operations of interfaces, as messages name them.

ghost use Rattle.std.specs.Prelude.{◌≡◌, ◌<◌, ◌+◌, ◌^◌, ℕ, length, map, slice_index_or};
ghost use Rattle.wire_def.specs.declared.encoding.Back.TheVariants.{Mach};
ghost use Rattle.aoi.specs.Plain.{plain_interface, plain_operation};
ghost use Rattle.back_mach.specs.Routines.{no_routine, routine_in, routine_of, routines};

use aoi::{Interface, Operation};
use pres::Bound;

/// A routine: the id of its request, and whether a reply is awaited.
#[derive(Clone, Copy, Debug, PartialEq, Eq)]
pub struct Routine {
    /// The id of its request.
    pub id: u32,
    /// Whether a reply is awaited.
    pub wants: bool,
}

/// The operation at a place, counted from 0 over all interfaces, and its interface.
fn operation_at(interfaces: &[Interface], place: usize) -> (&Interface, &Operation)
    requires { place < length (routines (map plain_interface interfaces.now)) }
    ensures { slice_index_or (routines (map plain_interface interfaces.now)) place no_routine
        ≡ routine_in (plain_interface result.0.now) (plain_operation result.1.now) }
{
    let Some((i, others)) = interfaces.split_first() else {
        unreachable!()
    };
    let ops = i.ops.as_slice();
    if place < ops.len() {
        (i, &ops[place])
    } else {
        operation_at(others, place - ops.len())
    }
}

/// Each operation of a bound unit is a routine, they are few, and the ids of their requests and
/// replies have 31 bits. It does nothing.
pub fn operations_are_routines(bound: &Bound)
    requires mach { bound.now.back ≡ Mach }
    ensures many { length (routines bound.now.unit.interfaces) ≡ length bound.now.ops }
    ensures few { length bound.now.ops < 2 ^ 32 }
    ensures ids { (op : ℕ) → op < length bound.now.ops → (routine_of bound.now op).id + 100 < 2 ^ 31 }
{
    let _ops = bound.ops();
    bound.unit().interfaces_are_apart();
}

/// The operation of a bound unit, and its interface.
fn operation_of(bound: &Bound, op: u32) -> (&Interface, &Operation)
    requires mach { bound.now.back ≡ Mach }
    requires op { op < length bound.now.ops }
    ensures { routine_in (plain_interface result.0.now) (plain_operation result.1.now)
        ≡ routine_of bound.now op }
{
    operations_are_routines(bound);
    operation_at(bound.unit().interfaces().as_slice(), op as usize)
}

/// The routine that is an operation of a bound unit.
pub fn routine_of(bound: &Bound, op: u32) -> Routine
    requires mach { bound.now.back ≡ Mach }
    requires op { op < length bound.now.ops }
    ensures { result ≡ routine_of bound.now op }
{
    operations_are_routines(bound);
    let (i, called) = operation_of(bound, op);
    Routine {
        id: i.base + called.slot,
        wants: !called.oneway,
    }
}
