//! The procedures of interfaces.

ghost use Rattle.std.specs.Prelude.{◌≡◌, ◌+◌, ◌<◌, ◌^◌, ◌==◌, length, map, slice_index};
ghost use Rattle.std.specs.List.{list_any, position_from};
ghost use Rattle.std.specs.List.Sorted.{IsNonDecreasingBy};
ghost use Rattle.aoi.specs.Plain.{PlainOperation, plain_operation, plain_interface};
ghost use Rattle.wire_def.specs.declared.encoding.Back.TheVariants.{Xdr};
ghost use Rattle.pres.specs.declared.ops.Op.{Op as OpRecord};
ghost use Rattle.pres.specs.Offers.{gets_null};
ghost use Rattle.back_xdr.specs.Procedures.{numbers, procedures, procedure_in, procedure_of, before, homes, IsFirst};

use aoi::{Interface, Operation};
use pres::{Bound, Op};

/// A procedure: its program, the program's version, and its number.
#[derive(Clone, Copy, Debug, PartialEq, Eq)]
pub struct Procedure {
    /// The number of the program.
    pub program: u32,
    /// The version of the program.
    pub version: u32,
    /// The number of the procedure.
    pub number: u32,
}

/// Whether one of the operations has the procedure number.
fn has_number(ops: &[Operation], number: u32) -> bool
    ensures { result
        ≡ list_any (λ (op : PlainOperation). op.proc_no == number) (map plain_operation ops.now) }
{
    for own in ops {
        if own.proc_no == number {
            return true;
        }
    }
    false
}

/// Whether an interface has no procedure 0 of its own, and so gets one.
fn gets_null(i: &Interface) -> bool
    ensures { result ≡ gets_null Xdr (plain_interface i.now) }
{
    !has_number(i.ops.as_slice(), 0)
}

/// How many procedures an interface has.
pub fn count(i: &Interface) -> usize
    ensures { result ≡ length (numbers (plain_interface i.now)) }
{
    let own = i.ops.as_slice().len();
    if gets_null(i) { own + 1 } else { own }
}

/// The number of an interface's procedure by its place, counted from 0.
fn number(i: &Interface, place: usize) -> u32
    requires { place < length (numbers (plain_interface i.now)) }
    ensures { result ≡ slice_index (numbers (plain_interface i.now)) place }
{
    let ops = i.ops.as_slice();
    if place < ops.len() {
        ops[place].proc_no
    } else {
        0
    }
}

/// The procedure of an interface by its place, counted from 0.
fn procedure_in(i: &Interface, place: usize) -> Procedure
    requires { place < length (numbers (plain_interface i.now)) }
    ensures { result ≡ procedure_in (plain_interface i.now)
        (slice_index (numbers (plain_interface i.now)) place) }
{
    Procedure {
        program: i.program,
        version: i.version,
        number: number(i, place),
    }
}

/// The place of the first operation of the interface that the operation at a place is of.
fn first_of(ops: &[Op], place: usize) -> usize
    requires place { place < length ops.now }
    requires rise { IsNonDecreasingBy (λ (op : OpRecord). op.interface) ops.now }
    ensures { IsFirst (homes ops.now) place result }
{
    let home = ops[place].interface;
    ops.partition_point(|op| op.interface < home)
}

/// How many operations the interfaces before a place have.
pub(crate) fn before(bound: &Bound, place: usize) -> u32
    requires { bound.now.back ≡ Xdr }
    ensures { result ≡ before place bound.now.unit.interfaces }
{
    operations_are_procedures(bound);
    let ops = bound.ops().as_slice();
    ops.partition_point(|op| (op.interface as usize) < place) as u32
}

/// The interface that an operation is of, and the operation's place in it.
fn home_of(bound: &Bound, op: u32) -> (&Interface, usize)
    requires xdr { bound.now.back ≡ Xdr }
    requires op { op < length bound.now.ops }
    ensures place { result.1 < length (numbers (plain_interface result.0.now)) }
    ensures procedure { procedure_of bound.now op ≡ procedure_in (plain_interface result.0.now)
        (slice_index (numbers (plain_interface result.0.now)) result.1) }
{
    let ops = bound.ops().as_slice();
    let place = op as usize;
    let first = first_of(ops, place);
    match bound.unit().interfaces().get(ops[place].interface as usize) {
        Some(i) => (i, place - first),
        None => unreachable!(),
    }
}

/// The place of an interface's first procedure with the number, where they are counted from a place.
pub fn place_of(i: &Interface, first: u32, number: u32) -> Option<u32>
    requires { first + length (numbers (plain_interface i.now)) < 2 ^ 32 }
    ensures { result ≡ position_from (λ n. n == number) first (numbers (plain_interface i.now)) }
{
    let mut place = first;
    for op in i.ops.as_slice() {
        if op.proc_no == number {
            return Some(place);
        }
        place += 1;
    }
    if number == 0 && gets_null(i) {
        Some(place)
    } else {
        None
    }
}

/// Each operation of a bound unit is a procedure, and they are few. It does nothing.
pub fn operations_are_procedures(bound: &Bound)
    requires xdr { bound.now.back ≡ Xdr }
    ensures many { length (procedures bound.now.unit.interfaces) ≡ length bound.now.ops }
    ensures few { length bound.now.ops < 2 ^ 32 }
{
    let _ops = bound.ops();
    bound.unit().interfaces_are_apart();
}

/// The procedure that is an operation of a bound unit. It is found in the operation's own interface alone.
pub fn procedure_of(bound: &Bound, op: u32) -> Procedure
    requires xdr { bound.now.back ≡ Xdr }
    requires op { op < length bound.now.ops }
    ensures { result ≡ procedure_of bound.now op }
{
    let (i, place) = home_of(bound, op);
    procedure_in(i, place)
}
