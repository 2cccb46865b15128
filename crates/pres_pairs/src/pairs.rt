//! Operations of two bindings of one unit that are the same operation.

ghost use Rattle.std.specs.Prelude.{◌≡◌, ◌<◌, ◌^◌, length};
ghost use Rattle.std.specs.List.{position_from};
ghost use Rattle.pres_pairs.specs.Pairs.{is_named, is_number, number_of, pair_of};

use pres::{Bound, Op};

/// The operations of a binding are few. It does nothing.
fn operations_are_few(bound: &Bound)
    ensures { length bound.now.ops < 2 ^ 32 }
{
    let _ops = bound.ops();
    bound.unit().interfaces_are_apart();
}

/// The place of the first operation of an interface that has a name.
fn place_of(ops: &[Op], interface: u32, name: &[u8]) -> Option<u32>
    requires { length ops.now < 2 ^ 32 }
    ensures { result ≡ position_from (is_named interface name.now) 0 ops.now }
{
    let mut place = 0;
    for op in ops {
        if op.interface == interface && op.name.as_slice() == name {
            return Some(place);
        }
        place += 1;
    }
    None
}

/// The number of the first operation of an interface that has a name.
fn number_of(bound: &Bound, interface: u32, name: &[u8]) -> Option<u32>
    ensures { result ≡ number_of bound.now interface name.now }
{
    operations_are_few(bound);
    place_of(bound.ops().as_slice(), interface, name)
}

/// Whether a number is there, and is this one.
fn is_number(op: u32, number: Option<u32>) -> bool
    ensures { result ≡ is_number op number }
{
    match number {
        Some(number) => number == op,
        None => false,
    }
}

/// The number that an operation has in another binding of its unit: that of the first operation of its interface and
/// name, as it is the first of them itself.
pub fn pair_of(bound: &Bound, other: &Bound, op: u32) -> Option<u32>
    ensures { result ≡ pair_of bound.now other.now op }
{
    let operation = bound.ops().get(op as usize)?;
    let name = operation.name.as_slice();
    if is_number(op, number_of(bound, operation.interface, name)) {
        number_of(other, operation.interface, name)
    } else {
        None
    }
}
