//! The exceptions of an operation, as its file has them.

use aoi::Raise;
use pres::Bound;

/// The exceptions of an operation, in order.
fn raises_of(bound: &Bound, op: u32) -> &[Raise] {
    let Some(own) = bound.ops().get(op as usize) else {
        return &[];
    };
    let Some(interface) = bound.unit().interfaces().get(own.interface as usize) else {
        return &[];
    };
    match interface.ops.get(place_of(bound, op, own.interface)) {
        Some(operation) => operation.raises.as_slice(),
        None => &[],
    }
}

/// The place of an operation among those of its interface.
fn place_of(bound: &Bound, op: u32, interface: u32) -> usize {
    let mut place = 0usize;
    for other in bound.ops().as_slice().iter().take(op as usize) {
        if other.interface == interface {
            place = place.saturating_add(1);
        }
    }
    place
}

/// The number of the first exception of an operation with a repository id, from 1.
pub(crate) fn raise_of(bound: &Bound, op: u32, id: &[u8]) -> Option<u32> {
    let mut number = 0u32;
    for raise in raises_of(bound, op) {
        number = number.saturating_add(1);
        if raise.id.get().is(id) {
            return Some(number);
        }
    }
    None
}
