//! Stores at a place of a buffer's memory.

ghost use Rattle.std.specs.Prelude.{◌≡◌, ◌<◌, ◌≤◌, ◌+◌, ◌%◌, ◌^◌, length};
ghost use Rattle.kit_base.specs.Bytes.{written};
ghost use Rattle.kit_swap.specs.Swapped.{swapped, IsSwapWidth};
ghost use Rattle.wire_def.specs.Orders.{IsWidth, in_order};

use raw_mem::RawMem;
use wire_def::Order;

/// Writes the numbers of an image at a place, the octets of each reversed.
pub(crate) fn swap_at(memory: &mut RawMem, at: usize, width: usize, image: &[u8])
    requires width { IsSwapWidth width }
    requires whole { length image.now % width ≡ 0 }
    requires within { at + length image.now ≤ length memory.old }
    ensures { memory.new ≡ written memory.old at (swapped width image.now) }
{
    memory.copy_swapped(at, width, image);
}

/// Writes octets at a place: one store or two, where they are as many as a number may have.
#[inline(always)]
pub(crate) fn write_at(memory: &mut RawMem, at: usize, octets: &[u8])
    requires { at + length octets.now ≤ length memory.old }
    ensures { memory.new ≡ written memory.old at octets.now }
{
    match octets.len() {
        1 => write_array::<1>(memory, at, octets),
        2 => write_array::<2>(memory, at, octets),
        3 => write_array::<3>(memory, at, octets),
        4 => write_array::<4>(memory, at, octets),
        5 => write_array::<5>(memory, at, octets),
        6 => write_array::<6>(memory, at, octets),
        7 => write_array::<7>(memory, at, octets),
        8 => write_array::<8>(memory, at, octets),
        _ => memory.copy(at, octets),
    }
}

/// Writes octets of a known number at a place.
#[inline(always)]
fn write_array<const N: usize>(memory: &mut RawMem, at: usize, octets: &[u8])
    requires some { 0 < N }
    requires long { length octets.now ≡ N }
    requires within { at + N ≤ length memory.old }
    ensures { memory.new ≡ written memory.old at octets.now }
{
    match octets.first_chunk::<N>() {
        Some(array) => memory.store(at, *array),
        None => unreachable!(),
    }
}

/// Writes a number at a place: one store, since each arm knows the width.
#[inline(always)]
pub(crate) fn write_word(memory: &mut RawMem, at: usize, width: usize, order: Order, v: u64)
    requires width { IsWidth width }
    requires within { at + width ≤ length memory.old }
    requires fits { v < 256 ^ width }
    ensures value { memory.new ≡ written memory.old at (in_order order width v) }
    ensures width { length (in_order order width v) ≡ width }
{
    match (width, order) {
        (1, Order::Big) => memory.store(at, (v as u8).to_be_bytes()),
        (1, Order::Little) => memory.store(at, (v as u8).to_le_bytes()),
        (2, Order::Big) => memory.store(at, (v as u16).to_be_bytes()),
        (2, Order::Little) => memory.store(at, (v as u16).to_le_bytes()),
        (4, Order::Big) => memory.store(at, (v as u32).to_be_bytes()),
        (4, Order::Little) => memory.store(at, (v as u32).to_le_bytes()),
        (_, Order::Big) => memory.store(at, v.to_be_bytes()),
        (_, Order::Little) => memory.store(at, v.to_le_bytes()),
    }
}
