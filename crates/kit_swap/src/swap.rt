//! A row of numbers in the other order: by vectors of sixteen octets, and number by number at the end.

ghost use Rattle.std.specs.Prelude.{◌≡◌, ◌≤◌, ◌+◌, ◌*◌, ◌%◌, ◌/◌, length, take, reverse};
ghost use Rattle.std.specs.Simd.Lanes.{chunk, put_chunk};
ghost use Rattle.kit_base.specs.Bytes.{written};
ghost use Rattle.kit_swap.specs.Swapped.{swapped, swapped_to, IsSwapWidth};
ghost use Rattle.std.specs.Int.{w8};
ghost use borrow.Rule.Simd.Moves.{swz_l, SwzOk};
ghost use Rattle.kit_swap.specs.Lanes.{SwapsLanes};

use std::simd::prelude::*;

const LANES: usize = 16;

/// Writes the numbers of an image, each with its octets reversed. A number has `width` octets.
pub fn swap_numbers(width: usize, image: &[u8], out: &mut [u8])
    requires width { IsSwapWidth width }
    requires whole { length image.now % width ≡ 0 }
    requires room { length out.old ≡ length image.now }
    ensures { out.new ≡ swapped width image.now }
{
    swap_vectors(width, image, out);
    swap_rest(width, image, image.len() / LANES * LANES, out);
}

// Swaps as many octets as fill whole vectors.
fn swap_vectors(width: usize, image: &[u8], out: &mut [u8])
    requires width { IsSwapWidth width }
    requires room { length out.old ≡ length image.now }
    ensures { out.new ≡ swapped_to width (length image.now / 16 * 16) image.now out.old }
{
    let lanes = lanes_of(width);
    for vector in 0..image.len() / LANES {
        swap_vector(lanes, image, vector * LANES, out);
    }
}

// Swaps number by number, from a place to the end.
fn swap_rest(width: usize, image: &[u8], from: usize, out: &mut [u8])
    // The row, and the place up to which it is swapped.
    requires width { IsSwapWidth width }
    requires whole { length image.now % width ≡ 0 }
    requires start { from % 16 ≡ 0 }
    requires within { from ≤ length image.now }
    // What is swapped already.
    requires room { length out.old ≡ length image.now }
    requires before { take from out.old ≡ swapped width (take from image.now) }
    ensures { out.new ≡ swapped width image.now }
{
    let mut at = from;
    while at < image.len() {
        swap_number(width, image, at, out);
        at += width;
    }
}

// The lane that each octet of a vector comes from.
fn lanes_of(width: usize) -> u8x16
    requires { IsSwapWidth width }
    ensures { SwapsLanes width result }
{
    match width {
        2 => pairs(),
        4 => fours(),
        _ => eights(),
    }
}

fn pairs() -> u8x16
    ensures { SwapsLanes 2 result }
{
    u8x16::from_array([1, 0, 3, 2, 5, 4, 7, 6, 9, 8, 11, 10, 13, 12, 15, 14])
}

fn fours() -> u8x16
    ensures { SwapsLanes 4 result }
{
    u8x16::from_array([3, 2, 1, 0, 7, 6, 5, 4, 11, 10, 9, 8, 15, 14, 13, 12])
}

fn eights() -> u8x16
    ensures { SwapsLanes 8 result }
{
    u8x16::from_array([7, 6, 5, 4, 3, 2, 1, 0, 15, 14, 13, 12, 11, 10, 9, 8])
}

// Writes the sixteen octets at a place, each from the lane that `lanes` has for it.
#[inline(always)]
fn swap_vector(lanes: u8x16, image: &[u8], at: usize, out: &mut [u8])
    requires lanes { SwzOk w8 16 16 0 lanes }
    requires within { at + 16 ≤ length image.now }
    requires room { length out.old ≡ length image.now }
    ensures { out.new ≡ put_chunk at out.old (swz_l w8 16 (chunk at 16 image.now) 0 lanes) }
{
    u8x16::from_slice(&image[at..])
        .swizzle_dyn(lanes)
        .copy_to_slice(&mut out[at..]);
}

// Writes the number at a place with its octets reversed.
fn swap_number(width: usize, image: &[u8], at: usize, out: &mut [u8])
    requires within { at + width ≤ length image.now }
    requires room { length out.old ≡ length image.now }
    ensures { out.new ≡ written out.old at (reverse (chunk at width image.now)) }
{
    let number = &mut out[at..at + width];
    number.copy_from_slice(&image[at..at + width]);
    number.reverse();
}
