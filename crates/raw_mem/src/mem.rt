//! Owned memory.

ghost use Rattle.std.specs.Prelude.{◌≡◌, ◌+◌, ◌≤◌, ◌<◌, ◌^◌, [], ◌++◌, ◌-◌, ◌%◌, length, take, drop, replicate, OnOk, OnErr};
ghost use Rattle.kit_base.specs.Bytes.{written};
ghost use Rattle.kit_swap.specs.Swapped.{swapped, IsSwapWidth};

use crate::place::{place_of, store_at};
use kit_base::NoMemory;
use kit_swap::swap_numbers;
use std::alloc::Global;
use std::marker::Model;

/// Memory of some octets, all of them initialised. A `Vec` takes it, grows it by doubling and frees
/// it; words are stored through the pointer.
#[derive(Drop)]
pub struct RawMem {
    start: *mut u8,
    home: Vec<u8>,
}

impl Model for RawMem {
    ghost use Rattle.std.specs.Prelude.{◌≡◌, ℕ, List};
    ghost use Rattle.std.specs.Vec.{vec_ptr};
    ghost use Rattle.raw_mem.specs.Places.{IsPlaced};

    ghost Value = { List ℕ };

    ghost view = { λ m. m.home.items };

    ghost invariant = { λ m. (m.start ≡ vec_ptr m.home) × IsPlaced m.start };
}

impl RawMem {
    /// No octets. It takes no memory.
    pub fn new(alloc: Global) -> RawMem
        ensures { result ≡ [] }
    {
        let mut home = Vec::new(alloc);
        let start = place_of(&mut home);
        RawMem { start, home }
    }

    /// How many octets there are.
    #[inline(always)]
    pub fn len(&self) -> usize
        ensures { result ≡ length self.now }
    {
        self.home.len()
    }

    /// The octets from a place on, so many.
    #[inline(always)]
    pub fn octets(&self, from: usize, len: usize) -> &[u8]
        requires { from + len ≤ length self.now }
        ensures { result.now ≡ take len (drop from self.now) }
    {
        &self.home.as_slice()[from..from + len]
    }

    /// Stores an array over as many octets: one store, without a test.
    #[inline(always)]
    pub fn store<const N: usize>(&mut self, at: usize, octets: [u8; N])
        requires some { 0 < N }
        requires within { at + N ≤ length self.old }
        ensures { self.new ≡ written self.old at octets.entry }
    {
        store_at(&mut self.home, self.start, at, octets);
    }

    /// Copies octets over as many: one copy, without a test whether they fit.
    #[inline(always)]
    pub fn copy(&mut self, at: usize, octets: &[u8])
        requires { at + length octets.now ≤ length self.old }
        ensures { self.new ≡ written self.old at octets.now }
    {
        self.home.as_mut_slice()[at..at + octets.len()].copy_from_slice(octets);
    }

    /// Copies the numbers of an image over as many octets, the octets of each number reversed.
    pub fn copy_swapped(&mut self, at: usize, width: usize, image: &[u8])
        requires width { IsSwapWidth width }
        requires whole { length image.now % width ≡ 0 }
        requires within { at + length image.now ≤ length self.old }
        ensures { self.new ≡ written self.old at (swapped width image.now) }
    {
        let part = &mut self.home.as_mut_slice()[at..at + image.len()];
        swap_numbers(width, image, part);
    }

    /// Makes the memory so long. What is there stays, and the new octets are zero. Out of memory,
    /// nothing changes.
    pub fn grow(&mut self, wanted: usize) -> Result<(), NoMemory>
        requires { length self.old ≤ wanted }
        ensures ok { OnOk result (self.new ≡ self.old ++ replicate (wanted - length self.old) 0) }
        ensures err { OnErr result (self.new ≡ self.old) }
        ensures small { length self.new < 2 ^ 63 }
    {
        let grown = self.home.resize(wanted, 0);
        self.start = place_of(&mut self.home);
        grown?;
        Ok(())
    }
}
