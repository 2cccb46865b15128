//! A borrowed message.

ghost use Rattle.std.specs.Prelude.{◌≡◌, ◌+◌, ◌≤◌, ◌<◌, ◌^◌, List, length, take, drop};

use crate::lent::Lent;
use std::marker::Model;

/// Octets that are lent, read through the pointer.
#[derive(Drop)]
pub struct RawView<'a> {
    start: *const u8,
    len: usize,
    lent: Lent<'a>,
}

impl<'a> Model for RawView<'a> {
    ghost use Rattle.std.specs.Prelude.{◌≡◌, ℕ, List, length};

    ghost Value = { List ℕ };

    ghost view = { λ v. v.lent.items };

    ghost invariant = { λ v. (v.start ≡ v.lent.ptr) × (v.len ≡ length v.lent.items) };
}

impl<'a> RawView<'a> {
    /// These octets.
    pub fn new(octets: &'a [u8]) -> RawView<'a>
        ensures value { result ≡ octets.now }
        ensures small { length result < 2 ^ 63 }
    {
        let (start, lent) = Lent::lend(octets);
        RawView {
            start,
            len: octets.len(),
            lent,
        }
    }

    /// How many octets there are.
    #[inline(always)]
    pub fn len(&self) -> usize
        ensures { result ≡ length self.now }
    {
        self.len
    }

    /// The octets from a place on, so many.
    #[inline(always)]
    pub fn octets(&self, from: usize, len: usize) -> &'a [u8]
        requires { from + len ≤ length self.now }
        ensures { result.now ≡ take len (drop from self.now) }
    {
        self.lent.read(self.start, from, len)
    }

    /// The octets from a place on, as an array: one load, without a test.
    #[inline(always)]
    pub fn load<const N: usize>(&self, at: usize) -> [u8; N]
        requires { at + N ≤ length self.now }
        ensures { result ≡ take N (drop at self.now) }
    {
        self.lent.load_at(self.start, at)
    }
}
