//! Octets that are lent, at a raw pointer.

ghost use Rattle.std.specs.Prelude.{◌≡◌, ℕ, ◌+◌, ◌≤◌, ◌<◌, ◌^◌, List, length, take, drop};
ghost use denote.RawPtr.{Ptr};
ghost use Rattle.raw_mem.specs.Places.{IsPlaced, lent_owns};

use std::marker::{Model, PhantomData};
use std::slice;

/// The right to read the octets at `ptr` for the lifetime. It takes no memory of its own.
#[derive(Drop)]
pub(crate) struct Lent<'a> {
    by: PhantomData<&'a u8>,
    ghost ptr: { Ptr },
    ghost items: { List ℕ },
    ghost placed: { IsPlaced ptr × (length items < 2 ^ 63) },
}

impl<'a> Model for Lent<'a> {
    ghost also_owns = { λ s. lent_owns 'a s.ptr s.items };

    ghost also_shares = { λ s _ _. lent_owns 'a s.ptr s.items };
}

impl<'a> Lent<'a> {
    /// Where the octets begin, and the right to read them.
    pub(crate) fn lend(octets: &'a [u8]) -> (*const u8, Lent<'a>)
        ensures { (result.1.ptr ≡ result.0) × (result.1.items ≡ octets.now) }
    {
        (octets.as_ptr(), Lent { by: PhantomData })
    }

    /// The octets from a place on, so many.
    #[inline(always)]
    pub(crate) fn read(&self, start: *const u8, at: usize, len: usize) -> &'a [u8]
        requires { (start ≡ self.now.ptr) × (at + len ≤ length self.now.items) }
        ensures { result.now ≡ take len (drop at self.now.items) }
    {
        unsafe { slice::from_raw_parts(start.add(at), len) }
    }

    /// The octets from a place on, as an array: one load.
    #[inline(always)]
    pub(crate) fn load_at<const N: usize>(&self, start: *const u8, at: usize) -> [u8; N]
        requires { (start ≡ self.now.ptr) × (at + N ≤ length self.now.items) }
        ensures { result ≡ take N (drop at self.now.items) }
    {
        unsafe {
            let place = start.add(at) as *const [u8; N];
            *place
        }
    }
}
