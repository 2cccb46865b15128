//! The buffer.

ghost use Rattle.std.specs.Prelude.{◌≡◌, ◌<◌, ◌≤◌, ◌+◌, ◌-◌, ◌%◌, ◌^◌, [], ◌++◌, length, take, drop, max, replicate, OnOk, OnErr, IfOk};
ghost use Rattle.kit_base.specs.Bytes.{written};
ghost use Rattle.wire_def.specs.Scalars.{gap};
ghost use Rattle.kit_swap.specs.Swapped.{swapped, IsSwapWidth};
ghost use Rattle.raw_buf.specs.Buf.{Ensures, checked, moved, stored, rowed, none};
ghost use Rattle.wire_def.specs.Orders.{IsWidth, in_order};

use crate::Tally;
use crate::storing::{swap_at, write_at, write_word};
use crate::tally::together;
use kit_base::NoMemory;
use raw_mem::RawMem;
use std::alloc::Global;
use std::marker::Model;
use wire_def::Order;

/// A buffer for one message at a time.
///
/// `ensure` makes room, `put` and `put_const` store at an offset from the cursor inside that room, and `advance` moves
/// the cursor over it. The memory is initialised when it grows and is kept when the buffer is cleared.
#[derive(Drop)]
pub struct SendBuf {
    memory: RawMem,
    len: usize,
    ahead: usize,
    tally: Tally,
    earlier: Tally,
}

impl Model for SendBuf {
    ghost use Rattle.std.specs.Prelude.{◌≤◌, ◌<◌, ◌^◌, ◌+◌, take, drop, length};
    ghost use Rattle.raw_buf.specs.Buf.{Buf, together};

    ghost Value = { Buf };

    ghost view = { λ b. record { done = take b.len b.memory; front = take b.ahead (drop b.len b.memory); tally = b.tally; spent = together b.earlier b.tally } };

    ghost invariant = { λ b. (b.len + b.ahead ≤ length b.memory) × (length b.memory < 2 ^ 63) };
}

const NOTHING: Tally = Tally {
    checks: 0,
    moves: 0,
    stores: 0,
    rows: 0,
};

impl SendBuf {
    /// An empty buffer, which has spent nothing.
    pub fn new(alloc: Global) -> Result<SendBuf, NoMemory>
        ensures { IfOk result
            (λ b. b ≡ record { done = []; front = []; tally = none; spent = none }) }
    {
        Ok(SendBuf {
            memory: RawMem::new(alloc),
            len: 0,
            ahead: 0,
            tally: NOTHING,
            earlier: NOTHING,
        })
    }

    /// Ensures at least n octets after those that are done. Out of memory, nothing changes.
    pub fn ensure(&mut self, n: usize) -> Result<(), NoMemory>
        ensures ok { OnOk result (Ensures n self.old self.new) }
        ensures err { OnErr result (self.new ≡ self.old) }
    {
        self.make_room(n)?;
        self.count_check();
        Ok(())
    }

    /// Makes room for n octets after those that are done, at no cost.
    fn make_room(&mut self, n: usize) -> Result<(), NoMemory>
        // What is there.
        ensures done { OnOk result (self.new.done ≡ self.old.done) }
        ensures kept { OnOk result (take (length self.old.front) self.new.front ≡ self.old.front) }
        ensures ahead { OnOk result (length self.new.front ≡ max n (length self.old.front)) }
        // What stays the same.
        ensures tally { OnOk result (self.new.tally ≡ self.old.tally) }
        ensures spent { OnOk result (self.new.spent ≡ self.old.spent) }
        ensures err { OnErr result (self.new ≡ self.old) }
    {
        if n > self.ahead {
            let Some(wanted) = self.len.checked_add(n) else {
                return Err(NoMemory);
            };
            if wanted > self.memory.len() {
                self.memory.grow(wanted)?;
            }
            self.ahead = n;
        }
        Ok(())
    }

    /// Stores a number in `width` octets at an offset from the cursor, in the space that is
    /// ensured.
    #[inline(always)]
    pub fn put(&mut self, off: usize, width: usize, order: Order, v: u64)
        requires width { IsWidth width }
        requires within { off + width ≤ length self.old.front }
        requires fits { v < 256 ^ width }
        ensures done { self.new.done ≡ self.old.done }
        ensures front { self.new.front ≡ written self.old.front off (in_order order width v) }
        ensures tally { self.new.tally ≡ stored self.old.tally }
        ensures spent { self.new.spent ≡ stored self.old.spent }
    {
        self.store_word(off, width, order, v);
        self.count_store();
    }

    /// Stores octets at an offset from the cursor, in the space that is ensured.
    #[inline(always)]
    pub fn put_const(&mut self, off: usize, octets: &[u8])
        requires { off + length octets.now ≤ length self.old.front }
        ensures done { self.new.done ≡ self.old.done }
        ensures front { self.new.front ≡ written self.old.front off octets.now }
        ensures tally { self.new.tally ≡ stored self.old.tally }
        ensures spent { self.new.spent ≡ stored self.old.spent }
    {
        self.store(off, octets);
        self.count_store();
    }

    /// Stores octets in three pieces, one behind the other, as one store of `put_const`.
    #[tactic(auto, using(crate::proofs::Pieced::written_three))]
    pub fn put_pieces(&mut self, off: usize, front: &[u8], piece: &[u8], rest: &[u8])
        requires { off + length (front.now ++ (piece.now ++ rest.now)) ≤ length self.old.front }
        ensures done { self.new.done ≡ self.old.done }
        ensures front { self.new.front ≡ written self.old.front off (front.now ++ (piece.now ++ rest.now)) }
        ensures tally { self.new.tally ≡ stored self.old.tally }
        ensures spent { self.new.spent ≡ stored self.old.spent }
    {
        self.store(off, front);
        let second = self.behind(off, front);
        self.store(second, piece);
        let third = self.behind(second, piece);
        self.store(third, rest);
        self.count_store();
    }

    /// Moves the first n octets of the space to those that are done.
    #[inline(always)]
    pub fn advance(&mut self, n: usize)
        requires { n ≤ length self.old.front }
        ensures done { self.new.done ≡ self.old.done ++ take n self.old.front }
        ensures front { self.new.front ≡ drop n self.old.front }
        ensures tally { self.new.tally ≡ moved self.old.tally }
        ensures spent { self.new.spent ≡ moved self.old.spent }
    {
        self.pass(n);
        self.tally.moves = self.tally.moves.saturating_add(1);
    }

    /// Appends zeros up to a multiple of a.
    pub fn align(&mut self, a: usize)
        // What is passed.
        requires width { IsWidth a }
        requires within { gap (length self.old.done) a ≤ length self.old.front }
        // What is written.
        ensures done { self.new.done ≡ self.old.done ++ replicate (gap (length self.old.done) a) 0 }
        ensures front { self.new.front ≡ drop (gap (length self.old.done) a) self.old.front }
        // What it costs.
        ensures tally { self.new.tally ≡ moved self.old.tally }
        ensures spent { self.new.spent ≡ moved self.old.spent }
    {
        let count = (a - self.octets().len() % a) % a;
        self.store_zeros(count);
        self.advance(count);
    }

    /// Stores a number of 32 bits over octets that are done, from octet `at` of the message on.
    pub fn patch4(&mut self, at: usize, order: Order, v: u32)
        requires within { at + 4 ≤ length self.old.done }
        ensures done { self.new.done ≡ written self.old.done at (in_order order 4 v) }
        ensures front { self.new.front ≡ self.old.front }
        ensures tally { self.new.tally ≡ stored self.old.tally }
        ensures spent { self.new.spent ≡ stored self.old.spent }
    {
        match order {
            Order::Big => self.overwrite(at, &v.to_be_bytes()),
            Order::Little => self.overwrite(at, &v.to_le_bytes()),
        }
        self.count_store();
    }

    /// The octets so far.
    pub fn octets(&self) -> &[u8]
        ensures { result.now ≡ self.now.done }
    {
        self.memory.octets(0, self.len)
    }

    /// How many octets are ensured after those that are done.
    pub fn ahead(&self) -> usize
        ensures { result ≡ length self.now.front }
    {
        self.ahead
    }

    /// The counts since the buffer was made or cleared.
    pub fn tally(&self) -> Tally
        ensures { result ≡ self.now.tally }
    {
        self.tally
    }

    /// The counts over the buffer's whole life.
    pub fn spent(&self) -> Tally
        ensures { result ≡ self.now.spent }
    {
        together(self.earlier, self.tally)
    }

    /// Begins anew. What was spent, and the memory, are kept.
    pub fn clear(&mut self)
        ensures { self.new
            ≡ record { done = []; front = []; tally = none; spent = self.old.spent } }
    {
        self.earlier = together(self.earlier, self.tally);
        self.len = 0;
        self.ahead = 0;
        self.tally = NOTHING;
    }

    /// Moves the cursor over the first n octets of the space, at no cost.
    #[inline(always)]
    pub(crate) fn pass(&mut self, n: usize)
        requires { n ≤ length self.old.front }
        ensures done { self.new.done ≡ self.old.done ++ take n self.old.front }
        ensures front { self.new.front ≡ drop n self.old.front }
        ensures tally { self.new.tally ≡ self.old.tally }
        ensures spent { self.new.spent ≡ self.old.spent }
    {
        self.len += n;
        self.ahead -= n;
    }

    /// Stores octets at an offset, at no cost.
    #[inline(always)]
    pub(crate) fn store(&mut self, off: usize, octets: &[u8])
        requires { off + length octets.now ≤ length self.old.front }
        ensures done { self.new.done ≡ self.old.done }
        ensures front { self.new.front ≡ written self.old.front off octets.now }
        ensures tally { self.new.tally ≡ self.old.tally }
        ensures spent { self.new.spent ≡ self.old.spent }
    {
        let start = self.len + off;
        write_at(&mut self.memory, start, octets);
    }

    /// The offset behind octets at an offset.
    fn behind(&self, off: usize, octets: &[u8]) -> usize
        requires { off + length octets.now ≤ length self.now.front }
        ensures { result ≡ off + length octets.now }
    {
        let _space = self.ahead;
        off + octets.len()
    }

    /// Stores a number at an offset, at no cost.
    #[inline(always)]
    fn store_word(&mut self, off: usize, width: usize, order: Order, v: u64)
        // What is put.
        requires width { IsWidth width }
        requires within { off + width ≤ length self.old.front }
        requires fits { v < 256 ^ width }
        // What is written.
        ensures done { self.new.done ≡ self.old.done }
        ensures front { self.new.front ≡ written self.old.front off (in_order order width v) }
        // What stays the same.
        ensures tally { self.new.tally ≡ self.old.tally }
        ensures spent { self.new.spent ≡ self.old.spent }
    {
        let start = self.len + off;
        write_word(&mut self.memory, start, width, order, v);
    }

    /// Stores the numbers of an image at the beginning of the space, the octets of each reversed.
    pub(crate) fn store_swapped(&mut self, width: usize, image: &[u8])
        // What is stored.
        requires width { IsSwapWidth width }
        requires whole { length image.now % width ≡ 0 }
        requires within { length image.now ≤ length self.old.front }
        // What is written.
        ensures done { self.new.done ≡ self.old.done }
        ensures front { self.new.front ≡ swapped width image.now ++ drop (length image.now) self.old.front }
        // What stays the same.
        ensures tally { self.new.tally ≡ self.old.tally }
        ensures spent { self.new.spent ≡ self.old.spent }
    {
        swap_at(&mut self.memory, self.len, width, image);
    }

    fn store_zeros(&mut self, count: usize)
        // What is stored.
        requires within { count ≤ length self.old.front }
        requires few { count < 8 }
        // What is written.
        ensures done { self.new.done ≡ self.old.done }
        ensures front { self.new.front ≡ replicate count 0 ++ drop count self.old.front }
        // What stays the same.
        ensures tally { self.new.tally ≡ self.old.tally }
        ensures spent { self.new.spent ≡ self.old.spent }
    {
        let zeros = [0u8; 8];
        self.store(0, &zeros[..count]);
    }

    fn overwrite(&mut self, at: usize, octets: &[u8])
        requires { at + length octets.now ≤ length self.old.done }
        ensures done { self.new.done ≡ written self.old.done at octets.now }
        ensures front { self.new.front ≡ self.old.front }
        ensures tally { self.new.tally ≡ self.old.tally }
        ensures spent { self.new.spent ≡ self.old.spent }
    {
        write_at(&mut self.memory, at, octets);
    }

    fn count_check(&mut self)
        ensures done { self.new.done ≡ self.old.done }
        ensures front { self.new.front ≡ self.old.front }
        ensures tally { self.new.tally ≡ checked self.old.tally }
        ensures spent { self.new.spent ≡ checked self.old.spent }
    {
        self.tally.checks = self.tally.checks.saturating_add(1);
    }

    /// Counts a row.
    pub(crate) fn count_row(&mut self)
        ensures done { self.new.done ≡ self.old.done }
        ensures front { self.new.front ≡ self.old.front }
        ensures tally { self.new.tally ≡ rowed self.old.tally }
        ensures spent { self.new.spent ≡ rowed self.old.spent }
    {
        self.tally.rows = self.tally.rows.saturating_add(1);
    }

    #[inline(always)]
    fn count_store(&mut self)
        ensures done { self.new.done ≡ self.old.done }
        ensures front { self.new.front ≡ self.old.front }
        ensures tally { self.new.tally ≡ stored self.old.tally }
        ensures spent { self.new.spent ≡ stored self.old.spent }
    {
        self.tally.stores = self.tally.stores.saturating_add(1);
    }
}
