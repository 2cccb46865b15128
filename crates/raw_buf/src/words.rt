//! Words: numbers of four octets, the most significant octet first.

ghost use Rattle.std.specs.Prelude.{◌≡◌, ◌≤◌, ◌*◌, ◌++◌, length, drop};
ghost use Rattle.kit_base.specs.Bytes.{be};
ghost use Rattle.raw_buf.specs.Buf.{moved, stored};
ghost use Rattle.raw_buf.specs.Words.{words, worded};

use crate::SendBuf;
use wire_def::Order;

impl SendBuf {
    /// Appends a word in the space that is ensured, by a store and a move.
    pub fn put_word(&mut self, n: u32)
        requires { 4 ≤ length self.old.front }
        ensures done { self.new.done ≡ self.old.done ++ be 4 n }
        ensures front { self.new.front ≡ drop 4 self.old.front }
        ensures tally { self.new.tally ≡ moved (stored self.old.tally) }
        ensures spent { self.new.spent ≡ moved (stored self.old.spent) }
    {
        self.put(0, 4, Order::Big, u64::from(n));
        self.advance(4);
    }

    /// Appends words in the space that is ensured, each by a store and a move.
    #[tactic(auto, using(crate::proofs::Wording::worded_zero))]
    pub fn put_words(&mut self, numbers: &[u32])
        requires { 4 * length numbers.now ≤ length self.old.front }
        ensures done { self.new.done ≡ self.old.done ++ words numbers.now }
        ensures front { self.new.front ≡ drop (4 * length numbers.now) self.old.front }
        ensures tally { self.new.tally ≡ worded (length numbers.now) self.old.tally }
        ensures spent { self.new.spent ≡ worded (length numbers.now) self.old.spent }
    {
        for number in numbers {
            self.put_word(*number);
        }
    }
}
