//! What is counted of messages.

ghost use Rattle.std.specs.Prelude.{◌≡◌, ◌++◌, ◌+◌, ◌<◌, ◌^◌, ℕ, List, length, IfOk, OnOk, codes};
ghost use Rattle.kit_base.specs.Bytes.{be};
ghost use Rattle.hex.specs.Hex.{encode_lower};
ghost use Rattle.stub_print.specs.Putting.{IsPut};
ghost use Rattle.flick_texts.specs.Counted.{counts_line, folded, folded_with, Counted, IsMade};

use crate::words::{put, put_numbered};
use kit_base::{NoMemory, Octets};
use std::alloc::Global;

/// What is counted of messages.
#[derive(Drop)]
pub(crate) struct Sums {
    /// How many messages are above the limit.
    pub(crate) long: u32,
    /// The octets of the others.
    pub(crate) octets: u64,
    /// The fold of these octets.
    pub(crate) fold: u32,
}

impl Sums {
    /// Those of no messages.
    pub(crate) fn new() -> Sums
        ensures long { result.long ≡ 0 }
        ensures octets { result.octets ≡ 0 }
        ensures fold { result.fold ≡ 0 }
    {
        Sums {
            long: 0,
            octets: 0,
            fold: 0,
        }
    }

    /// Counts a message, or one that is above the limit.
    pub(crate) fn count(&mut self, is_within: bool, message: &[u8])
        requires long { self.old.long + 1 < 2 ^ 32 }
        requires octets { self.old.octets + length message.now < 2 ^ 64 }
        ensures { (m : List ℕ) → IsMade is_within m message.now → Counted m self.old self.new }
    {
        if is_within {
            self.octets += message.len() as u64;
            self.fold = folded(self.fold, message);
        } else {
            self.long += 1;
        }
    }

    /// The line of what is counted of so many messages.
    pub(crate) fn line(&self, alloc: Global, many: u32) -> Result<Octets, NoMemory>
        ensures { IfOk result (λ t.
            t ≡ counts_line many self.now.long self.now.octets self.now.fold) }
    {
        let mut out = Octets::new(alloc);
        put_numbered(&mut out, b"made ", u64::from(many))?;
        put_numbered(&mut out, b" long ", u64::from(self.long))?;
        put_numbered(&mut out, b" octets ", self.octets)?;
        put_fold(alloc, self.fold, &mut out)?;
        Ok(out)
    }
}

/// A fold after octets.
fn folded(fold: u32, octets: &[u8]) -> u32
    ensures { result ≡ folded fold octets.now }
{
    let mut folded = fold;
    for octet in octets {
        folded = folded_with(folded, *octet);
    }
    folded
}

/// A fold after one octet more.
fn folded_with(fold: u32, octet: u8) -> u32
    ensures { result ≡ folded_with fold octet }
{
    fold.wrapping_mul(31).wrapping_add(u32::from(octet))
}

/// Puts a fold in hexadecimal digits, and ends the line.
fn put_fold(alloc: Global, fold: u32, out: &mut Octets) -> Result<(), NoMemory>
    ensures { OnOk result (IsPut out.old
        (λ rest. codes " fold " ++ (encode_lower (be 4 fold) ++ (codes "\n" ++ rest))) out.new) }
{
    let octets = fold.to_be_bytes();
    put(out, b" fold ")?;
    put(out, hex::encode(alloc, octets.as_slice())?.as_bytes())?;
    put(out, b"\n")
}
