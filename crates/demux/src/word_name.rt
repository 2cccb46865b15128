//! Names, read a word at a time.

ghost use Rattle.std.specs.Prelude.{◌≡◌, ◌≤◌, ◌*◌, length};
ghost use Rattle.kit_base.specs.Causes.{raised};
ghost use Rattle.demux.specs.Names.{first_word, word_at};
ghost use Rattle.demux.specs.Spelled.{AreOctets};

use std::marker::Model;

/// A name that is read in words of four octets, the first octet the most significant. It counts the
/// words that were read.
#[derive(Drop)]
pub struct WordName<'a> {
    name: &'a [u8],
    reads: u64,
}

impl<'a> Model for WordName<'a> {
    ghost use Rattle.demux.specs.Names.{Read};
    ghost use Rattle.demux.specs.Spelled.{AreOctets};

    ghost Value = { Read };

    ghost view = { λ n. record { name = n.name.now; reads = n.reads } };

    ghost invariant = { λ n. AreOctets n.name.now };
}

impl<'a> WordName<'a> {
    /// A name of which nothing was read.
    pub fn new(name: &'a [u8]) -> WordName<'a>
        ensures { result ≡ record { name = name.now; reads = 0 } }
    {
        WordName { name, reads: 0 }
    }

    /// The number of its octets.
    pub fn len(&self) -> usize
        ensures { result ≡ length self.now.name }
    {
        self.name.len()
    }

    /// The word at a place, counted from 0: four octets, of which those past the end are 0.
    #[inline(always)]
    pub fn word(&mut self, i: usize) -> u32
        requires { 4 * i ≤ length self.old.name }
        ensures word { result ≡ word_at self.old.name i }
        ensures name { self.new.name ≡ self.old.name }
        ensures reads { self.new.reads ≡ raised self.old.reads 1 }
    {
        self.reads = self.reads.saturating_add(1);
        match &self.name[4 * i..] {
            [a, b, c, d, ..] => u32::from_be_bytes([*a, *b, *c, *d]),
            rest => word_of(rest),
        }
    }

    /// That a name is made of octets.
    pub(crate) fn has_octets(&self)
        ensures { AreOctets self.now.name }
    {
        let _ = &self.name;
    }

    /// How many words were read. The count stops at 18,446,744,073,709,551,615.
    pub fn reads(&self) -> u64
        ensures { result ≡ self.now.reads }
    {
        self.reads
    }
}

/// The word at a place of a name, counted from 0: four octets, of which those past the end are 0.
pub(crate) fn word_in(name: &[u8], i: usize) -> u32
    requires { 4 * i ≤ length name.now }
    ensures { result ≡ word_at name.now i }
{
    word_of(&name[4 * i..])
}

/// The word of the first four octets, of which those that are not there are 0.
fn word_of(octets: &[u8]) -> u32
    ensures { result ≡ first_word octets.now }
{
    match octets {
        [] => 0,
        [a] => u32::from_be_bytes([*a, 0, 0, 0]),
        [a, b] => u32::from_be_bytes([*a, *b, 0, 0]),
        [a, b, c] => u32::from_be_bytes([*a, *b, *c, 0]),
        [a, b, c, d, ..] => u32::from_be_bytes([*a, *b, *c, *d]),
    }
}
