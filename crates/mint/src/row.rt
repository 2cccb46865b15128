//! Rows of numbers, kept as one block of octets.

ghost use Rattle.std.specs.Prelude.{[], ◌∷◌, ◌++◌, OnOk, OnErr, IfOk, IsTrue, ◌≡◌, ◌≢◌, ◌%◌, length, slice_get};
ghost use Rattle.std.specs.List.{list_all};
ghost use Rattle.mint.specs.Kinds.{IsInRange, in_range, width};
ghost use Rattle.mint.specs.Row.{number_in, image_of, numbers_of};

use crate::kind::Kind;
use kit_base::{NoMemory, Octets};
use std::alloc::Global;
use std::marker::Model;

/// Numbers of one kind.
#[derive(Drop)]
pub struct Row {
    kind: Kind,
    image: Octets,
}

impl Model for Row {
    ghost use Rattle.mint.specs.Row.{Numbers, numbers_of, IsImage};

    ghost Value = { Numbers };

    ghost view = { λ a. record { kind = a.kind; numbers = numbers_of a.kind a.image } };

    ghost invariant = { λ a. IsImage a.kind a.image };
}

impl Row {
    /// A row without numbers, which takes no memory.
    pub fn new(alloc: Global, kind: Kind) -> Row
        ensures { result ≡ record { kind = kind; numbers = [] } }
    {
        Row {
            kind,
            image: Octets::new(alloc),
        }
    }

    /// The kind of its numbers.
    pub fn kind(&self) -> Kind
        ensures value { result ≡ self.now.kind }
        ensures ranged { IsTrue (list_all (in_range self.now.kind) self.now.numbers) }
    {
        self.kind
    }

    /// The octets of its numbers: two's complement, the least significant octet first.
    pub fn image(&self) -> &[u8]
        ensures value { result.now ≡ image_of self.now.kind self.now.numbers }
        ensures ranged { IsTrue (list_all (in_range self.now.kind) self.now.numbers) }
    {
        self.image.as_slice()
    }

    /// How many numbers there are.
    pub fn len(&self) -> usize
        ensures { result ≡ length self.now.numbers }
    {
        self.image.len() / self.kind.width()
    }

    /// The number at a place, counted from 0.
    pub fn get(&self, i: usize) -> Option<i128>
        ensures { result ≡ slice_get self.now.numbers i }
    {
        let width = self.kind.width();
        let octets = self.image.as_slice();
        if i >= octets.len() / width {
            return None;
        }
        let at = i * width;
        Some(self.kind.number(&octets[at..at + width]))
    }

    /// Appends a number.
    pub fn push(&mut self, n: i128) -> Result<(), NoMemory>
        requires { IsInRange self.old.kind n }
        ensures ok { OnOk result (self.new ≡ record self.old { numbers = self.old.numbers ++ n ∷ [] }) }
        ensures err { OnErr result (self.new ≡ self.old) }
    {
        let octets = n.to_le_bytes();
        self.image.append(&octets[..self.kind.width()])
    }

    /// Appends the numbers of an image, as one block.
    pub fn append_image(&mut self, image: &[u8]) -> Result<(), NoMemory>
        requires kind { self.old.kind ≢ Kind.Bool }
        requires whole { length image.now % width self.old.kind ≡ 0 }
        ensures ok { OnOk result (self.new
            ≡ record self.old { numbers = self.old.numbers ++ numbers_of self.old.kind image.now }) }
        ensures err { OnErr result (self.new ≡ self.old) }
    {
        self.image.append(image)
    }

    /// The row of an image, as one block.
    pub fn of_image(alloc: Global, kind: Kind, image: &[u8]) -> Result<Row, NoMemory>
        requires kind { kind ≢ Kind.Bool }
        requires whole { length image.now % width kind ≡ 0 }
        ensures { IfOk result (λ r. r ≡ record { kind = kind; numbers = numbers_of kind image.now }) }
    {
        let mut row = Row::new(alloc, kind);
        row.append_image(image)?;
        Ok(row)
    }

    /// Another row of the same numbers.
    pub fn copy(&self, alloc: Global) -> Result<Row, NoMemory>
        ensures { IfOk result (λ r. r ≡ self.now) }
    {
        let mut image = Octets::new(alloc);
        image.append(self.image.as_slice())?;
        Ok(Row {
            kind: self.kind,
            image,
        })
    }
}

impl Kind {
    /// How many octets a number takes in an image.
    pub fn width(self) -> usize
        ensures { result ≡ width self }
    {
        match self {
            Kind::Octet | Kind::I8 | Kind::U8 | Kind::Char | Kind::Bool => 1,
            Kind::I16 | Kind::U16 => 2,
            Kind::I32 | Kind::U32 => 4,
            Kind::I64 | Kind::U64 => 8,
        }
    }

    /// The number that the octets of a word stand for.
    #[tactic(auto, unfolding(crate::specs::Row::number_in))]
    fn number(self, octets: &[u8]) -> i128
        requires { length octets.now ≡ width self }
        ensures { result ≡ number_in self octets.now }
    {
        match self {
            Kind::Octet | Kind::U8 | Kind::Char | Kind::Bool => i128::from(octets[0]),
            Kind::I8 => i128::from(octets[0].cast_signed()),
            Kind::I16 => i128::from(i16::from_le_bytes([octets[0], octets[1]])),
            Kind::U16 => i128::from(u16::from_le_bytes([octets[0], octets[1]])),
            Kind::I32 => i128::from(i32::from_le_bytes(four(octets))),
            Kind::U32 => i128::from(u32::from_le_bytes(four(octets))),
            Kind::I64 => i128::from(i64::from_le_bytes(eight(octets))),
            Kind::U64 => i128::from(u64::from_le_bytes(eight(octets))),
        }
    }
}

fn four(octets: &[u8]) -> [u8; 4]
    requires { length octets.now ≡ 4 }
    ensures { result ≡ octets.now }
{
    [octets[0], octets[1], octets[2], octets[3]]
}

fn eight(octets: &[u8]) -> [u8; 8]
    requires { length octets.now ≡ 8 }
    ensures { result ≡ octets.now }
{
    [
        octets[0], octets[1], octets[2], octets[3], octets[4], octets[5], octets[6], octets[7],
    ]
}
