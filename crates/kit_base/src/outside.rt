//! What gives octets, what takes them, and what has files by their paths.

ghost use Rattle.std.specs.Prelude.{◌≡◌, ◌≢◌, ◌<◌, ◌≤◌, List, ℕ, ◌++◌, length, take, OnOk, OnErr, IfOk, IsErrOf, Option};
ghost use Rattle.std.specs.Io.{ReadsAtMost, WritesAtMost};
ghost use Rattle.std.specs.Io.KnownBytes.{ReadConsumes, WriteAppends, Appends};
ghost use Rattle.kit_base.specs.Causes.{Rose, HasCause};
ghost use Rattle.kit_base.specs.Memory.{HasFile, LacksFile};

use crate::{Failed, NoMemory, Octets};
use std::alloc::Global;

/// An input: gives octets in order. A read may give fewer than there is room for.
pub trait Source {
    /// The octets that reads will give, where this is known.
    ghost left: { Self → Option (List ℕ) };

    /// How often a read has failed.
    ghost faults: { Self → ℕ };

    /// Takes octets off what is left, and puts them at the beginning of `into`. It takes none only
    /// at the end, or where there is no room.
    fn read(&mut self, into: &mut [u8]) -> Result<usize, Failed>
        ensures bound { ReadsAtMost result into.new }
        ensures bytes { ReadConsumes (left self.old) (left self.new) result into.new }
        ensures cause { HasCause (faults self.old) (faults self.new) result };
}

/// An output: takes octets in order. A write may take fewer than it is given.
pub trait Sink {
    /// The octets that were written, where this is known.
    ghost held: { Self → Option (List ℕ) };

    /// How often a write has failed.
    ghost faults: { Self → ℕ };

    /// Takes octets off the beginning of the piece, and at least one where there is one.
    fn write(&mut self, piece: &[u8]) -> Result<usize, Failed>
        ensures bound { WritesAtMost result piece.now }
        ensures some { IfOk result (λ n. 0 < length piece.now → 0 < n) }
        ensures bytes { WriteAppends (held self.old) (held self.new) result piece.now }
        ensures cause { HasCause (faults self.old) (faults self.new) result };
}

/// Why a file is not read.
#[derive(Clone, Copy, Debug, PartialEq, Eq)]
pub enum ShelfErr {
    /// There is no file with that path.
    Absent,
    /// The file could not be read.
    Failed,
    /// Out of memory.
    NoMemory,
}

/// Files, found by their paths.
pub trait Shelf {
    /// The contents of the files, where this is known.
    ghost files: { Self → Option (List ℕ → Option (List ℕ)) };

    /// How often a file could not be read.
    ghost faults: { Self → ℕ };

    /// The content of the file at a path, or its first `most` octets where it is longer.
    fn read_file(&mut self, alloc: Global, path: &[u8], most: u32) -> Result<Octets, ShelfErr>
        // What the files are.
        ensures same { files self.new ≡ files self.old }
        // What was read.
        ensures content { IfOk result (λ octets. HasFile (files self.old) path.now most octets) }
        ensures bound { IfOk result (λ octets. length octets ≤ most) }
        ensures absent { IsErrOf result ShelfErr.Absent → LacksFile (files self.old) path.now }
        // When it fails.
        ensures later { faults self.old ≤ faults self.new }
        ensures failed { IsErrOf result ShelfErr.Failed → Rose (faults self.old) (faults self.new) }
        ensures reported { result ≢ Err ShelfErr.Failed → faults self.old ≡ faults self.new };
}

/// Writes all the octets. After a refusal a prefix of them was appended.
pub fn write_whole<K: Sink>(sink: &mut K, octets: &[u8]) -> Result<(), Failed>
    ensures ok { OnOk result (Appends (K.held sink.old) (K.held sink.new) octets.now) }
    ensures err { OnErr result ((front : List ℕ) × (rest : List ℕ) × (octets.now ≡ front ++ rest)
        × Appends (K.held sink.old) (K.held sink.new) front) }
    ensures cause { HasCause (K.faults sink.old) (K.faults sink.new) result }
{
    let mut rest = octets;
    while rest.len() > 0 {
        match sink.write(rest) {
            Ok(count) => rest = &rest[count..],
            Err(failed) => return Err(failed),
        }
    }
    Ok(())
}
