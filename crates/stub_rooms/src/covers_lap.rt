//! The turn of a loop, and how much may be walked.

ghost use Rattle.std.specs.Prelude.{◌≡◌, ◌<◌, IfOk};
ghost use Rattle.stub_flat.specs.Places.{spot_at};
ghost use Rattle.stub_rooms.specs.CoversLap.{nodes};

use cast_stub::{Path, SendOps};
use kit_base::NoMemory;
use mint::table::Mint;
use std::alloc::Global;
use stub_places::{Spot, spot_at};

/// The turn of a loop.
#[derive(Clone, Copy)]
pub(crate) enum Lap<'a> {
    /// So many octets: a number of a row.
    Octets(u32),
    /// A body over a place.
    Body(&'a SendOps, Spot),
}

/// What a walk through code has: the memory, the types, and how deep blocks may nest.
#[derive(Drop)]
pub(crate) struct Walk<'a> {
    /// The memory.
    pub alloc: Global,
    /// The types.
    pub mint: &'a Mint,
    /// How deep blocks may nest.
    pub depth: u32,
}

impl<'a> Walk<'a> {
    /// One level deeper, where that is allowed.
    pub(crate) fn deeper(&self) -> Result<Walk<'a>, NoMemory>
        ensures mint { IfOk result (λ w. nodes w ≡ nodes self.now) }
        ensures depth { IfOk result (λ w. w.depth < self.now.depth) }
    {
        match self.depth.checked_sub(1) {
            Some(depth) => Ok(Walk {
                alloc: self.alloc,
                mint: self.mint,
                depth,
            }),
            None => Err(NoMemory),
        }
    }
}

/// The place at a path.
pub(crate) fn place_at(path: &Path, spot: Spot, walk: &Walk<'_>) -> Spot
    ensures { result ≡ spot_at (nodes walk.now) path.now spot }
{
    spot_at(walk.mint, path.as_slice(), spot)
}
