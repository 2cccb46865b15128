//! Whether code that sends appends only octets that it has ensured.

ghost use Rattle.std.specs.Prelude.{◌≡◌, ◌<◌, ◌&&◌, [], is_some, length, map, slice_index_or, IfOk, Some, None};
ghost use Rattle.cast_stub.specs.Block.{code_seen};
ghost use Rattle.stub_flat.specs.Residues.{every};
ghost use Rattle.stub_cover.specs.Rooms.{on, only_room};
ghost use Rattle.stub_cover.specs.Covers.{covers_at, list_runs, run};
ghost use Rattle.stub_rooms.specs.CoversLap.{nodes};

use crate::covers_lap::Walk;
use crate::covers_run::run;
use crate::rooms::{bare, only_room};
use cast_stub::{SendCode, SendOps};
use kit_base::NoMemory;
use mint::table::{Mint, NodeId};
use std::alloc::Global;
use stub_places::Spot;
use stub_places::sets::every;

/// How deep blocks may nest.
const DEEPEST: u32 = 512;

/// Whether a code is not refused from position 0, without room.
fn is_run(ops: &SendOps, id: NodeId, walk: &Walk<'_>, left: &mut u64) -> Result<bool, NoMemory>
    ensures { IfOk result
        (λ b. b ≡ is_some (run (nodes walk.now) (Some id) (code_seen ops.now) None (only_room 0 0))) }
{
    let start = only_room(0, 0);
    let end = run(ops, Some(id), &start, walk, left)?;
    Ok(end.is_some())
}

/// Whether a code of the list is not refused from no room at any residue.
fn is_run_bare(ops: &SendOps, spot: Spot, walk: &Walk<'_>, left: &mut u64) -> Result<bool, NoMemory>
    ensures { IfOk result
        (λ b. b ≡ is_some (run (nodes walk.now) spot (code_seen ops.now) None (on every 0))) }
{
    let start = bare(&every());
    let end = run(ops, spot, &start, walk, left)?;
    Ok(end.is_some())
}

/// Whether the code of a place in the list is not refused.
fn is_run_at(
    codes: &[SendOps],
    spots: &[Spot],
    i: usize,
    walk: &Walk<'_>,
    left: &mut u64,
) -> Result<bool, NoMemory>
    requires code { i < length codes.now }
    requires spot { i < length spots.now }
    ensures { IfOk result (λ b. let s = slice_index_or spots.now i None in
        let ops = slice_index_or codes.now i [] in
        b ≡ is_some (run (nodes walk.now) s (code_seen ops) None (on every 0))) }
{
    is_run_bare(&codes[i], spots[i], walk, left)
}

/// Whether each code of the list is not refused.
fn are_run(
    codes: &[SendOps],
    spots: &[Spot],
    walk: &Walk<'_>,
    left: &mut u64,
) -> Result<bool, NoMemory>
    ensures { IfOk result (λ b. b ≡ list_runs (nodes walk.now) (map code_seen codes.now) spots.now) }
{
    if codes.len() != spots.len() {
        return Ok(false);
    }
    for i in 0..codes.len() {
        let runs = is_run_at(codes, spots, i, walk, left)?;
        if !runs {
            return Ok(false);
        }
    }
    Ok(true)
}

/// Whether a code over a node has ensured what it appends, from position 0, where each code of its list is called at these
/// nodes. It gives up, as out of memory, where blocks nest more than 512 deep, and where no steps are left.
pub fn covers_code(
    alloc: Global,
    code: &SendCode,
    mint: &Mint,
    id: NodeId,
    spots: &[Spot],
    left: &mut u64,
) -> Result<bool, NoMemory>
    ensures { IfOk result (λ b. b ≡ covers_at mint.now id code.now (Some spots.now)) }
{
    let walk = Walk {
        alloc,
        mint,
        depth: DEEPEST,
    };
    let runs = is_run(&code.ops, id, &walk, left)?;
    if !runs {
        return Ok(false);
    }
    are_run(code.subs.as_slice(), spots, &walk, left)
}
