//! Where a run of a block stands: its rooms and its credit.

ghost use Rattle.std.specs.Prelude.{◌≡◌, ℕ, List, nat_le, option_map, IfOk, OnOk, Some, None, if◌then◌else◌};
ghost use Rattle.std.specs.Str.{bytes_eq};
ghost use Rattle.mint.specs.declared.node.Node.{Node};
ghost use Rattle.mint.specs.Kinds.{width};
ghost use Rattle.cast_stub.specs.Steps.{is_width};
ghost use Rattle.cast_stub.specs.Block.{code_seen, ensure_row};
ghost use Rattle.stub_flat.specs.Places.{node_of, row_kind, spot_at};
ghost use Rattle.stub_cover.specs.Rooms.{Rooms as AllRooms, padded, set};
ghost use Rattle.stub_cover.specs.Covers.{run_row, unit_of, most_turns};
ghost use Rattle.stub_rooms.specs.RoomsShown.{Follows, room_at};
ghost use Rattle.stub_places.specs.Sets.{each_of};
ghost use Rattle.stub_rooms.specs.CoversLap.{nodes};
ghost use Rattle.stub_rooms.specs.CoversStanding.{credit, credit_of, each_turn, few, loop_of, maybe_loop, GoesOn, Steps};

use crate::covers_lap::{Lap, Walk, place_at};
use crate::rooms::{Rooms, padded, set};
use cast_stub::copies::copy_path;
use cast_stub::{Path, SendOps};
use kit_base::NoMemory;
use mint::table::Mint;
use std::alloc::Global;
use stub_places::{Spot, element_at, greatest_at, has_length_at, is_width, row_kind_at, width};

/// Where a run of a block stands.
#[derive(Drop)]
pub(crate) struct Standing {
    /// The rooms.
    pub rooms: Rooms,
    /// The path of the credit.
    pub path: Path,
    /// How many octets are ensured for each element there, if there is a credit.
    pub unit: Option<u32>,
}

/// Goes on with these rooms, if there are any, and the credit.
pub(crate) fn go_on(state: &mut Standing, rooms: Option<Rooms>) -> bool
    ensures { GoesOn rooms (credit state.old) result state.new }
{
    let Some(rooms) = rooms else {
        return false;
    };
    state.rooms = rooms;
    true
}

/// Goes on with these rooms, if there are any, and no credit.
pub(crate) fn go_on_bare(state: &mut Standing, rooms: Option<Rooms>) -> bool
    ensures { GoesOn rooms None result state.new }
{
    state.unit = None;
    go_on(state, rooms)
}

/// Each room is so great, and the path has the unit as its credit.
pub(crate) fn credit_row(
    alloc: Global,
    path: &Path,
    unit: u32,
    extra: u32,
    state: &mut Standing,
) -> Result<(), NoMemory>
    ensures rooms { OnOk result (state.new.rooms ≡ each_of (set extra (room_at state.old.rooms))) }
    ensures credit { OnOk result (credit state.new ≡ credit_of path.now (Some unit)) }
{
    state.rooms = set(extra, &state.rooms);
    state.path = copy_path(alloc, path)?;
    state.unit = Some(unit);
    Ok(())
}

/// Ensures octets for each element of a list; tells whether there is a length at the path.
pub(crate) fn run_ensure_row(
    path: &Path,
    unit: u32,
    extra: u32,
    spot: Spot,
    state: &mut Standing,
    walk: &Walk<'_>,
) -> Result<bool, NoMemory>
    ensures { IfOk result
        (λ goes. Steps (nodes walk.now) spot (ensure_row path.now unit extra) goes state.old state.new) }
{
    let there = has_length_at(walk.mint, place_at(path, spot, walk));
    if !there {
        return Ok(false);
    }
    credit_row(walk.alloc, path, unit, extra, state)?;
    Ok(true)
}

/// The rooms behind zeros up to a multiple.
pub(crate) fn run_align(a: u32, rooms: &Rooms) -> Option<Rooms>
    ensures { Follows (λ R. if is_width a then padded a R else Some R) rooms.now result }
{
    if is_width(a) {
        padded(a, rooms)
    } else {
        Some(*rooms)
    }
}

/// The octets of a number of a row, where its kind is known.
fn own_width(mint: &Mint, place: Spot) -> Option<u32>
    ensures { result ≡ option_map width (row_kind (node_of mint.now place)) }
{
    match row_kind_at(mint, place) {
        Some(kind) => Some(width(kind)),
        None => None,
    }
}

/// Four octets for a number of a row, where its kind is known.
fn four(mint: &Mint, place: Spot) -> Option<u32>
    ensures { result ≡ option_map (λ k. 4) (row_kind (node_of mint.now place)) }
{
    match row_kind_at(mint, place) {
        Some(_) => Some(4),
        None => None,
    }
}

fn is_same_path(a: &[u32], b: &[u32]) -> bool
    ensures { result ≡ bytes_eq a.now b.now }
{
    a == b
}

/// The credit's unit, where it is one of this path.
fn unit_of(path: &Path, state: &Standing) -> Option<u32>
    ensures { result ≡ unit_of path.now (credit state.now) }
{
    let Some(unit) = state.unit else {
        return None;
    };
    if is_same_path(path.as_slice(), state.path.as_slice()) {
        Some(unit)
    } else {
        None
    }
}

/// Whether so many turns are run one by one.
fn is_few(n: u32) -> bool
    ensures { result ≡ nat_le n most_turns }
{
    n <= 8192
}

/// The greatest number of turns, where they are run one by one.
pub(crate) fn few(most: Option<u32>) -> Option<u32>
    ensures { result ≡ few most }
{
    let Some(most) = most else {
        return None;
    };
    if is_few(most) { Some(most) } else { None }
}

/// A loop: its lap, its greatest length, and its credit's unit.
#[derive(Clone, Copy)]
pub(crate) struct Looping<'a> {
    /// The lap.
    pub lap: Lap<'a>,
    /// The greatest length, if there is one.
    pub most: Option<u32>,
    /// The credit's unit, if there is one.
    pub unit: Option<u32>,
}

/// A loop over the numbers of a row, where their kind is known.
pub(crate) type Loop<'a> = Option<Looping<'a>>;

/// The loop over the numbers of a row, each of so many octets, where their kind is known.
fn row_loop<'a>(width: Option<u32>, place: Spot, unit: Option<u32>, mint: &Mint) -> Loop<'a>
    ensures { (N : List Node) (R : AllRooms)
        → maybe_loop N result R ≡ run_row (node_of mint.now place) width unit R }
{
    match width {
        Some(width) => Some(Looping {
            lap: Lap::Octets(width),
            most: greatest_at(mint, place),
            unit,
        }),
        None => None,
    }
}

/// The loop over the image of a row.
pub(crate) fn image_loop<'a>(path: &Path, spot: Spot, state: &Standing, walk: &Walk<'_>) -> Loop<'a>
    ensures { (R : AllRooms) → let n = node_of (nodes walk.now) (spot_at (nodes walk.now) path.now spot) in
        maybe_loop (nodes walk.now) result R
        ≡ run_row n (option_map width (row_kind n)) (unit_of path.now (credit state.now)) R }
{
    let place = place_at(path, spot, walk);
    row_loop(
        own_width(walk.mint, place),
        place,
        unit_of(path, state),
        walk.mint,
    )
}

/// The loop over the numbers of a row in four octets each.
pub(crate) fn wide_loop<'a>(path: &Path, spot: Spot, state: &Standing, walk: &Walk<'_>) -> Loop<'a>
    ensures { (R : AllRooms) → let n = node_of (nodes walk.now) (spot_at (nodes walk.now) path.now spot) in
        maybe_loop (nodes walk.now) result R
        ≡ run_row n (option_map (λ k. 4) (row_kind n)) (unit_of path.now (credit state.now)) R }
{
    let place = place_at(path, spot, walk);
    row_loop(
        four(walk.mint, place),
        place,
        unit_of(path, state),
        walk.mint,
    )
}

/// The loop of a body over elements.
pub(crate) fn each_loop<'a>(
    path: &Path,
    body: &'a SendOps,
    spot: Spot,
    state: &Standing,
    walk: &Walk<'_>,
) -> Looping<'a>
    ensures { (R : AllRooms) → let N = nodes walk.now in let n = node_of N (spot_at N path.now spot) in
        loop_of N result R ≡ each_turn N n (code_seen body.now) (unit_of path.now (credit state.now)) R }
{
    let place = place_at(path, spot, walk);
    Looping {
        lap: Lap::Body(body, element_at(walk.mint, place)),
        most: greatest_at(walk.mint, place),
        unit: unit_of(path, state),
    }
}
