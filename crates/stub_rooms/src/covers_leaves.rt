//! To which residues code leads.

ghost use Rattle.std.specs.Prelude.{◌≡◌, ◌<◌, IfOk, is_some, if◌then◌else◌};
ghost use Rattle.cast_stub.specs.Steps.{is_width};
ghost use Rattle.cast_stub.specs.Block.{op_seen, code_seen, cases_seen};
ghost use Rattle.stub_flat.specs.Places.{node_of, spot_at, row_kind};
ghost use Rattle.stub_flat.specs.Leaves.{leaves, ways_leave, width_of};
ghost use Rattle.stub_flat.specs.Residues.{aligned, closed, moved};
ghost use Rattle.stub_cover.specs.Rooms.{Rooms as AllRooms, reached};
ghost use Rattle.stub_rooms.specs.RoomsShown.{Shown, room_at};
ghost use Rattle.stub_places.specs.Sets.{each_of};
ghost use Rattle.stub_rooms.specs.CoversLap.{nodes, Leads, leaves_of, reach_of};

use crate::covers_lap::{Lap, Walk, place_at};
use crate::rooms::{Rooms, room};
use cast_stub::{Path, SendCases, SendLast, SendOp, SendOps};
use kit_base::NoMemory;
use stub_places::sets::{Set, aligned, every, is_within, moved, none, size, sum};
use stub_places::{
    Spot, arm_spot_at, element_at, is_width, present_at, rest_spot_at, row_kind_at, spend_op,
    spend_ways, width_of,
};

/// The residues that code leads to.
type Marks = Result<Set, NoMemory>;

/// Behind operations over a place.
#[cycle(leaves)]
fn leaves(ops: &SendOps, spot: Spot, marks: &Set, walk: &Walk<'_>, left: &mut u64) -> Marks
    ensures { IfOk result (λ m. Shown (leaves (nodes walk.now) spot (code_seen ops.now)) marks.now m) }
{
    let inner = walk.deeper()?;
    let mut here = *marks;
    for op in ops.as_slice() {
        spend_op(left, op)?;
        here = leave_op(op, spot, &here, &inner, left)?;
    }
    Ok(here)
}

/// Behind an operation.
#[cycle(leaves)]
fn leave_op(op: &SendOp, spot: Spot, marks: &Set, walk: &Walk<'_>, left: &mut u64) -> Marks
    ensures { IfOk result (λ m. Leads (nodes walk.now) spot (op_seen op.now) marks.now m) }
{
    match op {
        SendOp::Ensure(_) => Ok(*marks),
        SendOp::EnsureRow(_, _, _) => Ok(*marks),
        SendOp::Align(a) => Ok(leave_align(*a, marks)),
        SendOp::Chunk(size, _) => Ok(moved(*size, marks)),
        SendOp::RowCopy(path) => leave_row(path, spot, marks, walk, left),
        SendOp::RowSwap(path) => leave_row(path, spot, marks, walk, left),
        SendOp::RowWide(_, _) => closed(Lap::Octets(4), marks, walk, left),
        SendOp::Each(path, body) => {
            let lap = Lap::Body(body, element_at(walk.mint, place_at(path, spot, walk)));
            closed(lap, marks, walk, left)
        }
        SendOp::Switch(path, cases, last) => {
            let place = place_at(path, spot, walk);
            leave_ways(cases, last, place, marks, walk, left)
        }
        SendOp::Some(path, body) => {
            let inner = present_at(walk.mint, place_at(path, spot, walk));
            Ok(sum(marks, &leaves(body, inner, marks, walk, left)?))
        }
        SendOp::Call(_, _) => Ok(every()),
        SendOp::Patch(_, _, _) => Ok(*marks),
    }
}

/// Behind zeros up to a multiple.
fn leave_align(a: u32, marks: &Set) -> Set
    ensures { Shown (λ S. if is_width a then aligned a S else S) marks.now result }
{
    if is_width(a) {
        aligned(a, marks)
    } else {
        *marks
    }
}

/// Behind the numbers of a row.
#[cycle(leaves)]
fn leave_row(path: &Path, spot: Spot, marks: &Set, walk: &Walk<'_>, left: &mut u64) -> Marks
    ensures { IfOk result (λ m. let n = node_of (nodes walk.now) (spot_at (nodes walk.now) path.now spot) in
        Shown (closed (moved (width_of (row_kind n)))) marks.now m) }
{
    let place = place_at(path, spot, walk);
    let width = width_of(row_kind_at(walk.mint, place));
    closed(Lap::Octets(width), marks, walk, left)
}

/// Behind the bodies of a switch over a place.
#[cycle(leaves)]
fn leave_ways(
    cases: &SendCases,
    last: &SendLast,
    place: Spot,
    marks: &Set,
    walk: &Walk<'_>,
    left: &mut u64,
) -> Marks
    ensures { IfOk result (λ m. let cs = cases_seen cases.now last.now in
        Shown (ways_leave (nodes walk.now) (node_of (nodes walk.now) place) cs cs) marks.now m) }
{
    spend_ways(left, walk.mint, place, cases)?;
    let mut all = none();
    for case in cases.as_slice() {
        let spot = arm_spot_at(walk.mint, place, &case.0);
        all = sum(&all, &leaves(&case.1, spot, marks, walk, left)?);
    }
    match last {
        Some(body) => {
            let spot = rest_spot_at(walk.mint, place, cases);
            Ok(sum(&all, &leaves(body, spot, marks, walk, left)?))
        }
        None => Ok(sum(&all, &none())),
    }
}

/// Behind one lap of a loop.
#[cycle(leaves)]
fn leave_lap(lap: Lap<'_>, marks: &Set, walk: &Walk<'_>, left: &mut u64) -> Marks
    ensures { IfOk result (λ m. Shown (leaves_of (nodes walk.now) lap.entry) marks.now m) }
{
    match lap {
        Lap::Octets(width) => Ok(moved(width, marks)),
        Lap::Body(body, spot) => leaves(body, spot, marks, walk, left),
    }
}

/// The least set with this one that a lap does not leave.
#[cycle(leaves)]
pub(crate) fn closed(lap: Lap<'_>, marks: &Set, walk: &Walk<'_>, left: &mut u64) -> Marks
    ensures { IfOk result (λ m. Shown (closed (leaves_of (nodes walk.now) lap.entry)) marks.now m) }
{
    let mut all = *marks;
    let laps = 8 - size(marks);
    for _ in 0..laps {
        let more = leave_lap(lap, &all, walk, left)?;
        if is_within(&more, &all) {
            return Ok(all);
        }
        all = sum(&all, &more);
    }
    Ok(all)
}

fn reached_at(rooms: &Rooms, r: usize) -> bool
    requires { r < 8 }
    ensures { result ≡ is_some (room_at rooms.now r) }
{
    room(rooms, r).is_some()
}

/// The residues to which a way leads.
fn reached(rooms: &Rooms) -> Set
    ensures { result ≡ each_of (reached (room_at rooms.now)) }
{
    [
        reached_at(rooms, 0),
        reached_at(rooms, 1),
        reached_at(rooms, 2),
        reached_at(rooms, 3),
        reached_at(rooms, 4),
        reached_at(rooms, 5),
        reached_at(rooms, 6),
        reached_at(rooms, 7),
    ]
}

/// The residues that a loop comes to.
pub(crate) fn reach(lap: Lap<'_>, rooms: &Rooms, walk: &Walk<'_>, left: &mut u64) -> Marks
    ensures { IfOk result
        (λ m. (R : AllRooms) → rooms.now ≡ each_of R → m ≡ each_of (reach_of (nodes walk.now) lap.entry R)) }
{
    closed(lap, &reached(rooms), walk, left)
}
