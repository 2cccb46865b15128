//! The rooms behind code, from the rooms before it.

ghost use Rattle.std.specs.Prelude.{◌≡◌, ◌<◌, ◌||◌, not, is_some, IfOk, None, option_map};
ghost use Rattle.cast_stub.specs.Block.{op_seen, code_seen, cases_seen};
ghost use Rattle.stub_flat.specs.Places.{node_of};
ghost use Rattle.stub_cover.specs.Rooms.{Rooms as AllRooms, least, only_room};
ghost use Rattle.stub_cover.specs.Covers.{run, run_ways, suffices, turns, free_loop, bounded_loop, bare_loop};
ghost use Rattle.stub_rooms.specs.RoomsShown.{Follows};
ghost use Rattle.stub_places.specs.Sets.{set_of};
ghost use Rattle.stub_rooms.specs.CoversStanding.{Steps, maybe_loop};
ghost use Rattle.stub_rooms.specs.CoversLap.{nodes, turn_of, reach_of, is_plain_lap};

use crate::covers_lap::{Lap, Walk, place_at};
use crate::covers_leaves::reach;
use crate::covers_plain::is_plain_lap;
use crate::covers_standing::{
    Looping, Standing, each_loop, few, go_on, go_on_bare, image_loop, run_align, run_ensure_row,
    wide_loop,
};
use crate::rooms::{
    Ends, Rooms, bare, joined_last, least, lowest, no_rooms, only_room, raised, spread, took,
};
use crate::turns::{turn_on, turning_from};
use cast_stub::{Path, SendCases, SendLast, SendOp, SendOps};
use kit_base::NoMemory;
use stub_places::sets::{Set, contains, every};
use stub_places::{Spot, arm_spot_at, present_at, rest_spot_at, spend, spend_op, spend_ways};

/// The rooms behind operations over a place, from a state without a credit.
#[cycle(run)]
pub(crate) fn run(ops: &SendOps, spot: Spot, rooms: &Rooms, walk: &Walk<'_>, left: &mut u64) -> Ends
    ensures { IfOk result (λ x. Follows (run (nodes walk.now) spot (code_seen ops.now) None) rooms.now x) }
{
    let inner = walk.deeper()?;
    let mut state = Standing {
        rooms: *rooms,
        path: Path::new(walk.alloc),
        unit: None,
    };
    for op in ops.as_slice() {
        spend_op(left, op)?;
        let goes = run_op(op, spot, &mut state, &inner, left)?;
        if !goes {
            return Ok(None);
        }
    }
    Ok(Some(state.rooms))
}

/// Runs an operation; tells whether it is not refused.
#[cycle(run)]
fn run_op(
    op: &SendOp,
    spot: Spot,
    state: &mut Standing,
    walk: &Walk<'_>,
    left: &mut u64,
) -> Result<bool, NoMemory>
    ensures { IfOk result (λ goes. Steps (nodes walk.now) spot (op_seen op.now) goes state.old state.new) }
{
    match op {
        SendOp::Ensure(n) => {
            let rooms = raised(*n, &state.rooms);
            Ok(go_on_bare(state, Some(rooms)))
        }
        SendOp::EnsureRow(path, unit, extra) => run_ensure_row(
            path, *unit, *extra, spot, state, walk,
        ),
        SendOp::Align(a) => {
            let rooms = run_align(*a, &state.rooms);
            Ok(go_on(state, rooms))
        }
        SendOp::Chunk(size, _) => {
            let rooms = took(*size, &state.rooms);
            Ok(go_on(state, rooms))
        }
        SendOp::RowCopy(path) => {
            let looping = image_loop(path, spot, state, walk);
            let rooms = run_loop(looping, &state.rooms, walk, left)?;
            Ok(go_on_bare(state, rooms))
        }
        SendOp::RowSwap(path) => {
            let looping = image_loop(path, spot, state, walk);
            let rooms = run_loop(looping, &state.rooms, walk, left)?;
            Ok(go_on_bare(state, rooms))
        }
        SendOp::RowWide(path, _) => {
            let looping = wide_loop(path, spot, state, walk);
            let rooms = run_loop(looping, &state.rooms, walk, left)?;
            Ok(go_on_bare(state, rooms))
        }
        SendOp::Each(path, body) => {
            let looping = each_loop(path, body, spot, state, walk);
            let rooms = run_loop(Some(looping), &state.rooms, walk, left)?;
            Ok(go_on_bare(state, rooms))
        }
        SendOp::Switch(path, cases, last) => {
            let place = place_at(path, spot, walk);
            let rooms = run_ways(cases, last, place, &state.rooms, walk, left)?;
            Ok(go_on_bare(state, rooms))
        }
        SendOp::Some(path, body) => {
            let inner = present_at(walk.mint, place_at(path, spot, walk));
            let rooms = run_some(body, inner, &state.rooms, walk, left)?;
            Ok(go_on_bare(state, rooms))
        }
        SendOp::Call(_, _) => Ok(go_on_bare(state, Some(bare(&every())))),
        SendOp::Patch(_, _, _) => Ok(true),
    }
}

/// The rooms behind the bodies of a switch.
#[cycle(run)]
fn run_ways(
    cases: &SendCases,
    last: &SendLast,
    place: Spot,
    rooms: &Rooms,
    walk: &Walk<'_>,
    left: &mut u64,
) -> Ends
    ensures { IfOk result (λ x. let cs = cases_seen cases.now last.now in
        Follows (run_ways (nodes walk.now) (node_of (nodes walk.now) place) cs cs) rooms.now x) }
{
    spend_ways(left, walk.mint, place, cases)?;
    let mut low = no_rooms();
    for case in cases.as_slice() {
        let spot = arm_spot_at(walk.mint, place, &case.0);
        let end = run(&case.1, spot, rooms, walk, left)?;
        let end = match end {
            Some(end) => end,
            None => return Ok(None),
        };
        low = least(&low, &end);
    }
    match last {
        Some(body) => {
            let spot = rest_spot_at(walk.mint, place, cases);
            let end = run(body, spot, rooms, walk, left)?;
            Ok(joined_last(&low, end))
        }
        None => Ok(Some(least(&low, &no_rooms()))),
    }
}

/// The rooms behind a body that may be run.
#[cycle(run)]
fn run_some(body: &SendOps, spot: Spot, rooms: &Rooms, walk: &Walk<'_>, left: &mut u64) -> Ends
    ensures { IfOk result (λ x. let f = run (nodes walk.now) spot (code_seen body.now) None in
        Follows (λ R. option_map (least R) (f R)) rooms.now x) }
{
    let end = run(body, spot, rooms, walk, left)?;
    Ok(joined_last(rooms, end))
}

/// The rooms behind one lap of a loop.
#[cycle(run)]
fn run_lap(lap: Lap<'_>, rooms: &Rooms, walk: &Walk<'_>, left: &mut u64) -> Ends
    ensures { IfOk result (λ x. Follows (turn_of (nodes walk.now) lap.entry) rooms.now x) }
{
    match lap {
        Lap::Octets(width) => {
            spend(left, 1)?;
            Ok(took(width, rooms))
        }
        Lap::Body(body, spot) => run(body, spot, rooms, walk, left),
    }
}

/// The rooms behind a loop, if there is one: the first of three ways that is not refused.
#[cycle(run)]
fn run_loop(looping: Option<Looping<'_>>, rooms: &Rooms, walk: &Walk<'_>, left: &mut u64) -> Ends
    ensures { IfOk result (λ x. Follows (maybe_loop (nodes walk.now) looping.entry) rooms.now x) }
{
    let looping = match looping {
        Some(looping) => looping,
        None => return Ok(None),
    };
    let free = run_free(looping.lap, looping.unit, rooms, walk, left)?;
    if free.is_some() {
        return Ok(free);
    }
    let bounded = run_bounded(looping.lap, looping.most, rooms, walk, left)?;
    if bounded.is_some() {
        return Ok(bounded);
    }
    run_bare(looping.lap, rooms, walk, left)
}

/// The rooms behind laps of which there are at most so many.
#[cycle(run)]
fn run_bounded(
    lap: Lap<'_>,
    most: Option<u32>,
    rooms: &Rooms,
    walk: &Walk<'_>,
    left: &mut u64,
) -> Ends
    ensures { IfOk result (λ x. let f = turn_of (nodes walk.now) lap.entry in
        Follows (bounded_loop f most) rooms.now x) }
{
    match few(most) {
        Some(n) => turns(lap, n, rooms, walk, left),
        None => Ok(None),
    }
}

/// The rooms where each element has its own octets.
#[cycle(run)]
fn run_free(lap: Lap<'_>, unit: Option<u32>, rooms: &Rooms, walk: &Walk<'_>, left: &mut u64) -> Ends
    ensures { IfOk result (λ x. let N = nodes walk.now in let f = turn_of N lap.entry in
        Follows (λ R. free_loop f (reach_of N lap.entry R) (is_plain_lap lap.entry) unit R) rooms.now x) }
{
    let unit = match unit {
        Some(unit) => unit,
        None => return Ok(None),
    };
    let plain = is_plain_lap(lap, walk, left)?;
    if !plain {
        return Ok(None);
    }
    let reach = reach(lap, rooms, walk, left)?;
    let enough = suffices(lap, unit, &reach, walk, left)?;
    if !enough {
        return Ok(None);
    }
    Ok(Some(spread(&reach, lowest(rooms))))
}

/// Whether a lap is not refused with so many octets at a residue by itself, if that is in a set.
#[cycle(run)]
fn suffices_at(
    lap: Lap<'_>,
    unit: u32,
    r: usize,
    marks: &Set,
    walk: &Walk<'_>,
    left: &mut u64,
) -> Result<bool, NoMemory>
    requires { r < 8 }
    ensures { IfOk result (λ b. let f = turn_of (nodes walk.now) lap.entry in
        b ≡ (not (set_of marks.now r) || is_some (f (only_room r unit)))) }
{
    let marked = contains(marks, r);
    if !marked {
        return Ok(true);
    }
    let start = only_room(r, u64::from(unit));
    let end = run_lap(lap, &start, walk, left)?;
    Ok(end.is_some())
}

/// Whether a lap is not refused with so many octets at each residue of a set by itself.
#[cycle(run)]
fn suffices(
    lap: Lap<'_>,
    unit: u32,
    marks: &Set,
    walk: &Walk<'_>,
    left: &mut u64,
) -> Result<bool, NoMemory>
    ensures { IfOk result (λ b. let f = turn_of (nodes walk.now) lap.entry in
        b ≡ suffices 8 f unit (set_of marks.now)) }
{
    for r in 0..8 {
        let enough = suffices_at(lap, unit, r, marks, walk, left)?;
        if !enough {
            return Ok(false);
        }
    }
    Ok(true)
}

/// The least rooms of 0 to so many laps. It stops early where rooms come back.
#[cycle(run)]
fn turns(lap: Lap<'_>, most: u32, rooms: &Rooms, walk: &Walk<'_>, left: &mut u64) -> Ends
    ensures { IfOk result (λ x. Follows (turns most (turn_of (nodes walk.now) lap.entry)) rooms.now x) }
{
    let mut turning = turning_from(rooms);
    for _ in 0..most {
        let end = run_lap(lap, &turning.here, walk, left)?;
        let next = match end {
            Some(next) => next,
            None => return Ok(None),
        };
        let back = turn_on(&mut turning, &next);
        if back {
            return Ok(Some(turning.low));
        }
    }
    Ok(Some(least(&turning.low, &turning.here)))
}

/// The rooms behind any number of laps, each from no room.
#[cycle(run)]
fn run_bare(lap: Lap<'_>, rooms: &Rooms, walk: &Walk<'_>, left: &mut u64) -> Ends
    ensures { IfOk result (λ x. let N = nodes walk.now in
        Follows (λ R. bare_loop (turn_of N lap.entry) (reach_of N lap.entry R) R) rooms.now x) }
{
    let reach = reach(lap, rooms, walk, left)?;
    let start = bare(&reach);
    let end = run_lap(lap, &start, walk, left)?;
    match end {
        Some(_) => Ok(Some(start)),
        None => Ok(None),
    }
}
