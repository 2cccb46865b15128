//! Rooms: how many octets are ensured, for each residue of the position by 8.

ghost use Rattle.std.specs.Prelude.{◌≡◌, ℕ, true, ◌+◌, ◌-◌, ◌%◌, ◌<◌, ◌≤◌, ◌&&◌, ◌∷◌, [], Option, Some, None, min, max, is_some, option_map, nat_eq, nat_le, if◌then◌else◌};
ghost use Rattle.wire_def.specs.Scalars.{gap};
ghost use Rattle.cast_stub.specs.Steps.{is_width};
ghost use Rattle.stub_cover.specs.Rooms.{lesser, least, no_rooms, only_room, on, raised, set, has, have_first, took, padded_one, padded_first, padded, least_first};
ghost use Rattle.stub_rooms.specs.RoomsShown.{room_at, least_of, spread, joined};
ghost use Rattle.stub_places.specs.Sets.{each_of, set_of};

use kit_base::NoMemory;
use stub_places::at_each;
use stub_places::sets::{Set, before, both, contains, gap};

/// A room for each residue, none where no way leads there.
pub(crate) type Rooms = [Option<u64>; 8];

/// The rooms behind code, where it is not refused.
pub(crate) type Ends = Result<Option<Rooms>, NoMemory>;

/// The room at a residue.
pub(crate) fn room(rooms: &Rooms, r: usize) -> Option<u64>
    requires { r < 8 }
    ensures { result ≡ room_at rooms.now r }
{
    rooms[r]
}

/// The lesser room, where none is no way.
fn lesser(a: Option<u64>, b: Option<u64>) -> Option<u64>
    ensures { result ≡ lesser a b }
{
    match a {
        None => b,
        Some(x) => match b {
            None => Some(x),
            Some(y) => Some(x.min(y)),
        },
    }
}

fn least_at(a: &Rooms, b: &Rooms, r: usize) -> Option<u64>
    requires { r < 8 }
    ensures { result ≡ lesser (room_at a.now r) (room_at b.now r) }
{
    lesser(room(a, r), room(b, r))
}

/// The least room of the ways to each residue.
pub(crate) fn least(a: &Rooms, b: &Rooms) -> Rooms
    ensures { result ≡ each_of (least (room_at a.now) (room_at b.now)) }
{
    at_each!(least_at(a, b))
}

/// No way to any residue.
pub(crate) fn no_rooms() -> Rooms
    ensures { result ≡ each_of no_rooms }
{
    [None; 8]
}

fn only_at(n: usize, x: u64, r: usize) -> Option<u64>
    ensures { result ≡ (if nat_eq r n then Some x else None) }
{
    if r == n { Some(x) } else { None }
}

/// One residue with a room.
pub(crate) fn only_room(n: usize, x: u64) -> Rooms
    ensures { result ≡ each_of (only_room n x) }
{
    at_each!(only_at(n, x))
}

fn spread_at(marks: &Set, x: Option<u64>, r: usize) -> Option<u64>
    requires { r < 8 }
    ensures { result ≡ (if set_of marks.now r then x else None) }
{
    if contains(marks, r) { x } else { None }
}

/// The same room, if there is one, at each residue of a set.
pub(crate) fn spread(marks: &Set, x: Option<u64>) -> Rooms
    ensures { result ≡ each_of (spread (set_of marks.now) x) }
{
    at_each!(spread_at(marks, x))
}

/// No room at each residue of a set.
pub(crate) fn bare(marks: &Set) -> Rooms
    ensures { result ≡ each_of (on (set_of marks.now) 0) }
{
    spread(marks, Some(0))
}

fn raised_at(n: u32, rooms: &Rooms, r: usize) -> Option<u64>
    requires { r < 8 }
    ensures { result ≡ option_map (λ x. max x n) (room_at rooms.now r) }
{
    match room(rooms, r) {
        None => None,
        Some(x) => Some(x.max(u64::from(n))),
    }
}

/// Each room at least so great.
pub(crate) fn raised(n: u32, rooms: &Rooms) -> Rooms
    ensures { result ≡ each_of (raised n (room_at rooms.now)) }
{
    at_each!(raised_at(n, rooms))
}

fn set_at(n: u32, rooms: &Rooms, r: usize) -> Option<u64>
    requires { r < 8 }
    ensures { result ≡ option_map (λ x. n) (room_at rooms.now r) }
{
    match room(rooms, r) {
        None => None,
        Some(_) => Some(u64::from(n)),
    }
}

/// Each room so great.
pub(crate) fn set(n: u32, rooms: &Rooms) -> Rooms
    ensures { result ≡ each_of (set n (room_at rooms.now)) }
{
    at_each!(set_at(n, rooms))
}

/// Whether a room, if there is one, has so many octets.
fn has(n: u32, x: Option<u64>) -> bool
    ensures { result ≡ has n x }
{
    match x {
        None => true,
        Some(x) => u64::from(n) <= x,
    }
}

/// Whether each room has so many octets.
fn all_have(n: u32, rooms: &Rooms) -> bool
    ensures { result ≡ have_first 8 n (room_at rooms.now) }
{
    let mut all = true;
    for r in 0..8 {
        all = both(has(n, room(rooms, r)), all);
    }
    all
}

fn took_at(n: u32, rooms: &Rooms, r: usize) -> Option<u64>
    requires { r < 8 }
    ensures { result ≡ option_map (λ x. x - n) (room_at rooms.now ((r + 8 - n % 8) % 8)) }
{
    match room(rooms, before(n, r)) {
        None => None,
        Some(x) => Some(x.saturating_sub(u64::from(n))),
    }
}

/// The rooms behind so many octets, where each room has so many.
fn lowered(n: u32, rooms: &Rooms) -> Rooms
    ensures { result ≡ each_of (λ r. option_map (λ x. x - n) (room_at rooms.now ((r + 8 - n % 8) % 8))) }
{
    at_each!(took_at(n, rooms))
}

/// The rooms behind so many octets; none where a room is lacking.
pub(crate) fn took(n: u32, rooms: &Rooms) -> Option<Rooms>
    ensures { result ≡ option_map each_of (took n (room_at rooms.now)) }
{
    if all_have(n, rooms) {
        Some(lowered(n, rooms))
    } else {
        None
    }
}

/// Whether a room has so many octets.
fn fits(n: usize, x: u64) -> bool
    ensures { result ≡ nat_le n x }
{
    n as u64 <= x
}

/// The rooms behind so many zeros, from one residue with this room.
fn padded_by(gap: usize, r: usize, x: u64) -> Option<Rooms>
    requires below { r < 8 }
    requires few { gap < 8 }
    ensures { let end = only_room ((r + gap) % 8) (x - gap) in
        result ≡ option_map each_of (if nat_le gap x then Some end else None) }
{
    if fits(gap, x) {
        Some(only_room((r + gap) % 8, x.saturating_sub(gap as u64)))
    } else {
        None
    }
}

/// The rooms behind zeros up to a multiple, from one residue with this room.
fn padded_one(r: usize, a: u32, x: Option<u64>) -> Option<Rooms>
    requires below { r < 8 }
    requires width { is_width a ≡ true }
    ensures { result ≡ option_map each_of (padded_one r a x) }
{
    match x {
        None => Some(no_rooms()),
        Some(x) => padded_by(gap(r, a), r, x),
    }
}

/// The least rooms of two, if both are there.
fn joined(a: &Option<Rooms>, b: &Option<Rooms>) -> Option<Rooms>
    ensures { result ≡ joined a.now b.now }
{
    match a {
        None => None,
        Some(a) => match b {
            None => None,
            Some(b) => Some(least(a, b)),
        },
    }
}

/// The least rooms of two, if the second are there.
pub(crate) fn joined_last(a: &Rooms, b: Option<Rooms>) -> Option<Rooms>
    ensures { result ≡ option_map (least_of a.now) b }
{
    match b {
        None => None,
        Some(b) => Some(least(a, &b)),
    }
}

/// The rooms behind zeros up to a multiple; none where a room is lacking.
pub(crate) fn padded(a: u32, rooms: &Rooms) -> Option<Rooms>
    requires { is_width a ≡ true }
    ensures { result ≡ option_map each_of (padded a (room_at rooms.now)) }
{
    let mut all = Some(no_rooms());
    for r in 0..8 {
        all = joined(&padded_one(r, a, room(rooms, r)), &all);
    }
    all
}

/// The least room, if there is one.
pub(crate) fn lowest(rooms: &Rooms) -> Option<u64>
    ensures { result ≡ least_first 8 (room_at rooms.now) }
{
    let mut low = None;
    for r in 0..8 {
        low = lesser(room(rooms, r), low);
    }
    low
}

fn is_same_at(a: &Rooms, b: &Rooms, r: usize) -> bool
    requires { r < 8 }
    ensures { result ≡ true → room_at a.now r ≡ room_at b.now r }
{
    match room(a, r) {
        None => room(b, r).is_none(),
        Some(x) => match room(b, r) {
            None => false,
            Some(y) => x == y,
        },
    }
}

/// Whether two are the same.
pub(crate) fn is_same(a: &Rooms, b: &Rooms) -> bool
    ensures { result ≡ true → a.now ≡ b.now }
{
    for r in 0..8 {
        let same = is_same_at(a, b, r);
        if !same {
            return false;
        }
    }
    true
}
