//! Turns one after the other, until rooms come back.

ghost use Rattle.std.specs.Prelude.{◌≡◌, ◌<◌};
ghost use Rattle.stub_rooms.specs.RoomsShown.{least_of};
ghost use Rattle.stub_rooms.specs.TurnsMade.{IsStart, IsFarther, IsNext};

use crate::rooms::{Rooms, is_same, least, no_rooms};

/// Turns that were made.
#[derive(Clone, Copy)]
pub(crate) struct Turning {
    /// The least rooms before each of them.
    pub low: Rooms,
    /// The rooms behind them.
    pub here: Rooms,
    /// Rooms behind some of them.
    pub kept: Rooms,
    /// How many turns were made since then.
    pub since: u32,
    /// After how many turns other rooms are kept.
    pub far: u32,
}

/// No turns.
pub(crate) fn turning_from(rooms: &Rooms) -> Turning
    ensures { IsStart rooms.now result }
{
    Turning {
        low: no_rooms(),
        here: *rooms,
        kept: *rooms,
        since: 0,
        far: 1,
    }
}

/// One turn more, to rooms that may be new.
fn farther(turning: &Turning, next: &Rooms) -> Turning
    requires { turning.now.since < 4294967295 }
    ensures { IsFarther next.now turning.now result }
{
    let low = least(&turning.low, &turning.here);
    let since = turning.since + 1;
    let full = since == turning.far;
    if full {
        Turning {
            low,
            here: *next,
            kept: *next,
            since: 0,
            far: turning.far.saturating_mul(2),
        }
    } else {
        Turning {
            low,
            here: *next,
            kept: turning.kept,
            since,
            far: turning.far,
        }
    }
}

/// One turn more, to rooms that have come back.
fn back_again(turning: &Turning) -> Turning
    ensures { result.low ≡ least_of turning.now.low turning.now.here }
{
    Turning {
        low: least(&turning.low, &turning.here),
        here: turning.here,
        kept: turning.kept,
        since: turning.since,
        far: turning.far,
    }
}

/// One turn more, to these rooms; tells whether they have come back.
pub(crate) fn turn_on(turning: &mut Turning, next: &Rooms) -> bool
    requires { turning.old.since < 4294967295 }
    ensures { IsNext next.now turning.old result turning.new }
{
    let same = is_same(next, &turning.kept);
    if same {
        *turning = back_again(turning);
        return true;
    }
    *turning = farther(turning, next);
    false
}
