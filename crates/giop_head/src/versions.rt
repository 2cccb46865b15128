//! What differs between versions: the minor number 0 stands for version 1.0, any other for version 1.2.

ghost use Rattle.std.specs.Prelude.{◌≡◌};
ghost use Rattle.giop_head.specs.Versions.{pass_close, pass_first, pass_last, pass_tail, read_target, read_wants};
ghost use Rattle.head_kit.specs.Readers.{Gives, Passing, same};

use crate::contexts::{any_sequence, contexts};
use crate::items::{flag, padding, short};
use head_kit::{Cursor, body};
use wire_def::{HeadErr, Order};

/// Service contexts before all other fields, in version 1.0.
pub(crate) fn first(minor: u8, order: Order, at: Cursor<'_>) -> Result<Cursor<'_>, HeadErr>
    ensures { Passing result (pass_first minor order at.entry.place at.entry.rest.now) }
{
    if minor == 0 {
        contexts(order, at)
    } else {
        Ok(at)
    }
}

/// Service contexts, and what leads up to the body of a message of so many octets.
#[tactic(auto, unfolding(crate::specs::Versions::pass_tail))]
fn tail(total: usize, order: Order, at: Cursor<'_>) -> Result<Cursor<'_>, HeadErr>
    ensures { Passing result (pass_tail total order at.entry.place at.entry.rest.now) }
{
    let at = contexts(order, at)?;
    padding(total, at)
}

/// Service contexts and what leads up to the body, which replies of version 1.2 have.
pub(crate) fn last(
    minor: u8,
    total: usize,
    order: Order,
    at: Cursor<'_>,
) -> Result<Cursor<'_>, HeadErr>
    ensures { Passing result (pass_last minor total order at.entry.place at.entry.rest.now) }
{
    if minor == 0 {
        Ok(at)
    } else {
        tail(total, order, at)
    }
}

/// The last fields of a request's head: a principal in version 1.0, service contexts and what leads up
/// to the body in version 1.2.
pub(crate) fn close(
    minor: u8,
    total: usize,
    order: Order,
    at: Cursor<'_>,
) -> Result<Cursor<'_>, HeadErr>
    ensures { Passing result (pass_close minor total order at.entry.place at.entry.rest.now) }
{
    if minor == 0 {
        any_sequence(order, at)
    } else {
        tail(total, order, at)
    }
}

/// Whether a reply is wanted: a boolean in version 1.0, in version 1.2 bit 0 of the first of four octets.
pub(crate) fn wants(minor: u8, at: Cursor<'_>) -> Result<(bool, Cursor<'_>), HeadErr>
    ensures { Gives same result (read_wants minor at.entry.place at.entry.rest.now) }
{
    if minor == 0 {
        return flag(at);
    }
    let (octets, at) = body(4, at)?;
    Ok((octets[0] % 2 == 1, at))
}

/// The kind of a request's target: 0, a key, in version 1.0; a number up to 2 in version 1.2.
pub(crate) fn target(minor: u8, order: Order, at: Cursor<'_>) -> Result<(u16, Cursor<'_>), HeadErr>
    ensures { Gives same result (read_target minor order at.entry.place at.entry.rest.now) }
{
    if minor == 0 {
        return Ok((0, at));
    }
    let (kind, at) = short(order, at)?;
    if kind <= 2 {
        Ok((kind, at))
    } else {
        Err(HeadErr::Item)
    }
}
