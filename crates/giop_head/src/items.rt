//! What the fields of heads are made of (OMG CORBA, chapter GIOP, section on CDR).

ghost use Rattle.std.specs.Prelude.{◌≡◌, ◌==◌, ◌≤◌, IfOk};
ghost use Rattle.std.specs.List.{position};
ghost use Rattle.giop_head.specs.Items.{is_ended, pass_padding, read_flag, read_long, read_pass, read_sequence, read_short, read_string};
ghost use Rattle.head_kit.specs.Readers.{borrowed, same, Gives, Passing};

use head_kit::{Cursor, body};
use wire_def::{HeadErr, Order};

/// An unsigned long, after the octets up to a multiple of 4.
#[tactic(auto, using(crate::proofs::Steps::longs))]
pub(crate) fn long(order: Order, at: Cursor<'_>) -> Result<(u32, Cursor<'_>), HeadErr>
    ensures { Gives same result (read_long order at.entry.place at.entry.rest.now) }
{
    let gap = (4 - at.place % 4) % 4;
    if at.rest.len() < gap + 4 {
        return Err(HeadErr::Short);
    }
    let (_, number) = at.rest.split_at(gap);
    let (octets, rest) = number.split_at(4);
    let octets = [octets[0], octets[1], octets[2], octets[3]];
    let n = match order {
        Order::Big => u32::from_be_bytes(octets),
        Order::Little => u32::from_le_bytes(octets),
    };
    let place = at.place + (gap + 4);
    Ok((n, Cursor { place, rest }))
}

/// An unsigned short, after the octet up to a multiple of 2.
#[tactic(auto, using(crate::proofs::Steps::shorts))]
pub(crate) fn short(order: Order, at: Cursor<'_>) -> Result<(u16, Cursor<'_>), HeadErr>
    ensures { Gives same result (read_short order at.entry.place at.entry.rest.now) }
{
    let gap = (2 - at.place % 2) % 2;
    if at.rest.len() < gap + 2 {
        return Err(HeadErr::Short);
    }
    let (_, number) = at.rest.split_at(gap);
    let (octets, rest) = number.split_at(2);
    let octets = [octets[0], octets[1]];
    let n = match order {
        Order::Big => u16::from_be_bytes(octets),
        Order::Little => u16::from_le_bytes(octets),
    };
    let place = at.place + (gap + 2);
    Ok((n, Cursor { place, rest }))
}

/// An unsigned long up to this one; any other is the fault of an item.
pub(crate) fn long_up_to(
    most: u32,
    order: Order,
    at: Cursor<'_>,
) -> Result<(u32, Cursor<'_>), HeadErr>
    ensures most { IfOk result (λ x. x.0 ≤ most) }
    ensures read { Gives same result (read_pass order most at.entry.place at.entry.rest.now) }
{
    let (n, next) = long(order, at)?;
    if n <= most {
        Ok((n, next))
    } else {
        Err(HeadErr::Item)
    }
}

/// A boolean.
#[tactic(auto, using(crate::proofs::Steps::flags))]
pub(crate) fn flag(at: Cursor<'_>) -> Result<(bool, Cursor<'_>), HeadErr>
    ensures { Gives same result (read_flag at.entry.place at.entry.rest.now) }
{
    let Some((first, rest)) = at.rest.split_first() else {
        return Err(HeadErr::Short);
    };
    let place = at.place + 1;
    if *first == 0 {
        return Ok((false, Cursor { place, rest }));
    }
    if *first == 1 {
        return Ok((true, Cursor { place, rest }));
    }
    Err(HeadErr::Item)
}

/// A sequence of octets.
#[tactic(auto, unfolding(crate::specs::Items::read_sequence))]
pub(crate) fn sequence(order: Order, at: Cursor<'_>) -> Result<(&[u8], Cursor<'_>), HeadErr>
    ensures { Gives borrowed result (read_sequence order at.entry.place at.entry.rest.now) }
{
    let (n, at) = long(order, at)?;
    body(n as usize, at)
}

/// The place of the first octet 0.
fn zero_in(octets: &[u8]) -> Option<usize>
    ensures { result ≡ position (λ o. o == 0) octets.now }
{
    octets.iter().position(|o| *o == 0)
}

/// Whether the first octet 0 is the last octet.
#[tactic(auto, using(crate::proofs::Ended::ends))]
fn is_ended(octets: &[u8]) -> bool
    ensures { result ≡ is_ended octets.now }
{
    match zero_in(octets) {
        Some(i) => octets.len() - i == 1,
        None => false,
    }
}

/// A string, without the octet 0 at its end.
#[tactic(auto, unfolding(crate::specs::Items::read_string))]
pub(crate) fn string(order: Order, at: Cursor<'_>) -> Result<(&[u8], Cursor<'_>), HeadErr>
    ensures { Gives borrowed result (read_string order at.entry.place at.entry.rest.now) }
{
    let (n, at) = long(order, at)?;
    let (octets, at) = body(n as usize, at)?;
    if is_ended(octets) {
        Ok((&octets[..octets.len() - 1], at))
    } else {
        Err(HeadErr::Text)
    }
}

/// What leads up to a body, in a message of so many octets: octets up to a multiple of 8, or up to the
/// message's end.
#[tactic(auto, unfolding(crate::specs::Items::pass_padding))]
pub(crate) fn padding(total: usize, at: Cursor<'_>) -> Result<Cursor<'_>, HeadErr>
    ensures { Passing result (pass_padding total at.entry.place at.entry.rest.now) }
{
    let gap = (8 - at.place % 8) % 8;
    let many = gap.min(total.saturating_sub(at.place));
    let (_, at) = body(many, at)?;
    Ok(at)
}
