//! What heads are made of, whatever the back end: words of four octets, and octets of any content.

ghost use Rattle.std.specs.Prelude.{◌≡◌, ◌≤◌, length, IfOk};
ghost use Rattle.wire_def.specs.HeadItems.{read_body};
ghost use Rattle.head_kit.specs.Words.{only, up_to, read_word, read_pass};
ghost use Rattle.head_kit.specs.Readers.{borrowed, same, Gives, Passes};

use crate::cursor::Cursor;
use wire_def::{HeadErr, Order};

/// So many octets, whatever they are.
#[tactic(auto, unfolding(wire_def::specs::HeadItems::read_body))]
pub fn body(n: usize, at: Cursor<'_>) -> Result<(&[u8], Cursor<'_>), HeadErr>
    ensures long { IfOk result (λ x. length x.0.now ≡ n) }
    ensures read { Gives borrowed result (read_body n at.entry.place at.entry.rest.now) }
{
    if at.rest.len() < n {
        return Err(HeadErr::Short);
    }
    let (octets, rest) = at.rest.split_at(n);
    let place = at.place + n;
    Ok((octets, Cursor { place, rest }))
}

/// Four octets, in this order.
#[tactic(auto, unfolding(crate::specs::Words::read_word))]
pub fn word(order: Order, at: Cursor<'_>) -> Result<(u32, Cursor<'_>), HeadErr>
    ensures { Gives same result (read_word order at.entry.place at.entry.rest.now) }
{
    if at.rest.len() < 4 {
        return Err(HeadErr::Short);
    }
    let (head, rest) = at.rest.split_at(4);
    let octets = [head[0], head[1], head[2], head[3]];
    let n = match order {
        Order::Big => u32::from_be_bytes(octets),
        Order::Little => u32::from_le_bytes(octets),
    };
    let place = at.place + 4;
    Ok((n, Cursor { place, rest }))
}

/// A word that holds this number; any other is the fault.
pub fn this_word(
    n: u32,
    order: Order,
    fault: HeadErr,
    at: Cursor<'_>,
) -> Result<Cursor<'_>, HeadErr>
    ensures { Passes result (read_pass order (only n) fault at.entry.place at.entry.rest.now) }
{
    let (m, next) = word(order, at)?;
    if m == n { Ok(next) } else { Err(fault) }
}

/// A word that holds a number up to this one; any other is the fault.
pub fn word_up_to(
    most: u32,
    order: Order,
    fault: HeadErr,
    at: Cursor<'_>,
) -> Result<(u32, Cursor<'_>), HeadErr>
    ensures most { IfOk result (λ x. x.0 ≤ most) }
    ensures read { Gives same result
        (read_pass order (up_to most) fault at.entry.place at.entry.rest.now) }
{
    let (n, next) = word(order, at)?;
    if n <= most { Ok((n, next)) } else { Err(fault) }
}
