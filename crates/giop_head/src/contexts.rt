//! What is passed over, whatever it is: service contexts and principals. No memory is taken for it.

ghost use Rattle.giop_head.specs.Contexts.{pass_contexts, pass_many, pass_sequence, read_context};
ghost use Rattle.head_kit.specs.Readers.{Passes, Passing};

use crate::items::{long, sequence};
use head_kit::Cursor;
use wire_def::{HeadErr, Order};

/// A service context: its id and its data.
#[tactic(auto, unfolding(crate::specs::Contexts::read_context))]
fn context(order: Order, at: Cursor<'_>) -> Result<Cursor<'_>, HeadErr>
    ensures { Passes result (read_context order at.entry.place at.entry.rest.now) }
{
    let (_, at) = long(order, at)?;
    let (_, at) = sequence(order, at)?;
    Ok(at)
}

/// So many service contexts. Each has 8 octets at least, so a count costs no more than the octets
/// that are there.
#[tactic(auto, using(crate::proofs::Passed::passed))]
fn many(order: Order, n: u32, at: Cursor<'_>) -> Result<Cursor<'_>, HeadErr>
    ensures { Passing result (pass_many order n at.entry.place at.entry.rest.now) }
{
    let mut at = at;
    for _i in 0..n {
        at = context(order, at)?;
    }
    Ok(at)
}

/// A number of service contexts, and they.
#[tactic(auto, unfolding(crate::specs::Contexts::pass_contexts))]
pub(crate) fn contexts(order: Order, at: Cursor<'_>) -> Result<Cursor<'_>, HeadErr>
    ensures { Passing result (pass_contexts order at.entry.place at.entry.rest.now) }
{
    let (n, at) = long(order, at)?;
    many(order, n, at)
}

/// A sequence of octets.
#[tactic(auto, unfolding(crate::specs::Contexts::pass_sequence))]
pub(crate) fn any_sequence(order: Order, at: Cursor<'_>) -> Result<Cursor<'_>, HeadErr>
    ensures { Passing result (pass_sequence order at.entry.place at.entry.rest.now) }
{
    let (_, at) = sequence(order, at)?;
    Ok(at)
}
