//! The head numbers of request records, from tokens of text in the usual form.

ghost use Rattle.std.specs.Prelude.{◌≡◌, ◌∷◌, Some, IfOk};
ghost use Rattle.json_shape.specs.Usual.{key_token, once_of, HeadsTaken, IsHeadOf, PortTaken, WordRead, WordTaken};

use crate::errors::Unusual;
use crate::members::{head_key, is_mach};
use crate::operations::is_oneway;
use crate::requests::{head_of, is_idle_port};
use crate::usual_digits::integer;
use crate::usual_tokens::{digits_next, is_key, key_next};
use json::Reader;
use pres::{Bound, Op};
use wire_def::{Back, Head};

/// The head numbers of a record that stand on one side of its operation.
#[derive(Clone, Copy)]
pub(crate) struct Heads {
    id: Option<u32>,
    local: Option<u32>,
}

/// The head numbers that are there from the key on that was taken, and the key after them.
pub(crate) fn heads_at<'a>(
    back: Back,
    taken: Option<&'a str>,
    reader: &mut Reader<'a>,
) -> Result<(Heads, Option<&'a str>), Unusual>
    ensures { IfOk result (λ r. HeadsTaken back (key_token taken.entry ∷ reader.old)
        (key_token r.1 ∷ reader.new) r.0.id r.0.local) }
{
    let (id, past_id) = word_at(head_key(back), taken, reader)?;
    let (local, past) = local_at(back, past_id, reader)?;
    Ok((Heads { id, local }, past))
}

/// The second head number, which is sought over Mach alone, and the key after it.
fn local_at<'a>(
    back: Back,
    taken: Option<&'a str>,
    reader: &mut Reader<'a>,
) -> Result<(Option<u32>, Option<&'a str>), Unusual>
    ensures { IfOk result (λ r. PortTaken back (key_token taken.entry ∷ reader.old)
        (key_token r.1 ∷ reader.new) r.0) }
{
    if !is_mach(back) {
        return Ok((None, taken));
    }
    let (local, past) = word_at("local", taken, reader)?;
    Ok((local, past))
}

/// The head number of a key, where that is the one that was taken, and the key after it.
pub(crate) fn word_at<'a>(
    name: &str,
    taken: Option<&'a str>,
    reader: &mut Reader<'a>,
) -> Result<(Option<u32>, Option<&'a str>), Unusual>
    ensures { IfOk result (λ r. WordTaken name.now (key_token taken.entry ∷ reader.old)
        (key_token r.1 ∷ reader.new) r.0) }
{
    if !is_key(taken, name) {
        return Ok((None, taken));
    }
    let word = word_next(reader)?;
    let past = key_next(reader)?;
    Ok((Some(word), past))
}

/// The number of a head that comes next.
#[tactic(auto, using(crate::proofs::UsualRecords::words))]
fn word_next(reader: &mut Reader<'_>) -> Result<u32, Unusual>
    ensures { IfOk result (λ n. WordRead reader.old reader.new n) }
{
    let digits = digits_next(reader)?;
    let Some(n) = integer(digits) else {
        return Err(Unusual);
    };
    match u32::try_from(n) {
        Ok(word) => Ok(word),
        Err(_) => Err(Unusual),
    }
}

/// The head of the numbers on both sides of an operation, where none stands twice and a reply is not missing.
pub(crate) fn head_in(
    bound: &Bound,
    number: u32,
    operation: &Op,
    before: &Heads,
    after: &Heads,
) -> Result<Head, Unusual>
    ensures { IfOk result (λ h. IsHeadOf bound.now number operation.now
        (before.now.id, after.now.id) (before.now.local, after.now.local) h) }
{
    let id = once(before.id, after.id)?;
    let local = once(before.local, after.local)?;
    if is_idle_port(operation, local) {
        return Err(Unusual);
    }
    let wants = !is_oneway(bound, number);
    Ok(head_of(bound.back(), id, local, wants))
}

/// A number that may stand before the operation or after it, where it does not stand twice; 0 where it is absent.
fn once(before: Option<u32>, after: Option<u32>) -> Result<u32, Unusual>
    ensures { IfOk result (λ n. once_of before after ≡ Some n) }
{
    match (before, after) {
        (None, None) => Ok(0),
        (None, Some(n)) => Ok(n),
        (Some(n), None) => Ok(n),
        (Some(_), Some(_)) => Err(Unusual),
    }
}
