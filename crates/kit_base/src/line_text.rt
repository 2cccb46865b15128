//! Where a line ends, and what is answered for its octets.

ghost use Rattle.std.specs.Prelude.{◌≡◌, ◌≢◌, ◌<◌, ◌≤◌, ◌+◌, ◌∷◌, ◌++◌, length, take, drop, IfOk, IfErr, IfSome, IfNone, Some, option_to_list};
ghost use Rattle.kit_base.specs.Lines.{line_of, HasNoEnd, chomp};

use crate::{Line, LineErr, NoMemory, Octets};
use memchr::memchr;
use std::alloc::Global;

/// The place of the first line feed, counted from 0, where there is none before `from`.
pub(crate) fn find_end(octets: &[u8], from: usize) -> Option<usize>
    requires within { from ≤ length octets.now }
    requires searched { HasNoEnd (take from octets.now) }
    ensures found { IfSome result (λ i. (i < length octets.now) × HasNoEnd (take i octets.now)
        × (octets.now ≡ take i octets.now ++ 10 ∷ drop (i + 1) octets.now)) }
    ensures none { IfNone result (HasNoEnd octets.now) }
{
    let found = memchr(10, rest_from(octets, from))?;
    Some(from + found)
}

fn rest_from(octets: &[u8], from: usize) -> &[u8]
    requires { from ≤ length octets.now }
    ensures { result.now ≡ drop from octets.now }
{
    &octets[from..]
}

/// The answer for a line, given without its line feed: none where it is empty, and `Long` above
/// `longest` octets, not counting the carriage return at its end.
pub(crate) fn read_line(alloc: Global, longest: u32, octets: &[u8]) -> Result<Option<Line>, LineErr>
    ensures lines { IfOk result (λ o. option_to_list o ≡ line_of longest octets.now) }
    ensures no_end { IfOk result (λ o. o ≢ Some Line.End) }
    ensures err { IfErr result (λ e. e ≡ LineErr.NoMemory) }
{
    let line = without_return(octets);
    if line.is_empty() {
        return Ok(None);
    }
    if line.len() > longest as usize {
        return Ok(Some(Line::Long));
    }
    match Octets::from_slice(alloc, line) {
        Ok(text) => Ok(Some(Line::Text(text))),
        Err(NoMemory) => Err(LineErr::NoMemory),
    }
}

fn without_return(octets: &[u8]) -> &[u8]
    ensures { result.now ≡ chomp octets.now }
{
    match octets.last() {
        Some(13) => &octets[..octets.len() - 1],
        _ => octets,
    }
}
