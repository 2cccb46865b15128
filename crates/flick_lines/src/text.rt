//! Octets in memory of their own, with space for a line feed.

ghost use Rattle.std.specs.Prelude.{◌≡◌, ◌∷◌, ◌++◌, [], IfOk};
ghost use Rattle.hex.specs.Hex.{encode_lower};

use kit_base::{NoMemory, Octets};
use std::alloc::Global;

/// The same octets, with space for a line feed after them.
pub fn copied(alloc: Global, octets: &[u8]) -> Result<Octets, NoMemory>
    ensures { IfOk result (λ o. o ≡ octets.now) }
{
    let mut out = Octets::with_room(alloc, octets.len().saturating_add(1))?;
    out.append(octets)?;
    Ok(out)
}

/// Octets in hexadecimal digits, the letters in lower case.
pub fn digits(alloc: Global, octets: &[u8]) -> Result<Octets, NoMemory>
    ensures { IfOk result (λ o. o ≡ encode_lower octets.now) }
{
    let room = octets.len().saturating_mul(2).saturating_add(1);
    let mut out = Octets::with_room(alloc, room)?;
    kit_digits::put(octets, &mut out)?;
    Ok(out)
}

/// An answer with its line feed, for which `copied` and `digits` have space.
pub fn ended(answer: Octets) -> Result<Octets, NoMemory>
    ensures { IfOk result (λ o. o ≡ answer ++ 10 ∷ []) }
{
    let mut out = answer;
    out.push(10)?;
    Ok(out)
}
