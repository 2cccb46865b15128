//! The answers of `count`.

ghost use Rattle.std.specs.Prelude.{◌≡◌, ◌++◌, IfOk, OnOk, Some, string_bytes};
ghost use Rattle.hex.specs.Hex.{encode_lower};
ghost use Rattle.raw_buf.specs.Buf.{NoneFell};
ghost use Rattle.flick_lines.specs.declared.verb.Verb.TheVariants as verbs;
ghost use Rattle.flick_lines.specs.Counted.{counts_text, IsCounted};
ghost use Rattle.flick_lines.specs.Paid.{IsPaid};

use crate::marshalled::message_of;
use crate::text::digits;
use flick_engine::Engine;
use json_shape::Scratch;
use kit_base::{NoMemory, Octets};
use raw_buf::{SendBuf, Tally};
use std::alloc::Global;

/// The answer of `count` to a line, without its line feed. The message is made in the buffer, whose counts of it
/// are those that are written. The scratch is for reading.
pub fn count(
    alloc: Global,
    engine: &Engine,
    line: &[u8],
    scratch: &mut Scratch,
    buf: &mut SendBuf,
) -> Result<Octets, NoMemory>
    ensures value { IfOk result (λ o. IsCounted engine.now line.now o) }
    ensures spent { NoneFell buf.old.spent buf.new.spent }
    ensures paid { OnOk result (IsPaid verbs.Count engine.now line.now buf.old buf.new) }
{
    match message_of(alloc, engine, line, scratch, buf)? {
        Some(refusal) => Ok(refusal),
        None => with_counts(alloc, buf.octets(), buf.tally()),
    }
}

/// A message in hexadecimal digits, and counts after it.
fn with_counts(alloc: Global, message: &[u8], counts: Tally) -> Result<Octets, NoMemory>
    ensures { IfOk result (λ o. o ≡ encode_lower message.now ++ counts_text (Some counts)) }
{
    let mut out = digits(alloc, message)?;
    out.append(counts_text(alloc, counts)?.as_bytes())?;
    Ok(out)
}

/// Counts in decimal, a space before each.
fn counts_text(alloc: Global, counts: Tally) -> Result<String, NoMemory>
    ensures { IfOk result (λ s. string_bytes s ≡ counts_text (Some counts)) }
{
    let text = format!(in alloc;
        " {} {} {} {}",
        counts.checks, counts.moves, counts.stores, counts.rows
    )?;
    Ok(text)
}
