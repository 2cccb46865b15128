//! Counts, and what gives the length of rows and texts, from octets (RFC 4506 sections 4.10 to 4.13).

ghost use Rattle.std.specs.Prelude.{◌≡◌, ◌≤◌};
ghost use Rattle.kit_base.specs.Limits.{longest_message};
ghost use Rattle.mint.specs.Types.{row_of, text};
ghost use Rattle.wire_def.specs.Lone.{lone_place};
ghost use Rattle.wire_def.specs.Arrays.{counted, read_count, read_ended, read_head};
ghost use Rattle.wire_def.specs.Described.{allowed};
ghost use Rattle.plain_wire.specs.Readers.{Reads, read_counted, read_length, same};

use crate::cursor::{Cursor, Taken, stop};
use crate::read_described::described;
use crate::read_scalar::{lone, number_at};
use crate::widths::gap_of;
use mint::kind::{Count, Kind};
use wire_def::{Encoding, FaultKind};

/// A count by itself.
#[tactic(auto, using(crate::proofs::Words::counts))]
fn one_count(enc: Encoding, at: Cursor<'_>) -> Taken<'_, usize>
    ensures { Reads same result (read_counted enc at.entry.place at.entry.rest.now) }
{
    let (n, next) = lone(enc, Kind::U32, at)?;
    Ok((n as usize, next))
}

/// Where the number of a count begins.
#[tactic(auto, using(crate::proofs::Words::places))]
fn count_at(enc: Encoding, place: usize) -> usize
    requires { place ≤ longest_message }
    ensures { result ≡ lone_place enc counted place }
{
    match enc {
        Encoding::Mach => place + 4,
        _ => place + gap_of(enc, Kind::U32, place),
    }
}

/// Whether a count allows so many.
pub(crate) fn allows(bound: Count, n: usize) -> bool
    ensures { result ≡ allowed bound n }
{
    match bound {
        Count::Exactly(m) => n == m as usize,
        Count::AtMost(m) => n <= m as usize,
        Count::Any => true,
    }
}

/// The count of a list.
#[tactic(auto, using(crate::proofs::Words::counts), unfolding(wire_def::specs::Arrays::read_count))]
pub(crate) fn count(enc: Encoding, bound: Count, at: Cursor<'_>) -> Taken<'_, usize>
    ensures { Reads same result (read_count enc bound at.entry.place at.entry.rest.now) }
{
    match bound {
        Count::Exactly(m) => Ok((m as usize, at)),
        Count::AtMost(m) => {
            let (n, next) = one_count(enc, at)?;
            if n <= m as usize {
                Ok((n, next))
            } else {
                Err(stop(FaultKind::OverBound, count_at(enc, at.place)))
            }
        }
        Count::Any => one_count(enc, at),
    }
}

/// A length without a descriptor.
#[tactic(auto, using(crate::proofs::Words::counts))]
fn one_length(enc: Encoding, at: Cursor<'_>) -> Taken<'_, usize>
    ensures { Reads same result (read_length enc at.entry.place at.entry.rest.now) }
{
    let (n, next) = number_at(enc, Kind::U32, at)?;
    Ok((n as usize, next))
}

/// The length of a text that has an octet 0 after it.
#[tactic(auto, using(crate::proofs::Words::counts))]
fn ended(enc: Encoding, bound: Count, at: Cursor<'_>) -> Taken<'_, usize>
    ensures { Reads same result (read_ended enc bound at.entry.place at.entry.rest.now) }
{
    let (m, next) = one_length(enc, at)?;
    let place = at.place + gap_of(enc, Kind::U32, at.place);
    if m == 0 {
        return Err(stop(FaultKind::BadText, place));
    }
    let n = m - 1;
    if allows(bound, n) {
        Ok((n, next))
    } else {
        Err(stop(FaultKind::OverBound, place))
    }
}

/// What gives the length of a text.
#[tactic(auto, using(crate::proofs::Words::heads))]
pub(crate) fn text_head(enc: Encoding, bound: Count, at: Cursor<'_>) -> Taken<'_, usize>
    ensures { Reads same result (read_head enc (text bound) at.entry.place at.entry.rest.now) }
{
    match enc {
        Encoding::CdrBig | Encoding::CdrLittle => ended(enc, bound, at),
        Encoding::Mach => described(bound, Kind::Char, at),
        Encoding::Xdr => count(enc, bound, at),
    }
}

/// What gives the length of a row.
#[tactic(auto, using(crate::proofs::Words::heads))]
pub(crate) fn row_head(enc: Encoding, kind: Kind, bound: Count, at: Cursor<'_>) -> Taken<'_, usize>
    ensures { Reads same result (read_head enc (row_of kind bound) at.entry.place at.entry.rest.now) }
{
    match enc {
        Encoding::Mach => described(bound, kind, at),
        _ => count(enc, bound, at),
    }
}
