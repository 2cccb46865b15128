//! The numbers of a row: the one gap before them, and then their image or each by itself.

ghost use Rattle.std.specs.Prelude.{◌≡◌, ◌≢◌, ◌<◌, ◌%◌, ◌/◌, length, IfOk};
ghost use Rattle.mint.specs.Kinds.{width};
ghost use Rattle.mint.specs.Row.{numbers_of};
ghost use Rattle.mint.specs.Types.{number};
ghost use Rattle.wire_def.specs.Grammar.{AreOctets, times};
ghost use Rattle.wire_def.specs.Scalars.{read_scalar};
ghost use Rattle.plain_wire.specs.Rows.{IsWay, arranged};
ghost use Rattle.kit_swap.specs.Swapped.{IsSwapWidth, swapped};
ghost use Rattle.plain_wire.specs.Readers.{numbers_in, read_here, Gives, Reads};

use crate::cursor::{Cursor, ReadError, Taken, stop};
use crate::read_scalar::{number_here, skip};
use crate::widths::{PIECE, Way, gap_before, way_of};
use kit_base::NoMemory;
use kit_swap::swap_numbers;
use mint::kind::Kind;
use mint::row::Row;
use std::alloc::Global;
use wire_def::{Encoding, FaultKind};

/// How many whole numbers of a width the octets hold.
fn many(octets: &[u8], width: usize) -> usize
    requires { 0 < width }
    ensures is { result ≡ length octets.now / width }
    ensures octets { AreOctets octets.now }
{
    octets.len() / width
}

/// The octets of the next n numbers, whatever they are.
#[tactic(auto, using(crate::proofs::RowWords::images))]
fn image(_enc: Encoding, kind: Kind, _way: Way, n: usize, at: Cursor<'_>) -> Taken<'_, &[u8]>
    requires way { IsWay _enc kind _way }
    requires block { _way ≢ Way.Single }
    requires kind { kind ≢ Kind.Bool }
    ensures whole { IfOk result (λ x. length x.0.now % width kind ≡ 0) }
    ensures read { Reads (λ o. numbers_of kind (arranged _way (width kind) o.now)) result
        (times (read_here _enc (number kind)) n at.entry.place at.entry.rest.now) }
{
    let width = kind.width();
    let there = many(at.rest, width);
    if there < n {
        return Err(stop(FaultKind::Short, at.place + there * width));
    }
    let (piece, rest) = at.rest.split_at(n * width);
    let place = at.place + n * width;
    Ok((piece, Cursor { place, rest }))
}

/// The row of numbers with their octets reversed, piece by piece.
#[tactic(auto, using(crate::proofs::RowImages::pieces))]
fn row_of_swapped(alloc: Global, kind: Kind, octets: &[u8]) -> Result<Row, NoMemory>
    requires kind { kind ≢ Kind.Bool }
    requires width { IsSwapWidth (width kind) }
    requires whole { length octets.now % width kind ≡ 0 }
    ensures { IfOk result
        (λ r. r ≡ record { kind = kind; numbers = numbers_of kind (swapped (width kind) octets.now) }) }
{
    let mut row = Row::new(alloc, kind);
    let mut piece = [0u8; PIECE];
    let mut rest = octets;
    while rest.len() > 0 {
        let n = rest.len().min(PIECE);
        let (first, after) = rest.split_at(n);
        swap_numbers(kind.width(), first, &mut piece[..n]);
        row.append_image(&piece[..n])?;
        rest = after;
    }
    Ok(row)
}

/// So many numbers, each by itself.
fn each_number(
    alloc: Global,
    enc: Encoding,
    kind: Kind,
    n: usize,
    at: Cursor<'_>,
) -> Taken<'_, Row, ReadError>
    ensures numbers { Gives numbers_in result
        (times (read_here enc (number kind)) n at.entry.place at.entry.rest.now) }
    ensures kind { IfOk result (λ x. x.0.kind ≡ kind) }
{
    let mut row = Row::new(alloc, kind);
    let mut at = at;
    for _i in 0..n {
        let (m, next) = number_here(enc, kind, at)?;
        row.push(m)?;
        at = next;
    }
    Ok((row, at))
}

/// So many numbers after their gap. Not every octet is a Bool, so each of these is looked at.
fn numbers_here(
    alloc: Global,
    enc: Encoding,
    kind: Kind,
    n: usize,
    at: Cursor<'_>,
) -> Taken<'_, Row, ReadError>
    ensures numbers { Gives numbers_in result
        (times (read_here enc (number kind)) n at.entry.place at.entry.rest.now) }
    ensures kind { IfOk result (λ x. x.0.kind ≡ kind) }
{
    if matches!(kind, Kind::Bool) {
        return each_number(alloc, enc, kind, n, at);
    }
    match way_of(enc, kind) {
        Way::Copied => {
            let (octets, next) = image(enc, kind, Way::Copied, n, at)?;
            Ok((Row::of_image(alloc, kind, octets)?, next))
        }
        Way::Swapped => {
            let (octets, next) = image(enc, kind, Way::Swapped, n, at)?;
            Ok((row_of_swapped(alloc, kind, octets)?, next))
        }
        Way::Single => each_number(alloc, enc, kind, n, at),
    }
}

/// So many numbers, the first of them aligned.
#[tactic(auto, using(crate::proofs::RowGaps::reads))]
pub(crate) fn numbers(
    alloc: Global,
    enc: Encoding,
    kind: Kind,
    n: usize,
    at: Cursor<'_>,
) -> Taken<'_, Row, ReadError>
    ensures numbers { Gives numbers_in result
        (times (read_scalar enc (number kind)) n at.entry.place at.entry.rest.now) }
    ensures kind { IfOk result (λ x. x.0.kind ≡ kind) }
{
    let ((), first) = skip(gap_before(enc, kind, at.place, n), at)?;
    numbers_here(alloc, enc, kind, n, first)
}
