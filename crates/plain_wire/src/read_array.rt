//! Rows and texts from octets (RFC 4506 sections 4.9 to 4.13).

ghost use Rattle.std.specs.Prelude.{◌≡◌, ◌==◌, pos, map, take, IfOk};
ghost use Rattle.std.specs.List.{position};
ghost use Rattle.mint.specs.Kinds.{above};
ghost use Rattle.mint.specs.Types.{row_of, text};
ghost use Rattle.mint.specs.declared.kind.Kind.TheVariants as kind;
ghost use Rattle.wire_def.specs.Grammar.{times};
ghost use Rattle.wire_def.specs.Arrays.{read_zeros, read_element, read_array, read_tail};
ghost use Rattle.plain_wire.specs.Readers.{any_octet, any_letter, letters_read, elements_read, nothing, numbers_in, Gives, Reads};

use crate::cursor::{Cursor, ReadError, Taken, stop};
use crate::read_described::any;
use crate::read_head::{row_head, text_head};
use crate::read_row::numbers;
use crate::widths::{after_row, after_text, fault_after};
use kit_base::NoMemory;
use mint::kind::{Count, Kind};
use mint::row::Row;
use std::alloc::Global;
use wire_def::{Encoding, FaultKind};

/// The next n octets.
#[tactic(auto, using(crate::proofs::Blocks::blocks))]
fn octets(n: usize, at: Cursor<'_>) -> Taken<'_, &[u8]>
    ensures { Reads (λ o. map pos o.now) result (times any_octet n at.entry.place at.entry.rest.now) }
{
    if at.rest.len() < n {
        return Err(stop(FaultKind::Short, at.place + at.rest.len()));
    }
    let (piece, rest) = at.rest.split_at(n);
    let place = at.place + n;
    Ok((piece, Cursor { place, rest }))
}

/// The first octets, as many as there are.
fn first(n: usize, octets: &[u8]) -> &[u8]
    ensures { result.now ≡ take n octets.now }
{
    if octets.len() < n {
        octets
    } else {
        &octets[..n]
    }
}

/// The place of the first octet 0.
fn zero_in(octets: &[u8]) -> Option<usize>
    ensures { result ≡ position (λ o. o == 0) octets.now }
{
    octets.iter().position(|o| *o == 0)
}

/// The next n octets of a text. A fault is an octet 0 among those that are there, or else that
/// fewer are there.
#[tactic(auto, using(crate::proofs::Blocks::blocks))]
fn letters(n: usize, at: Cursor<'_>) -> Taken<'_, &[u8]>
    ensures { Reads (λ o. map pos o.now) result (times any_letter n at.entry.place at.entry.rest.now) }
{
    if let Some(i) = zero_in(first(n, at.rest)) {
        return Err(stop(FaultKind::BadText, at.place + i));
    }
    octets(n, at)
}

/// The row of these octets, as one block.
#[tactic(auto, using(crate::proofs::Images::images))]
fn row_of_octets(alloc: Global, kind: Kind, octets: &[u8]) -> Result<Row, NoMemory>
    requires { above kind ≡ 256 }
    ensures { IfOk result (λ r. r ≡ record { kind = kind; numbers = map pos octets.now }) }
{
    let mut row = Row::new(alloc, kind);
    row.append_image(octets)?;
    Ok(row)
}

/// The next octet.
#[tactic(auto, unfolding(wire_def::specs::Arrays::read_octet))]
fn octet(at: Cursor<'_>) -> Taken<'_, u8>
    ensures { Reads (λ o. pos o) result (any_octet at.entry.place at.entry.rest.now) }
{
    match at.rest {
        [] => Err(stop(FaultKind::Short, at.place)),
        [octet, rest @ ..] => {
            let place = at.place + 1;
            Ok((*octet, Cursor { place, rest }))
        }
    }
}

/// The next n octets, which are 0; one that is not has the given fault.
#[tactic(auto, using(crate::proofs::Reading::pads))]
fn zeros(n: usize, fault: FaultKind, at: Cursor<'_>) -> Taken<'_, ()>
    ensures { Reads nothing result (read_zeros n fault at.entry.place at.entry.rest.now) }
{
    if n == 0 {
        return Ok(((), at));
    }
    let (pad, next) = octet(at)?;
    if pad != 0 {
        return Err(stop(fault, at.place));
    }
    zeros(n - 1, fault, next)
}

/// So many elements of a row: octets, or numbers.
#[tactic(auto, using(crate::proofs::Reading::elements))]
fn elements(
    alloc: Global,
    enc: Encoding,
    kind: Kind,
    bound: Count,
    n: usize,
    at: Cursor<'_>,
) -> Taken<'_, Row, ReadError>
    ensures numbers { Gives numbers_in result
        (times (read_element enc (row_of kind bound)) n at.entry.place at.entry.rest.now) }
    ensures kind { IfOk result (λ x. x.0.kind ≡ kind) }
{
    match kind {
        Kind::Octet => {
            let (piece, next) = octets(n, at)?;
            Ok((row_of_octets(alloc, kind, piece)?, next))
        }
        _ => numbers(alloc, enc, kind, n, at),
    }
}

/// What follows a row's elements.
#[tactic(auto, using(crate::proofs::Words::tails))]
fn after_elements(
    enc: Encoding,
    kind: Kind,
    bound: Count,
    n: usize,
    at: Cursor<'_>,
) -> Taken<'_, ()>
    ensures { Reads nothing result (read_tail enc (row_of kind bound) n at.entry.place at.entry.rest.now) }
{
    match enc {
        Encoding::Mach => any(after_row(enc, kind, n), at),
        _ => zeros(after_row(enc, kind, n), fault_after(enc), at),
    }
}

/// What follows a text's octets.
#[tactic(auto, using(crate::proofs::Words::tails))]
fn after_letters(enc: Encoding, bound: Count, n: usize, at: Cursor<'_>) -> Taken<'_, ()>
    ensures { Reads nothing result (read_tail enc (text bound) n at.entry.place at.entry.rest.now) }
{
    match enc {
        Encoding::Mach => any(after_text(enc, n), at),
        _ => zeros(after_text(enc, n), fault_after(enc), at),
    }
}

/// Elements, and what follows them.
fn ended_elements(
    alloc: Global,
    enc: Encoding,
    kind: Kind,
    bound: Count,
    n: usize,
    at: Cursor<'_>,
) -> Taken<'_, Row, ReadError>
    ensures numbers { Gives numbers_in result
        (elements_read enc kind bound n at.entry.place at.entry.rest.now) }
    ensures kind { IfOk result (λ x. x.0.kind ≡ kind) }
{
    let (row, next) = elements(alloc, enc, kind, bound, n, at)?;
    let ((), last) = after_elements(enc, kind, bound, n, next)?;
    Ok((row, last))
}

/// A row.
#[tactic(auto, unfolding(wire_def::specs::Arrays::read_array))]
pub(crate) fn row(
    alloc: Global,
    enc: Encoding,
    kind: Kind,
    bound: Count,
    at: Cursor<'_>,
) -> Taken<'_, Row, ReadError>
    ensures numbers { Gives numbers_in result
        (read_array enc (row_of kind bound) at.entry.place at.entry.rest.now) }
    ensures kind { IfOk result (λ x. x.0.kind ≡ kind) }
{
    let (n, next) = row_head(enc, kind, bound, at)?;
    ended_elements(alloc, enc, kind, bound, n, next)
}

/// The octets of a text, and what follows them.
fn ended_letters(
    alloc: Global,
    enc: Encoding,
    bound: Count,
    n: usize,
    at: Cursor<'_>,
) -> Taken<'_, Row, ReadError>
    ensures numbers { Gives numbers_in result (letters_read enc bound n at.entry.place at.entry.rest.now) }
    ensures kind { IfOk result (λ x. x.0.kind ≡ kind.Char) }
{
    let (piece, next) = letters(n, at)?;
    let ((), last) = after_letters(enc, bound, n, next)?;
    Ok((row_of_octets(alloc, Kind::Char, piece)?, last))
}

/// A text.
#[tactic(auto, unfolding(wire_def::specs::Arrays::read_array, wire_def::specs::Arrays::read_element))]
pub(crate) fn text(
    alloc: Global,
    enc: Encoding,
    bound: Count,
    at: Cursor<'_>,
) -> Taken<'_, Row, ReadError>
    ensures numbers { Gives numbers_in result (read_array enc (text bound) at.entry.place at.entry.rest.now) }
    ensures kind { IfOk result (λ x. x.0.kind ≡ kind.Char) }
{
    let (n, next) = text_head(enc, bound, at)?;
    ended_letters(alloc, enc, bound, n, next)
}
