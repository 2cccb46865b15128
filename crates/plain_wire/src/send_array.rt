//! Rows and texts as octets (RFC 4506 sections 4.9 to 4.13).

ghost use Rattle.std.specs.Prelude.{◌≡◌, ◌<◌, ◌%◌, pos, map, length, slice_index_or, IsTrue};
ghost use Rattle.std.specs.List.{list_all};
ghost use Rattle.mint.specs.Types.{number, text, row_of};
ghost use Rattle.mint.specs.Typed.{IsArray};
ghost use Rattle.mint.specs.Kinds.{in_range, word};
ghost use Rattle.std.specs.Int.{w8};
ghost use Rattle.mint.specs.declared.kind.Kind.TheVariants as kind;
ghost use Rattle.wire_def.specs.Scalars.{scalar_octets};
ghost use Rattle.wire_def.specs.Arrays.{natural, elements_octets, array_octets};
ghost use Rattle.kit_swap.specs.Swapped.{IsSwapWidth, swapped};
ghost use Rattle.plain_wire.specs.Rows.{bare_octets, numbers_octets};
ghost use Rattle.plain_wire.specs.Sending.{Appends, IsNear, elements_of, ended};

use crate::send_scalar::{put, put_bare, put_row_head, put_text_head, put_zeros};
use crate::widths::{PIECE, Way, after_row, after_text, gap_before, way_of};
use kit_base::{NoMemory, Octets};
use kit_swap::swap_numbers;
use mint::kind::{Count, Kind};
use mint::row::Row;
use wire_def::Encoding;

/// Puts each number of a row as one octet: its image, as one block.
#[tactic(auto, using(crate::proofs::Images::images))]
fn put_octets(place: usize, row: &Row, out: &mut Octets) -> Result<usize, NoMemory>
    requires kind { word row.now.kind ≡ w8 }
    requires octets { IsTrue (list_all (in_range kind.Octet) row.now.numbers) }
    requires near { IsNear place out.old }
    ensures { Appends out.old out.new place (map natural row.now.numbers) result }
{
    put(place, row.image(), out)
}

/// Puts an image with the octets of each number reversed, piece by piece.
#[tactic(auto, using(crate::proofs::RowImages::pieces))]
fn put_swapped(
    width: usize,
    place: usize,
    image: &[u8],
    out: &mut Octets,
) -> Result<usize, NoMemory>
    requires width { IsSwapWidth width }
    requires whole { length image.now % width ≡ 0 }
    requires near { IsNear place out.old }
    ensures { Appends out.old out.new place (swapped width image.now) result }
{
    let mut piece = [0u8; PIECE];
    let mut at = place;
    let mut rest = image;
    while rest.len() > 0 {
        let n = rest.len().min(PIECE);
        let (first, after) = rest.split_at(n);
        swap_numbers(width, first, &mut piece[..n]);
        at = put(at, &piece[..n], out)?;
        rest = after;
    }
    Ok(at)
}

/// Puts the number at a place of a row.
#[tactic(auto, using(crate::proofs::Steps::equations))]
fn put_at(
    enc: Encoding,
    kind: Kind,
    place: usize,
    row: &Row,
    i: usize,
    out: &mut Octets,
) -> Result<usize, NoMemory>
    requires there { i < length row.now.numbers }
    requires fits { IsTrue (list_all (in_range kind) row.now.numbers) }
    requires near { IsNear place out.old }
    ensures { Appends out.old out.new place
        (bare_octets enc kind (slice_index_or row.now.numbers i (pos 0))) result }
{
    match row.get(i) {
        Some(n) => put_bare(enc, kind, place, &n, out),
        None => unreachable!(),
    }
}

/// Puts each number of a row by itself.
#[tactic(auto, using(crate::proofs::Steps::equations))]
fn put_each(
    enc: Encoding,
    kind: Kind,
    place: usize,
    row: &Row,
    out: &mut Octets,
) -> Result<usize, NoMemory>
    requires fits { IsTrue (list_all (in_range kind) row.now.numbers) }
    requires near { IsNear place out.old }
    ensures { Appends out.old out.new place (numbers_octets enc kind row.now.numbers) result }
{
    let mut at = place;
    for i in 0..row.len() {
        at = put_at(enc, kind, at, row, i, out)?;
    }
    Ok(at)
}

/// Puts the numbers of a row after their gap.
#[tactic(auto, using(crate::proofs::RowImages::copies))]
fn put_numbers(
    enc: Encoding,
    kind: Kind,
    place: usize,
    row: &Row,
    out: &mut Octets,
) -> Result<usize, NoMemory>
    requires kind { row.now.kind ≡ kind }
    requires fits { IsTrue (list_all (in_range kind) row.now.numbers) }
    requires near { IsNear place out.old }
    ensures { Appends out.old out.new place (numbers_octets enc kind row.now.numbers) result }
{
    match way_of(enc, kind) {
        Way::Copied => put(place, row.image(), out),
        Way::Swapped => put_swapped(kind.width(), place, row.image(), out),
        Way::Single => put_each(enc, kind, place, row, out),
    }
}

/// Puts the numbers of a row, the first of them aligned.
#[tactic(auto, using(crate::proofs::RowGaps::gapped))]
fn put_gapped(
    enc: Encoding,
    kind: Kind,
    place: usize,
    row: &Row,
    out: &mut Octets,
) -> Result<usize, NoMemory>
    requires kind { row.now.kind ≡ kind }
    requires fits { IsTrue (list_all (in_range kind) row.now.numbers) }
    requires near { IsNear place out.old }
    ensures { Appends out.old out.new place
        (elements_octets (scalar_octets enc (number kind)) place row.now.numbers) result }
{
    let first = put_zeros(gap_before(enc, kind, place, row.len()), place, out)?;
    put_numbers(enc, kind, first, row, out)
}

/// Puts the elements of a row.
#[tactic(auto, using(crate::proofs::Arrays::rows))]
fn put_elements(
    enc: Encoding,
    kind: Kind,
    bound: Count,
    place: usize,
    row: &Row,
    out: &mut Octets,
) -> Result<usize, NoMemory>
    requires typed { IsArray (row_of kind bound) row.now.kind row.now.numbers }
    requires near { IsNear place out.old }
    ensures { Appends out.old out.new place (elements_of enc (row_of kind bound) place row.now.numbers)
        result }
{
    match kind {
        Kind::Octet => put_octets(place, row, out),
        _ => put_gapped(enc, kind, place, row, out),
    }
}

/// Puts a row's elements, and what follows them.
#[tactic(auto, using(crate::proofs::Steps::equations))]
fn put_ended_row(
    enc: Encoding,
    kind: Kind,
    bound: Count,
    place: usize,
    row: &Row,
    out: &mut Octets,
) -> Result<usize, NoMemory>
    requires typed { IsArray (row_of kind bound) row.now.kind row.now.numbers }
    requires near { IsNear place out.old }
    ensures { Appends out.old out.new place (ended enc (row_of kind bound) place row.now.numbers) result }
{
    let after = put_elements(enc, kind, bound, place, row, out)?;
    put_zeros(after_row(enc, kind, row.len()), after, out)
}

/// Puts a text's octets, and what follows them.
#[tactic(auto, using(crate::proofs::Arrays::texts))]
fn put_ended_text(
    enc: Encoding,
    bound: Count,
    place: usize,
    row: &Row,
    out: &mut Octets,
) -> Result<usize, NoMemory>
    requires typed { IsArray (text bound) row.now.kind row.now.numbers }
    requires near { IsNear place out.old }
    ensures { Appends out.old out.new place (ended enc (text bound) place row.now.numbers) result }
{
    let after = put_octets(place, row, out)?;
    put_zeros(after_text(enc, row.len()), after, out)
}

/// Puts a text.
#[tactic(auto, using(crate::proofs::Arrays::wholes))]
pub(crate) fn put_text(
    enc: Encoding,
    bound: Count,
    place: usize,
    row: &Row,
    out: &mut Octets,
) -> Result<usize, NoMemory>
    requires typed { IsArray (text bound) row.now.kind row.now.numbers }
    requires near { IsNear place out.old }
    ensures { Appends out.old out.new place (array_octets enc (text bound) place row.now.numbers) result }
{
    let after = put_text_head(enc, bound, place, row.len(), out)?;
    put_ended_text(enc, bound, after, row, out)
}

/// Puts a row.
#[tactic(auto, using(crate::proofs::Arrays::wholes))]
pub(crate) fn put_row(
    enc: Encoding,
    kind: Kind,
    bound: Count,
    place: usize,
    row: &Row,
    out: &mut Octets,
) -> Result<usize, NoMemory>
    requires typed { IsArray (row_of kind bound) row.now.kind row.now.numbers }
    requires near { IsNear place out.old }
    ensures { Appends out.old out.new place (array_octets enc (row_of kind bound) place row.now.numbers)
        result }
{
    let after = put_row_head(enc, kind, bound, place, row.len(), out)?;
    put_ended_row(enc, kind, bound, after, row, out)
}
