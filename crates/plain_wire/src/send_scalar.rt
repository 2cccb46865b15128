//! Numbers, labels and counts as octets (RFC 4506 sections 4.1 to 4.5).

ghost use Rattle.std.specs.Prelude.{◌≡◌, ◌≤◌, ◌<◌, ◌+◌, pos, length, replicate, suc};
ghost use Rattle.mint.specs.Types.{number, label, row_of, scalar_of, text};
ghost use Rattle.mint.specs.Typed.{IsScalar};
ghost use Rattle.mint.specs.Kinds.{Allows};
ghost use Rattle.wire_def.specs.Scalars.{number_octets, residue, scalar_octets};
ghost use Rattle.wire_def.specs.Lone.{lone_octets};
ghost use Rattle.wire_def.specs.Arrays.{counted, count_octets, head_octets};
ghost use Rattle.plain_wire.specs.Rows.{bare_octets};
ghost use Rattle.plain_wire.specs.Sending.{Appends, IsNear, aligned};
ghost use Rattle.plain_wire.specs.Widths.{width_in, FitsWidth};

use crate::send_described::{put_descriptor, put_item};
use crate::widths::{Size, full_of, gap_of, octets_in, size_of};
use kit_base::{NoMemory, Octets};
use mint::kind::{Count, Kind};
use mint::node::{Labels, Tag};
use wire_def::Encoding;

/// Appends octets to those that are there, and gives the position after them.
pub(crate) fn put(place: usize, piece: &[u8], out: &mut Octets) -> Result<usize, NoMemory>
    requires { IsNear place out.old }
    ensures { Appends out.old out.new place piece.now result }
{
    let before = out.len();
    out.append(piece)?;
    Ok(place + (out.as_slice().len() - before))
}

/// Puts at most seven octets 0.
pub(crate) fn put_zeros(count: usize, place: usize, out: &mut Octets) -> Result<usize, NoMemory>
    requires few { count < 8 }
    requires near { IsNear place out.old }
    ensures { Appends out.old out.new place (replicate count 0) result }
{
    let zeros = [0u8; 7];
    put(place, &zeros[..count], out)
}

/// A number modulo 2 to the bits of a width.
#[tactic(auto, using(crate::proofs::Gaps::widths))]
fn residue_in(size: Size, n: i128) -> u64
    requires { FitsWidth (width_in size) n }
    ensures { result ≡ residue (width_in size) n }
{
    if n < 0 {
        (n + full_of(size)) as u64
    } else {
        n as u64
    }
}

/// Puts a number in its octets, in the order of the encoding.
#[tactic(auto, using(crate::proofs::Gaps::widths))]
fn put_word(
    enc: Encoding,
    size: Size,
    place: usize,
    n: &i128,
    out: &mut Octets,
) -> Result<usize, NoMemory>
    requires fits { FitsWidth (width_in size) n.now }
    requires near { IsNear place out.old }
    ensures { Appends out.old out.new place
        (number_octets enc (width_in size) (residue (width_in size) n.now)) result }
{
    let m = residue_in(size, *n);
    let many = octets_in(size);
    match enc {
        Encoding::Xdr | Encoding::CdrBig => put(place, &m.to_be_bytes()[8 - many..], out),
        _ => put(place, &m.to_le_bytes()[..many], out),
    }
}

/// Puts a number of a kind, where it begins.
#[tactic(auto, using(crate::proofs::Steps::scalars), unfolding(crate::specs::Rows::bare_octets))]
pub(crate) fn put_bare(
    enc: Encoding,
    kind: Kind,
    place: usize,
    n: &i128,
    out: &mut Octets,
) -> Result<usize, NoMemory>
    requires fits { IsScalar (number kind) n.now }
    requires near { IsNear place out.old }
    ensures { Appends out.old out.new place (bare_octets enc kind n.now) result }
{
    put_word(enc, size_of(enc, kind), place, n, out)
}

/// Puts a number of a kind, aligned.
#[tactic(auto, using(crate::proofs::Steps::scalars))]
fn put_number(
    enc: Encoding,
    kind: Kind,
    place: usize,
    n: &i128,
    out: &mut Octets,
) -> Result<usize, NoMemory>
    requires fits { IsScalar (number kind) n.now }
    requires near { IsNear place out.old }
    ensures { Appends out.old out.new place (scalar_octets enc (number kind) place n.now) result }
{
    let after = put_zeros(gap_of(enc, kind, place), place, out)?;
    put_bare(enc, kind, after, n, out)
}

/// Puts a number that travels by itself.
#[tactic(auto, using(crate::proofs::Steps::lones))]
pub(crate) fn put_lone(
    enc: Encoding,
    kind: Kind,
    place: usize,
    n: &i128,
    out: &mut Octets,
) -> Result<usize, NoMemory>
    requires fits { IsScalar (number kind) n.now }
    requires near { IsNear place out.old }
    ensures { Appends out.old out.new place (lone_octets enc (number kind) place n.now) result }
{
    match enc {
        Encoding::Mach => put_item(kind, place, n, out),
        _ => put_number(enc, kind, place, n, out),
    }
}

/// Puts one of an enum's labels.
#[tactic(auto, using(crate::proofs::Steps::lones))]
pub(crate) fn put_label(
    enc: Encoding,
    _labels: &Labels,
    place: usize,
    n: &i128,
    out: &mut Octets,
) -> Result<usize, NoMemory>
    requires fits { IsScalar (label _labels.now) n.now }
    requires near { IsNear place out.old }
    ensures { Appends out.old out.new place (lone_octets enc (label _labels.now) place n.now) result }
{
    put_lone(enc, Kind::I32, place, n, out)
}

/// Puts a number of a discriminant.
pub(crate) fn put_scalar(
    enc: Encoding,
    tag: &Tag,
    place: usize,
    n: &i128,
    out: &mut Octets,
) -> Result<usize, NoMemory>
    requires fits { IsScalar (scalar_of tag.now) n.now }
    requires near { IsNear place out.old }
    ensures { Appends out.old out.new place (lone_octets enc (scalar_of tag.now) place n.now) result }
{
    match tag {
        Tag::Num(kind) => put_lone(enc, *kind, place, n, out),
        Tag::Enum(labels) => put_label(enc, labels, place, n, out),
    }
}

/// Puts the count of a list, where it travels.
#[tactic(auto, using(crate::proofs::Steps::counts))]
pub(crate) fn put_count(
    enc: Encoding,
    bound: Count,
    place: usize,
    n: usize,
    out: &mut Octets,
) -> Result<usize, NoMemory>
    requires allowed { Allows bound n }
    requires near { IsNear place out.old }
    ensures { Appends out.old out.new place (count_octets enc bound place n) result }
{
    match bound {
        Count::Exactly(_) => Ok(place),
        _ => put_lone(enc, Kind::U32, place, &(n as i128), out),
    }
}

/// Puts the length of a text, which counts the octet 0 after it, modulo 2 to the 32.
#[tactic(auto, using(crate::proofs::Steps::counts))]
fn put_ended(enc: Encoding, place: usize, n: usize, out: &mut Octets) -> Result<usize, NoMemory>
    requires few { n < 4294967296 }
    requires near { IsNear place out.old }
    ensures { Appends out.old out.new place (scalar_octets enc counted place (pos (suc n))) result }
{
    let length = if n < 4294967295 { n + 1 } else { 0 };
    put_number(enc, Kind::U32, place, &(length as i128), out)
}

/// Puts what gives the length of a text.
#[tactic(auto, using(crate::proofs::Steps::heads))]
pub(crate) fn put_text_head(
    enc: Encoding,
    bound: Count,
    place: usize,
    n: usize,
    out: &mut Octets,
) -> Result<usize, NoMemory>
    requires allowed { Allows bound n }
    requires near { IsNear place out.old }
    ensures { Appends out.old out.new place (head_octets enc (text bound) place n) result }
{
    match enc {
        Encoding::CdrBig | Encoding::CdrLittle => put_ended(enc, place, n, out),
        Encoding::Mach => put_descriptor(bound, Kind::Char, place, n, out),
        _ => put_count(enc, bound, place, n, out),
    }
}

/// Puts what gives the length of a row.
#[tactic(auto, using(crate::proofs::Steps::heads))]
pub(crate) fn put_row_head(
    enc: Encoding,
    kind: Kind,
    bound: Count,
    place: usize,
    n: usize,
    out: &mut Octets,
) -> Result<usize, NoMemory>
    requires allowed { Allows bound n }
    requires near { IsNear place out.old }
    ensures { Appends out.old out.new place (head_octets enc (row_of kind bound) place n) result }
{
    match enc {
        Encoding::Mach => put_descriptor(bound, kind, place, n, out),
        _ => put_count(enc, bound, place, n, out),
    }
}
