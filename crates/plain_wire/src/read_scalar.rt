//! Numbers and labels from octets (RFC 4506 sections 4.1 to 4.5).

ghost use Rattle.std.specs.Prelude.{◌≡◌, ◌<◌, IfOk};
ghost use Rattle.std.specs.Int.{w8, w16, w32, w64};
ghost use Rattle.mint.specs.Kinds.{IsInRange};
ghost use Rattle.mint.specs.Types.{number, label};
ghost use Rattle.wire_def.specs.Scalars.{full, number_of, read_word, read_scalar};
ghost use Rattle.wire_def.specs.Lone.{read_lone};
ghost use Rattle.plain_wire.specs.Widths.{width_in};
ghost use Rattle.plain_wire.specs.Readers.{Reads, same, itself, nothing, read_gap, read_bits, read_here};

use crate::cursor::{Cursor, Taken, stop};
use crate::read_described::{item, label_item};
use crate::widths::{Size, full_of, gap_of, has_sign, size_of};
use mint::fits::has_label;
use mint::kind::Kind;
use mint::node::Labels;
use wire_def::{Encoding, FaultKind};

/// The octets up to where a number begins.
#[tactic(auto, unfolding(crate::specs::Readers::read_gap))]
pub(crate) fn skip(n: usize, at: Cursor<'_>) -> Taken<'_, ()>
    requires { n < 8 }
    ensures { Reads nothing result (read_gap n at.entry.place at.entry.rest.now) }
{
    if at.rest.len() < n {
        return Err(stop(FaultKind::Short, at.place + n));
    }
    let (_, rest) = at.rest.split_at(n);
    let place = at.place + n;
    Ok(((), Cursor { place, rest }))
}

/// One octet.
#[tactic(auto, using(crate::proofs::Words::words))]
fn word_8(enc: Encoding, at: Cursor<'_>) -> Taken<'_, u8>
    ensures { Reads same result (read_word enc 1 w8 at.entry.place at.entry.rest.now) }
{
    if at.rest.len() < 1 {
        return Err(stop(FaultKind::Short, at.place));
    }
    let (head, rest) = at.rest.split_at(1);
    let octets = [head[0]];
    let n = match enc {
        Encoding::Xdr | Encoding::CdrBig => u8::from_be_bytes(octets),
        _ => u8::from_le_bytes(octets),
    };
    let place = at.place + 1;
    Ok((n, Cursor { place, rest }))
}

/// Two octets.
#[tactic(auto, using(crate::proofs::Words::words))]
fn word_16(enc: Encoding, at: Cursor<'_>) -> Taken<'_, u16>
    ensures { Reads same result (read_word enc 1 w16 at.entry.place at.entry.rest.now) }
{
    if at.rest.len() < 2 {
        return Err(stop(FaultKind::Short, at.place));
    }
    let (head, rest) = at.rest.split_at(2);
    let octets = [head[0], head[1]];
    let n = match enc {
        Encoding::Xdr | Encoding::CdrBig => u16::from_be_bytes(octets),
        _ => u16::from_le_bytes(octets),
    };
    let place = at.place + 2;
    Ok((n, Cursor { place, rest }))
}

/// Four octets.
#[tactic(auto, using(crate::proofs::Words::words))]
pub(crate) fn word_32(enc: Encoding, at: Cursor<'_>) -> Taken<'_, u32>
    ensures { Reads same result (read_word enc 1 w32 at.entry.place at.entry.rest.now) }
{
    if at.rest.len() < 4 {
        return Err(stop(FaultKind::Short, at.place));
    }
    let (head, rest) = at.rest.split_at(4);
    let octets = [head[0], head[1], head[2], head[3]];
    let n = match enc {
        Encoding::Xdr | Encoding::CdrBig => u32::from_be_bytes(octets),
        _ => u32::from_le_bytes(octets),
    };
    let place = at.place + 4;
    Ok((n, Cursor { place, rest }))
}

/// Eight octets.
#[tactic(auto, using(crate::proofs::Words::words))]
pub(crate) fn word_64(enc: Encoding, at: Cursor<'_>) -> Taken<'_, u64>
    ensures { Reads same result (read_word enc 1 w64 at.entry.place at.entry.rest.now) }
{
    if at.rest.len() < 8 {
        return Err(stop(FaultKind::Short, at.place));
    }
    let (head, rest) = at.rest.split_at(8);
    let octets = [
        head[0], head[1], head[2], head[3], head[4], head[5], head[6], head[7],
    ];
    let n = match enc {
        Encoding::Xdr | Encoding::CdrBig => u64::from_be_bytes(octets),
        _ => u64::from_le_bytes(octets),
    };
    let place = at.place + 8;
    Ok((n, Cursor { place, rest }))
}

/// The number that the bits of a width are, in two's complement where it has a sign.
fn number_in(signed: bool, size: Size, m: u64) -> i128
    requires { m < full (width_in size) }
    ensures { result ≡ number_of signed (width_in size) m }
{
    let n = i128::from(m);
    let full = full_of(size);
    if signed && 2 * n >= full { n - full } else { n }
}

/// A number of a width.
fn bits(enc: Encoding, signed: bool, size: Size, at: Cursor<'_>) -> Taken<'_, i128>
    ensures { Reads itself result (read_bits enc signed (width_in size) at.entry.place at.entry.rest.now) }
{
    match size {
        Size::One => {
            let (m, next) = word_8(enc, at)?;
            Ok((number_in(signed, size, u64::from(m)), next))
        }
        Size::Two => {
            let (m, next) = word_16(enc, at)?;
            Ok((number_in(signed, size, u64::from(m)), next))
        }
        Size::Four => {
            let (m, next) = word_32(enc, at)?;
            Ok((number_in(signed, size, u64::from(m)), next))
        }
        Size::Eight => {
            let (m, next) = word_64(enc, at)?;
            Ok((number_in(signed, size, m), next))
        }
    }
}

/// A number of a kind, where it begins.
#[tactic(auto, using(crate::proofs::Words::kinds))]
pub(crate) fn number_here(enc: Encoding, kind: Kind, at: Cursor<'_>) -> Taken<'_, i128>
    ensures ranged { IfOk result (λ x. IsInRange kind x.0) }
    ensures read { Reads itself result (read_here enc (number kind) at.entry.place at.entry.rest.now) }
{
    let (n, next) = bits(enc, has_sign(kind), size_of(enc, kind), at)?;
    if kind.has(n) {
        Ok((n, next))
    } else {
        Err(stop(FaultKind::BadValue, at.place))
    }
}

/// A number of a kind, after its gap.
#[tactic(auto, using(crate::proofs::Words::scalars))]
pub(crate) fn number_at(enc: Encoding, kind: Kind, at: Cursor<'_>) -> Taken<'_, i128>
    ensures ranged { IfOk result (λ x. IsInRange kind x.0) }
    ensures read { Reads itself result (read_scalar enc (number kind) at.entry.place at.entry.rest.now) }
{
    let ((), there) = skip(gap_of(enc, kind, at.place), at)?;
    number_here(enc, kind, there)
}

/// A number that travels by itself.
#[tactic(auto, using(crate::proofs::Words::lones))]
pub(crate) fn lone(enc: Encoding, kind: Kind, at: Cursor<'_>) -> Taken<'_, i128>
    ensures ranged { IfOk result (λ x. IsInRange kind x.0) }
    ensures read { Reads itself result (read_lone enc (number kind) at.entry.place at.entry.rest.now) }
{
    match enc {
        Encoding::Mach => item(kind, at),
        _ => number_at(enc, kind, at),
    }
}

/// One of an enum's labels, where it begins.
#[tactic(auto, using(crate::proofs::Words::labels))]
fn label_here<'a>(enc: Encoding, labels: &Labels, at: Cursor<'a>) -> Taken<'a, i128>
    ensures { Reads itself result (read_here enc (label labels.now) at.entry.place at.entry.rest.now) }
{
    let (n, next) = bits(enc, true, Size::Four, at)?;
    if has_label(labels, n) {
        Ok((n, next))
    } else {
        Err(stop(FaultKind::BadValue, at.place))
    }
}

/// One of an enum's labels, after its gap.
#[tactic(auto, using(crate::proofs::Words::lones))]
pub(crate) fn label_at<'a>(enc: Encoding, labels: &Labels, at: Cursor<'a>) -> Taken<'a, i128>
    ensures { Reads itself result (read_scalar enc (label labels.now) at.entry.place at.entry.rest.now) }
{
    let ((), there) = skip(gap_of(enc, Kind::I32, at.place), at)?;
    label_here(enc, labels, there)
}

/// One of an enum's labels, by itself.
#[tactic(auto, using(crate::proofs::Words::lones))]
pub(crate) fn one_label<'a>(enc: Encoding, labels: &Labels, at: Cursor<'a>) -> Taken<'a, i128>
    ensures { Reads itself result (read_lone enc (label labels.now) at.entry.place at.entry.rest.now) }
{
    match enc {
        Encoding::Mach => label_item(labels, at),
        _ => label_at(enc, labels, at),
    }
}
