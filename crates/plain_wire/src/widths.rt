//! How many octets a number has, and how many are before it.

ghost use Rattle.std.specs.Prelude.{◌≡◌, ◌<◌, pos};
ghost use Rattle.std.specs.Int.{byte_len};
ghost use Rattle.mint.specs.Types.{number, row_of, text};
ghost use Rattle.mint.specs.declared.kind.Count.{Count};
ghost use Rattle.wire_def.specs.Scalars.{full, gap, alignment_of, is_signed, width_of};
ghost use Rattle.wire_def.specs.Arrays.{trailing, ill_ended};
ghost use Rattle.plain_wire.specs.Rows.{IsWay, first_gap};
ghost use Rattle.plain_wire.specs.Widths.{width_in};

use mint::kind::Kind;
use wire_def::{Encoding, FaultKind};

/// How many octets a number has.
#[derive(Clone, Copy)]
pub(crate) enum Size {
    One,
    Two,
    Four,
    Eight,
}

/// How many octets are swapped at a time.
pub(crate) const PIECE: usize = 512;

/// How the numbers of a row travel after their gap.
#[derive(Clone, Copy)]
pub(crate) enum Way {
    /// As the image that the row is kept as.
    Copied,
    /// As that image with the octets of each number reversed.
    Swapped,
    /// Each by itself.
    Single,
}

/// How many octets a size stands for.
#[inline(always)]
pub(crate) fn octets_in(size: Size) -> usize
    ensures { result ≡ byte_len (width_in size) }
{
    match size {
        Size::One => 1,
        Size::Two => 2,
        Size::Four => 4,
        Size::Eight => 8,
    }
}

/// One more than the greatest number of so many octets.
#[inline(always)]
pub(crate) fn full_of(size: Size) -> i128
    ensures { result ≡ pos (full (width_in size)) }
{
    match size {
        Size::One => 256,
        Size::Two => 65536,
        Size::Four => 4294967296,
        Size::Eight => 18446744073709551616,
    }
}

/// The octets of a kind's numbers over an encoding.
pub(crate) fn size_of(enc: Encoding, kind: Kind) -> Size
    ensures { width_in result ≡ width_of enc (number kind) }
{
    match enc {
        Encoding::Xdr => match kind {
            Kind::I64 | Kind::U64 => Size::Eight,
            _ => Size::Four,
        },
        Encoding::Mach => match kind {
            Kind::I64 | Kind::U64 => Size::Eight,
            Kind::I32 | Kind::U32 | Kind::Bool => Size::Four,
            Kind::I16 | Kind::U16 => Size::Two,
            _ => Size::One,
        },
        _ => match kind {
            Kind::I64 | Kind::U64 => Size::Eight,
            Kind::I32 | Kind::U32 => Size::Four,
            Kind::I16 | Kind::U16 => Size::Two,
            _ => Size::One,
        },
    }
}

/// The octets from a place to where a number of a kind begins.
#[tactic(auto, using(crate::proofs::Gaps::gaps))]
pub(crate) fn gap_of(enc: Encoding, kind: Kind, place: usize) -> usize
    ensures is { result ≡ gap place (alignment_of enc (number kind)) }
    ensures few { result < 8 }
{
    match enc {
        Encoding::CdrBig | Encoding::CdrLittle => match kind {
            Kind::I64 | Kind::U64 => (8 - place % 8) % 8,
            Kind::I32 | Kind::U32 => (4 - place % 4) % 4,
            Kind::I16 | Kind::U16 => (2 - place % 2) % 2,
            _ => 0,
        },
        _ => 0,
    }
}

/// The octets from a place to where the first of so many numbers begins.
pub(crate) fn gap_before(enc: Encoding, kind: Kind, place: usize, n: usize) -> usize
    ensures is { result ≡ first_gap enc kind place n }
    ensures few { result < 8 }
{
    if n == 0 { 0 } else { gap_of(enc, kind, place) }
}

/// How a row of a kind travels.
pub(crate) fn way_of(enc: Encoding, kind: Kind) -> Way
    ensures { IsWay enc kind result }
{
    match enc {
        Encoding::Xdr => match kind {
            Kind::I32 | Kind::U32 | Kind::I64 | Kind::U64 => Way::Swapped,
            _ => Way::Single,
        },
        Encoding::CdrBig => match kind {
            Kind::Octet | Kind::I8 | Kind::U8 | Kind::Char | Kind::Bool => Way::Copied,
            _ => Way::Swapped,
        },
        Encoding::CdrLittle => Way::Copied,
        Encoding::Mach => match kind {
            Kind::Bool => Way::Single,
            _ => Way::Copied,
        },
    }
}

/// How many octets follow a row's elements.
#[tactic(auto, using(crate::proofs::Arrays::tails))]
pub(crate) fn after_row(enc: Encoding, kind: Kind, n: usize) -> usize
    ensures is { (bound : Count) → result ≡ trailing enc (row_of kind bound) n }
    ensures few { result < 8 }
{
    match enc {
        Encoding::Xdr => match kind {
            Kind::Octet => (4 - n % 4) % 4,
            _ => 0,
        },
        Encoding::Mach => match kind {
            Kind::Octet | Kind::I8 | Kind::U8 | Kind::Char => (4 - n % 4) % 4,
            Kind::I16 | Kind::U16 => n % 2 * 2,
            _ => 0,
        },
        _ => 0,
    }
}

/// How many octets follow a text.
#[tactic(auto, using(crate::proofs::Arrays::tails))]
pub(crate) fn after_text(enc: Encoding, n: usize) -> usize
    ensures is { (bound : Count) → result ≡ trailing enc (text bound) n }
    ensures few { result < 8 }
{
    match enc {
        Encoding::Xdr | Encoding::Mach => (4 - n % 4) % 4,
        _ => 1,
    }
}

/// The kind of fault where an octet after an array's elements is not 0.
pub(crate) fn fault_after(enc: Encoding) -> FaultKind
    ensures { result ≡ ill_ended enc }
{
    match enc {
        Encoding::Xdr => FaultKind::BadPad,
        _ => FaultKind::BadText,
    }
}

/// Whether the numbers of a kind are in two's complement.
pub(crate) fn has_sign(kind: Kind) -> bool
    ensures { result ≡ is_signed (number kind) }
{
    match kind {
        Kind::I8 | Kind::I16 | Kind::I32 | Kind::I64 => true,
        _ => false,
    }
}
