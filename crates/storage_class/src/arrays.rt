//! Spans of texts, rows and lists.
ghost use Rattle.std.specs.Prelude.{◌≡◌, ◌+◌, ◌<◌};
ghost use Rattle.mint.specs.Types.{text, row_of};
ghost use Rattle.wire_def.specs.declared.encoding.Encoding.TheVariants.{CdrBig};
ghost use Rattle.wire_def.specs.Scalars.{gap};
ghost use Rattle.storage_class.specs.Classing.{exactly, from_each};
ghost use Rattle.storage_class.specs.Spans.{array_span, described_length, array_length, array_most, element_length, elements_length, items_span};

use crate::scalars::number_span;
use crate::span::{Span, at_most, exactly};
use mint::kind::{Count, Kind};
use wire_def::Encoding;
use wire_def::descriptors::has_long;

/// How many octets an element of a row has.
#[tactic(auto, using(crate::proofs::Eights::arrays))]
fn element(enc: Encoding, kind: Kind, _count: Count) -> u64
    ensures is { result ≡ element_length enc (row_of kind _count) }
    ensures few { result < 9 }
{
    match enc {
        Encoding::Xdr => match kind {
            Kind::I64 | Kind::U64 => 8,
            Kind::Octet => 1,
            _ => 4,
        },
        Encoding::Mach => match kind {
            Kind::I64 | Kind::U64 => 8,
            Kind::I32 | Kind::U32 | Kind::Bool => 4,
            Kind::I16 | Kind::U16 => 2,
            _ => 1,
        },
        Encoding::CdrBig | Encoding::CdrLittle => match kind {
            Kind::I64 | Kind::U64 => 8,
            Kind::I32 | Kind::U32 => 4,
            Kind::I16 | Kind::U16 => 2,
            _ => 1,
        },
    }
}

/// How many octets n elements of a row have, with those after them.
#[tactic(auto, using(crate::proofs::Eights::arrays))]
fn elements(enc: Encoding, kind: Kind, count: Count, n: u32) -> u64
    ensures is { result ≡ elements_length enc (row_of kind count) n }
    ensures few { result < 34359738376 }
{
    let n = u64::from(n);
    match enc {
        Encoding::Xdr => match kind {
            Kind::Octet => (n + 3) / 4 * 4,
            _ => n * element(enc, kind, count),
        },
        Encoding::Mach => match kind {
            Kind::I64 | Kind::U64 => n * 8,
            Kind::I32 | Kind::U32 | Kind::Bool => n * 4,
            Kind::I16 | Kind::U16 => (n * 2 + 3) / 4 * 4,
            _ => (n + 3) / 4 * 4,
        },
        Encoding::CdrBig | Encoding::CdrLittle => n * element(enc, kind, count),
    }
}

/// The octets of a row's descriptor in Mach messages.
fn descriptor(kind: Kind, count: Count) -> u64
    ensures is { result ≡ described_length (row_of kind count) }
    ensures few { result < 13 }
{
    if has_long(count, kind) { 12 } else { 4 }
}

/// How many octets come before a row's first element over CDR, from a position modulo 8.
#[tactic(auto, using(crate::proofs::Eights::arrays))]
fn gap_before(kind: Kind, _count: Count, place: u64) -> u64
    requires { place < 8 }
    ensures is { result ≡ gap place (element_length CdrBig (row_of kind _count)) }
    ensures few { result < 8 }
{
    match kind {
        Kind::I64 | Kind::U64 => (8 - place % 8) % 8,
        Kind::I32 | Kind::U32 => (4 - place % 4) % 4,
        Kind::I16 | Kind::U16 => (2 - place % 2) % 2,
        _ => 0,
    }
}

/// How many octets a row of a fixed length has, from a position modulo 8.
#[tactic(auto, using(crate::proofs::Eights::arrays))]
fn row_at(enc: Encoding, kind: Kind, count: Count, n: u32, place: u64) -> u64
    requires eighth { place < 8 }
    ensures { result ≡ array_length enc (row_of kind count) n place }
{
    let all = elements(enc, kind, count, n);
    match enc {
        Encoding::Xdr => all,
        Encoding::Mach => descriptor(kind, count) + all,
        Encoding::CdrBig | Encoding::CdrLittle => {
            if n == 0 {
                all
            } else {
                gap_before(kind, count, place) + all
            }
        }
    }
}

/// The span of a row of a fixed length.
fn row_exactly(enc: Encoding, kind: Kind, count: Count, n: u32) -> Span
    ensures { result ≡ exactly (from_each (array_length enc (row_of kind count) n)) }
{
    exactly(&[
        row_at(enc, kind, count, n, 0),
        row_at(enc, kind, count, n, 1),
        row_at(enc, kind, count, n, 2),
        row_at(enc, kind, count, n, 3),
        row_at(enc, kind, count, n, 4),
        row_at(enc, kind, count, n, 5),
        row_at(enc, kind, count, n, 6),
        row_at(enc, kind, count, n, 7),
    ])
}

/// The most octets of a row of at most so many elements.
#[tactic(auto, using(crate::proofs::Eights::arrays))]
fn row_most(enc: Encoding, kind: Kind, count: Count, n: u32) -> u64
    ensures { result ≡ array_most enc (row_of kind count) n }
{
    let all = elements(enc, kind, count, n);
    match enc {
        Encoding::Xdr => 4 + all,
        Encoding::Mach => descriptor(kind, count) + all,
        Encoding::CdrBig | Encoding::CdrLittle => match kind {
            Kind::I64 | Kind::U64 => 7 + (4 + all),
            _ => 7 + (0 + all),
        },
    }
}

/// The span of a row.
#[tactic(auto, using(crate::proofs::Eights::arrays))]
pub(crate) fn row(enc: Encoding, kind: Kind, count: Count) -> Span
    ensures { result ≡ array_span enc (row_of kind count) }
{
    match count {
        Count::Exactly(n) => row_exactly(enc, kind, count, n),
        Count::AtMost(n) => at_most(row_most(enc, kind, count, n)),
        Count::Any => Span::Unbounded,
    }
}

/// How many octets a text of n octets has, with those after them and without its length.
#[tactic(auto, using(crate::proofs::Eights::arrays))]
fn letters(enc: Encoding, _count: Count, n: u32) -> u64
    ensures is { result ≡ elements_length enc (text _count) n }
    ensures few { result < 4294967304 }
{
    let n = u64::from(n);
    match enc {
        Encoding::Xdr | Encoding::Mach => (n + 3) / 4 * 4,
        Encoding::CdrBig | Encoding::CdrLittle => n + 1,
    }
}

/// The octets of a text's descriptor in Mach messages.
fn text_descriptor(count: Count) -> u64
    ensures is { result ≡ described_length (text count) }
    ensures few { result < 13 }
{
    if has_long(count, Kind::Char) { 12 } else { 4 }
}

/// The span of a text.
#[tactic(auto, using(crate::proofs::Eights::arrays))]
pub(crate) fn octets(enc: Encoding, count: Count) -> Span
    ensures { result ≡ array_span enc (text count) }
{
    match enc {
        Encoding::Xdr => match count {
            Count::Exactly(n) => exactly(&[letters(enc, count, n); 8]),
            Count::AtMost(n) => at_most(4 + letters(enc, count, n)),
            Count::Any => Span::Unbounded,
        },
        Encoding::Mach => match count {
            Count::Exactly(n) => exactly(&[text_descriptor(count) + letters(enc, count, n); 8]),
            Count::AtMost(n) => at_most(text_descriptor(count) + letters(enc, count, n)),
            Count::Any => Span::Unbounded,
        },
        Encoding::CdrBig | Encoding::CdrLittle => match count {
            Count::Exactly(n) | Count::AtMost(n) => at_most(7 + (0 + letters(enc, count, n))),
            Count::Any => Span::Unbounded,
        },
    }
}

/// The span of a list.
pub(crate) fn items(enc: Encoding, count: Count, item: Span) -> Span
    ensures { result ≡ items_span enc count item }
{
    match count {
        Count::Exactly(n) => item.times(n),
        Count::AtMost(n) => number_span(enc, Kind::U32).after(item.times_top(n)),
        Count::Any => Span::Unbounded,
    }
}
