//! Spans of scalars.

ghost use Rattle.std.specs.Prelude.{◌≡◌};
ghost use Rattle.mint.specs.Types.{number, label, scalar_of};
ghost use Rattle.storage_class.specs.Spans.{scalar_span};

use crate::span::Span;
use mint::kind::Kind;
use mint::node::{Labels, Tag};
use wire_def::Encoding;

/// The span of a number of a kind.
#[tactic(auto, using(crate::proofs::Eights::scalars))]
pub(crate) fn number_span(enc: Encoding, kind: Kind) -> Span
    ensures { result ≡ scalar_span enc (number kind) }
{
    match enc {
        Encoding::Xdr => match kind {
            Kind::I64 | Kind::U64 => Span::Fixed([8; 8]),
            _ => Span::Fixed([4; 8]),
        },
        Encoding::Mach => match kind {
            Kind::I64 | Kind::U64 => Span::Fixed([12; 8]),
            _ => Span::Fixed([8; 8]),
        },
        Encoding::CdrBig | Encoding::CdrLittle => match kind {
            Kind::I64 | Kind::U64 => Span::Fixed([8, 15, 14, 13, 12, 11, 10, 9]),
            Kind::I32 | Kind::U32 => Span::Fixed([4, 7, 6, 5, 4, 7, 6, 5]),
            Kind::I16 | Kind::U16 => Span::Fixed([2, 3, 2, 3, 2, 3, 2, 3]),
            _ => Span::Fixed([1; 8]),
        },
    }
}

/// The span of an enum's label.
#[tactic(auto, using(crate::proofs::Eights::scalars))]
pub(crate) fn label_span(enc: Encoding, _labels: &Labels) -> Span
    ensures { result ≡ scalar_span enc (label _labels.now) }
{
    number_span(enc, Kind::I32)
}

/// The span of a tag.
pub(crate) fn tag_span(enc: Encoding, tag: &Tag) -> Span
    ensures { result ≡ scalar_span enc (scalar_of tag.now) }
{
    match tag {
        Tag::Num(kind) => number_span(enc, *kind),
        Tag::Enum(labels) => label_span(enc, labels),
    }
}
