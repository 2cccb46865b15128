//! How rows and texts travel.
ghost use Rattle.std.specs.Prelude.{◌≡◌};
ghost use Rattle.mint.specs.Types.{row_of};
ghost use Rattle.copy_inline.specs.Sorts.{sort_of};

use mint::kind::{Count, Kind};
use wire_def::Encoding;

/// How the numbers of a row or text travel.
#[derive(Clone, Copy, Debug, PartialEq, Eq)]
pub enum Sort {
    /// As a block: the row's image, or that with the octets of each number reversed.
    Block,
    /// Each number in four octets, where the kind has fewer: XDR's block of four octets (RFC 4506
    /// section 3).
    Wide,
    /// One by one: padding comes before a first number, if there is one.
    Looped,
}

/// How a row of a kind travels. A text travels as a block over every encoding.
pub fn sort_of(enc: Encoding, kind: Kind, count: Count) -> Sort
    ensures { result ≡ sort_of enc (row_of kind count) }
{
    match enc {
        Encoding::Xdr => match kind {
            Kind::I8 | Kind::U8 | Kind::Char | Kind::I16 | Kind::U16 | Kind::Bool => Sort::Wide,
            Kind::Octet | Kind::I32 | Kind::U32 | Kind::I64 | Kind::U64 => Sort::Block,
        },
        Encoding::CdrBig | Encoding::CdrLittle => match kind {
            Kind::I64 | Kind::U64 => match count {
                Count::Exactly(_) => Sort::Block,
                Count::AtMost(_) | Count::Any => Sort::Looped,
            },
            Kind::Octet
            | Kind::I8
            | Kind::U8
            | Kind::Char
            | Kind::I16
            | Kind::U16
            | Kind::I32
            | Kind::U32
            | Kind::Bool => Sort::Block,
        },
        Encoding::Mach => match kind {
            Kind::Bool => Sort::Wide,
            Kind::Octet
            | Kind::I8
            | Kind::U8
            | Kind::Char
            | Kind::I16
            | Kind::U16
            | Kind::I32
            | Kind::U32
            | Kind::I64
            | Kind::U64 => Sort::Block,
        },
    }
}
