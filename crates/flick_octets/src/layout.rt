//! How many octets a number has in a body, and how many lead to it or follow it.

use mint::kind::Kind;
use wire_def::Encoding;

/// The octets of a number of a kind.
pub(crate) fn width_of(enc: Encoding, kind: Kind) -> usize {
    let own = kind.width();
    match enc {
        Encoding::Xdr => own.max(4),
        Encoding::CdrBig | Encoding::CdrLittle => own,
        Encoding::Mach => match kind {
            Kind::Bool => 4,
            _ => own,
        },
    }
}

/// The octets from a place to the next multiple of 1, 2, 4 or 8.
pub(crate) fn to_multiple(width: usize, place: usize) -> usize {
    match width {
        2 => (2 - place % 2) % 2,
        4 => (4 - place % 4) % 4,
        8 => (8 - place % 8) % 8,
        _ => 0,
    }
}

/// The octets from a place to where a number of a width begins.
pub(crate) fn gap_of(enc: Encoding, width: usize, place: usize) -> usize {
    match enc {
        Encoding::CdrBig | Encoding::CdrLittle => to_multiple(width, place),
        Encoding::Xdr | Encoding::Mach => 0,
    }
}

/// The octets that fill up an item of so many over Mach.
pub(crate) fn filling_of(enc: Encoding, octets: usize) -> usize {
    match enc {
        Encoding::Mach => to_multiple(4, octets),
        Encoding::Xdr | Encoding::CdrBig | Encoding::CdrLittle => 0,
    }
}

/// The octets that follow so many octets of a row of a kind.
pub(crate) fn after_row(enc: Encoding, kind: Kind, octets: usize) -> usize {
    match enc {
        Encoding::Xdr => match kind {
            Kind::Octet => to_multiple(4, octets),
            _ => 0,
        },
        Encoding::CdrBig | Encoding::CdrLittle => 0,
        Encoding::Mach => to_multiple(4, octets),
    }
}
