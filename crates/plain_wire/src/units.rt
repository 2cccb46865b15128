//! Parts of Mach items and of long descriptors.

ghost use Rattle.std.specs.Prelude.{◌≡◌, ◌<◌};
ghost use Rattle.kit_base.specs.Bytes.{le};
ghost use Rattle.mint.specs.Types.{number};
ghost use Rattle.wire_def.specs.Lone.{filling, unit_bits, unit_name};
ghost use Rattle.wire_def.specs.Described.{long_words};

use mint::kind::Kind;
use wire_def::descriptors::unit_word;

/// How many octets fill up the item of a number.
pub(crate) fn filling_of(kind: Kind) -> usize
    ensures is { result ≡ filling (number kind) }
    ensures few { result < 8 }
{
    match kind {
        Kind::Octet | Kind::I8 | Kind::U8 | Kind::Char => 3,
        Kind::I16 | Kind::U16 => 2,
        _ => 0,
    }
}

/// The last 8 octets of the long descriptor of so many units, as one number.
#[tactic(auto, using(crate::proofs::Descriptors::words))]
pub(crate) fn long_of(kind: Kind, many: u128) -> u64
    ensures { le 8 result ≡ le 8 (long_words (unit_name (number kind)) (unit_bits (number kind)) many) }
{
    u64::from(unit_word(kind)) + 4294967296 * ((many % 4294967296) as u64)
}
