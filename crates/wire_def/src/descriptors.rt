//! What the descriptors of Mach messages say of a kind of number.

ghost use Rattle.std.specs.Prelude.{◌≡◌, ◌<◌, ◌≤◌};
ghost use Rattle.mint.specs.Types.{number};
ghost use Rattle.wire_def.specs.Lone.{scalar_word, short_word, unit_bits, unit_name, units_of};
ghost use Rattle.wire_def.specs.Described.{is_long, long_words, most_units};

use mint::kind::{Count, Kind};

/// The units of the longest array with a short descriptor.
pub const MOST_UNITS: u64 = 4_095;

/// The name of a kind's units.
pub fn name_of(kind: Kind) -> u32
    ensures is { result ≡ unit_name (number kind) }
    ensures few { result < 256 }
{
    match kind {
        Kind::Octet | Kind::I8 | Kind::U8 => 9,
        Kind::Char => 8,
        Kind::I16 | Kind::U16 => 1,
        _ => 2,
    }
}

/// How many bits a unit of a kind has.
pub fn bits_of(kind: Kind) -> u32
    ensures is { result ≡ unit_bits (number kind) }
    ensures few { result < 256 }
{
    match kind {
        Kind::Octet | Kind::I8 | Kind::U8 | Kind::Char => 8,
        Kind::I16 | Kind::U16 => 16,
        _ => 32,
    }
}

/// How many units a number of a kind has.
pub fn units_in(kind: Kind) -> u32
    ensures is { result ≡ units_of (number kind) }
    ensures few { result ≤ 2 }
{
    match kind {
        Kind::I64 | Kind::U64 => 2,
        _ => 1,
    }
}

/// The short descriptor of so many units.
pub fn short_of(kind: Kind, many: u32) -> u32
    requires { many ≤ most_units }
    ensures { result ≡ short_word (unit_name (number kind)) (unit_bits (number kind)) many }
{
    name_of(kind) + 256 * bits_of(kind) + 65536 * many + 268435456
}

/// The descriptor of a number by itself.
pub fn word_of(kind: Kind) -> u32
    ensures { result ≡ scalar_word (number kind) }
{
    short_of(kind, units_in(kind))
}

/// Name and bits, as a long descriptor has them.
pub fn unit_word(kind: Kind) -> u32
    ensures { result ≡ long_words (unit_name (number kind)) (unit_bits (number kind)) 0 }
{
    name_of(kind) + 65536 * bits_of(kind)
}

/// Whether a row or text with this bound has a long descriptor.
pub fn has_long(bound: Count, kind: Kind) -> bool
    ensures { result ≡ is_long bound (number kind) }
{
    match bound {
        Count::Exactly(m) | Count::AtMost(m) => u64::from(m) * u64::from(units_in(kind))
            > MOST_UNITS,
        Count::Any => true,
    }
}
