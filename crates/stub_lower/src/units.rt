//! What the descriptors of Mach messages say of a kind of number.

ghost use Rattle.std.specs.Prelude.{◌≡◌, ◌≤◌, IfOk};
ghost use Rattle.kit_base.specs.Bytes.{le};
ghost use Rattle.mint.specs.Types.{number};
ghost use Rattle.wire_def.specs.Lone.{scalar_word, short_word, unit_bits, unit_name};
ghost use Rattle.wire_def.specs.Described.{most_units};
ghost use Rattle.stub_lower.specs.Items.{item_rest, number_at};
ghost use Rattle.stub_lower.specs.Codes.{long_octets};

use kit_base::{NoMemory, Octets};
use mint::kind::Kind;
use std::alloc::Global;
use wire_def::Encoding;
use wire_def::descriptors::{short_of, unit_word, units_in};

/// The first word of a long descriptor.
const LONG_MARK: u32 = 805306368;

/// Where the number of a scalar by itself is in its octets.
pub(crate) fn number_at(enc: Encoding) -> u32
    ensures { result ≡ number_at enc }
{
    match enc {
        Encoding::Mach => 4,
        _ => 0,
    }
}

/// How many octets come after the descriptor of a number's item.
pub(crate) fn rest_of(kind: Kind) -> u32
    ensures is { result ≡ item_rest (number kind) }
    ensures few { result ≤ 8 }
{
    match kind {
        Kind::I64 | Kind::U64 => 8,
        _ => 4,
    }
}

/// Four octets, the least significant first.
fn octets_of(alloc: Global, word: u32) -> Result<Octets, NoMemory>
    ensures { IfOk result (λ o. o ≡ le 4 word) }
{
    let mut octets = Octets::new(alloc);
    octets.append(&word.to_le_bytes())?;
    Ok(octets)
}

/// The octets of a short descriptor of so many units.
pub(crate) fn short_octets(alloc: Global, kind: Kind, many: u32) -> Result<Octets, NoMemory>
    requires { many ≤ most_units }
    ensures { IfOk result
        (λ o. o ≡ le 4 (short_word (unit_name (number kind)) (unit_bits (number kind)) many)) }
{
    octets_of(alloc, short_of(kind, many))
}

/// The octets of a number's descriptor.
pub(crate) fn item_octets(alloc: Global, kind: Kind) -> Result<Octets, NoMemory>
    ensures { IfOk result (λ o. o ≡ le 4 (scalar_word (number kind))) }
{
    short_octets(alloc, kind, units_in(kind))
}

/// The octets of a long descriptor, but for its number.
#[tactic(auto, unfolding(crate::specs::Codes::long_octets))]
pub(crate) fn long_octets(alloc: Global, kind: Kind) -> Result<Octets, NoMemory>
    ensures { IfOk result (λ o. o ≡ long_octets (number kind)) }
{
    let mut octets = octets_of(alloc, LONG_MARK)?;
    octets.append(&unit_word(kind).to_le_bytes())?;
    Ok(octets)
}
