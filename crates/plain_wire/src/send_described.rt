//! Numbers in items of Mach messages, and the descriptors of rows and texts, as octets.

ghost use Rattle.std.specs.Prelude.{◌≤◌, ◌++◌, replicate};
ghost use Rattle.kit_base.specs.Bytes.{le};
ghost use Rattle.mint.specs.Kinds.{Allows};
ghost use Rattle.mint.specs.Types.{number};
ghost use Rattle.mint.specs.Typed.{IsScalar};
ghost use Rattle.wire_def.specs.declared.encoding.Encoding.TheVariants.{Mach};
ghost use Rattle.wire_def.specs.Lone.{filling, lone_octets, scalar_word};
ghost use Rattle.wire_def.specs.Described.{described_octets, most_units};
ghost use Rattle.plain_wire.specs.Rows.{bare_octets};
ghost use Rattle.plain_wire.specs.Sending.{Appends, IsNear, long_octets, short_octets};

use crate::send_scalar::{put, put_bare, put_zeros};
use crate::units::{filling_of, long_of};
use kit_base::{NoMemory, Octets};
use mint::kind::{Count, Kind};
use wire_def::Encoding;
use wire_def::descriptors::{has_long, short_of, units_in, word_of};

/// The first word of a long descriptor.
const LONG_MARK: u32 = 805306368;

/// Puts four octets, the least significant first.
fn put_four(word: u32, place: usize, out: &mut Octets) -> Result<usize, NoMemory>
    requires near { IsNear place out.old }
    ensures { Appends out.old out.new place (le 4 word) result }
{
    put(place, &word.to_le_bytes(), out)
}

/// Puts eight octets, the least significant first.
fn put_eight(word: u64, place: usize, out: &mut Octets) -> Result<usize, NoMemory>
    requires near { IsNear place out.old }
    ensures { Appends out.old out.new place (le 8 word) result }
{
    put(place, &word.to_le_bytes(), out)
}

/// Puts the short descriptor of so many units.
fn put_short(kind: Kind, many: u32, place: usize, out: &mut Octets) -> Result<usize, NoMemory>
    requires few { many ≤ most_units }
    requires near { IsNear place out.old }
    ensures { Appends out.old out.new place (short_octets kind many) result }
{
    put_four(short_of(kind, many), place, out)
}

/// Puts the long descriptor of so many units.
fn put_long(kind: Kind, many: u128, place: usize, out: &mut Octets) -> Result<usize, NoMemory>
    requires near { IsNear place out.old }
    ensures { Appends out.old out.new place (long_octets kind many) result }
{
    let after = put_four(LONG_MARK, place, out)?;
    put_eight(long_of(kind, many), after, out)
}

/// Puts the descriptor of so many numbers, in the form that their bound asks for.
#[tactic(auto, using(crate::proofs::Descriptors::forms), unfolding(wire_def::specs::Described::described_octets))]
pub(crate) fn put_descriptor(
    bound: Count,
    kind: Kind,
    place: usize,
    n: usize,
    out: &mut Octets,
) -> Result<usize, NoMemory>
    requires allowed { Allows bound n }
    requires near { IsNear place out.old }
    ensures { Appends out.old out.new place (described_octets bound (number kind) n) result }
{
    let many = (n as u128) * u128::from(units_in(kind));
    if has_long(bound, kind) {
        put_long(kind, many, place, out)
    } else {
        put_short(kind, many as u32, place, out)
    }
}

/// Puts a number, and what fills its item up.
#[tactic(auto, using(crate::proofs::Steps::scalars))]
fn put_filled(kind: Kind, place: usize, n: &i128, out: &mut Octets) -> Result<usize, NoMemory>
    requires fits { IsScalar (number kind) n.now }
    requires near { IsNear place out.old }
    ensures { Appends out.old out.new place
        (bare_octets Mach kind n.now ++ replicate (filling (number kind)) 0) result }
{
    let after = put_bare(Encoding::Mach, kind, place, n, out)?;
    put_zeros(filling_of(kind), after, out)
}

/// Puts the descriptor of a number by itself.
fn put_one(kind: Kind, place: usize, out: &mut Octets) -> Result<usize, NoMemory>
    requires near { IsNear place out.old }
    ensures { Appends out.old out.new place (le 4 (scalar_word (number kind))) result }
{
    put_four(word_of(kind), place, out)
}

/// Puts a number as an item: a short descriptor, the number, and zeros up to a multiple of 4.
pub(crate) fn put_item(
    kind: Kind,
    place: usize,
    n: &i128,
    out: &mut Octets,
) -> Result<usize, NoMemory>
    requires fits { IsScalar (number kind) n.now }
    requires near { IsNear place out.old }
    ensures { Appends out.old out.new place (lone_octets Mach (number kind) place n.now) result }
{
    let after = put_one(kind, place, out)?;
    put_filled(kind, after, n, out)
}
