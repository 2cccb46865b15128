//! Numbers in items of Mach messages, and the descriptors of rows and texts, from octets.

ghost use Rattle.std.specs.Prelude.{◌≡◌, IfOk};
ghost use Rattle.mint.specs.Kinds.{IsInRange};
ghost use Rattle.mint.specs.Types.{label, number};
ghost use Rattle.wire_def.specs.declared.encoding.Encoding.TheVariants.{Mach};
ghost use Rattle.wire_def.specs.Lone.{filling, read_any, read_desc, read_lone, scalar_word};
ghost use Rattle.wire_def.specs.Described.{elements_in, has_form, is_marked, is_right, is_whole, is_fixed, read_described, read_first, read_rest, takes, widened};
ghost use Rattle.plain_wire.specs.Readers.{Reads, itself, nothing, read_many, same};

use crate::cursor::{Cursor, Taken, stop};
use crate::read_head::allows;
use crate::read_scalar::{label_at, number_at, word_32, word_64};
use crate::units::filling_of;
use mint::kind::{Count, Kind};
use mint::node::Labels;
use wire_def::descriptors::{MOST_UNITS, unit_word, units_in, word_of};
use wire_def::{Encoding, FaultKind};

/// So many octets, whatever they are.
#[tactic(auto, unfolding(wire_def::specs::Lone::read_any))]
pub(crate) fn any(n: usize, at: Cursor<'_>) -> Taken<'_, ()>
    ensures { Reads nothing result (read_any n at.entry.place at.entry.rest.now) }
{
    if at.rest.len() < n {
        return Err(stop(FaultKind::Short, at.place + at.rest.len()));
    }
    let (_, rest) = at.rest.split_at(n);
    let place = at.place + n;
    Ok(((), Cursor { place, rest }))
}

/// The descriptor of a number by itself.
#[tactic(auto, unfolding(wire_def::specs::Lone::read_desc))]
pub(crate) fn descriptor(kind: Kind, at: Cursor<'_>) -> Taken<'_, ()>
    ensures { Reads nothing result (read_desc (scalar_word (number kind)) at.entry.place at.entry.rest.now) }
{
    let (m, next) = word_32(Encoding::Mach, at)?;
    if m == word_of(kind) {
        Ok(((), next))
    } else {
        Err(stop(FaultKind::BadItem, at.place))
    }
}

/// What fills up the item of a number.
pub(crate) fn fills_up(kind: Kind, at: Cursor<'_>) -> Taken<'_, ()>
    ensures { Reads nothing result (read_any (filling (number kind)) at.entry.place at.entry.rest.now) }
{
    any(filling_of(kind), at)
}

/// The item of a number.
pub(crate) fn item(kind: Kind, at: Cursor<'_>) -> Taken<'_, i128>
    ensures ranged { IfOk result (λ x. IsInRange kind x.0) }
    ensures read { Reads itself result (read_lone Mach (number kind) at.entry.place at.entry.rest.now) }
{
    let ((), start) = descriptor(kind, at)?;
    let (n, next) = number_at(Encoding::Mach, kind, start)?;
    let ((), last) = fills_up(kind, next)?;
    Ok((n, last))
}

/// The item of one of an enum's labels.
pub(crate) fn label_item<'a>(labels: &Labels, at: Cursor<'a>) -> Taken<'a, i128>
    ensures { Reads itself result (read_lone Mach (label labels.now) at.entry.place at.entry.rest.now) }
{
    let ((), start) = descriptor(Kind::I32, at)?;
    let (n, next) = label_at(Encoding::Mach, labels, start)?;
    let ((), last) = fills_up(Kind::I32, next)?;
    Ok((n, last))
}

/// Whether a first word is of the long form.
fn marked(m: u32) -> bool
    ensures { result ≡ is_marked m }
{
    m / 268435456 == 3
}

/// Whether a row or text of a bound may have a descriptor of this form.
fn may_be(bound: Count, kind: Kind, long: bool) -> bool
    ensures { result ≡ takes bound (number kind) long }
{
    match bound {
        Count::Exactly(m) => {
            let many = u64::from(m) * u64::from(units_in(kind));
            if long {
                many > MOST_UNITS
            } else {
                many <= MOST_UNITS
            }
        }
        Count::AtMost(_) | Count::Any => true,
    }
}

/// Whether a first word is of a form that may be there.
fn formed(bound: Count, kind: Kind, m: u32) -> bool
    ensures { result ≡ has_form bound (number kind) m }
{
    if marked(m) {
        may_be(bound, kind, true)
    } else {
        m / 268435456 == 1 && may_be(bound, kind, false)
    }
}

/// The first word of a descriptor.
#[tactic(auto, unfolding(wire_def::specs::Described::read_first))]
fn first(bound: Count, kind: Kind, at: Cursor<'_>) -> Taken<'_, u32>
    ensures { Reads same result (read_first bound (number kind) at.entry.place at.entry.rest.now) }
{
    let (m, next) = word_32(Encoding::Mach, at)?;
    if formed(bound, kind, m) {
        Ok((m, next))
    } else {
        Err(stop(FaultKind::BadItem, at.place))
    }
}

/// What a short descriptor says, as the long form has it.
fn widely(m: u32) -> u64
    ensures { result ≡ widened m }
{
    let (name, bits, many) = (m % 256, m / 256 % 256, m / 65536 % 4096);
    u64::from(name) + 65536 * u64::from(bits) + 4294967296 * u64::from(many)
}

/// What a descriptor says: the 8 octets after the first word of a long one. Where they are cut off,
/// the place of the fault is that of the first word.
#[tactic(auto, unfolding(wire_def::specs::Described::read_rest, wire_def::specs::Described::reported_before))]
fn said(m: u32, at: Cursor<'_>) -> Taken<'_, u64>
    ensures { Reads same result (read_rest m at.entry.place at.entry.rest.now) }
{
    if !marked(m) {
        return Ok((widely(m), at));
    }
    match word_64(Encoding::Mach, at) {
        Ok(read) => Ok(read),
        Err(fault) => Err(stop(fault.kind, at.place.saturating_sub(4))),
    }
}

/// Whether so many units are whole numbers of a kind.
fn whole(kind: Kind, units: u64) -> bool
    ensures { result ≡ is_whole (number kind) units }
{
    match kind {
        Kind::I64 | Kind::U64 => units % 2 == 0,
        _ => true,
    }
}

/// Whether so many units are those of a fixed length, where there is one.
fn fixed(bound: Count, kind: Kind, units: u64) -> bool
    ensures { result ≡ is_fixed bound (number kind) units }
{
    match bound {
        Count::Exactly(m) => units == u64::from(m) * u64::from(units_in(kind)),
        Count::AtMost(_) | Count::Any => true,
    }
}

/// Whether a descriptor says the name and bits of a kind, and a number of units that may be there.
fn right(bound: Count, kind: Kind, words: u64) -> bool
    ensures { result ≡ is_right bound (number kind) words }
{
    let units = words / 4294967296;
    words % 4294967296 == u64::from(unit_word(kind))
        && (whole(kind, units) && fixed(bound, kind, units))
}

/// How many numbers of a kind so many units are.
fn numbers_in(kind: Kind, units: u64) -> usize
    ensures { result ≡ elements_in (number kind) units }
{
    match kind {
        Kind::I64 | Kind::U64 => units as usize / 2,
        _ => units as usize,
    }
}

/// How many numbers a descriptor says that there are, whatever the bound.
fn many(bound: Count, kind: Kind, at: Cursor<'_>) -> Taken<'_, usize>
    ensures { Reads same result (read_many bound (number kind) at.entry.place at.entry.rest.now) }
{
    let (m, next) = first(bound, kind, at)?;
    let (words, last) = said(m, next)?;
    if right(bound, kind, words) {
        Ok((numbers_in(kind, words / 4294967296), last))
    } else {
        Err(stop(FaultKind::BadItem, at.place))
    }
}

/// The descriptor of a row or text, which gives its length.
#[tactic(auto, unfolding(wire_def::specs::Described::read_described))]
pub(crate) fn described(bound: Count, kind: Kind, at: Cursor<'_>) -> Taken<'_, usize>
    ensures { Reads same result (read_described bound (number kind) at.entry.place at.entry.rest.now) }
{
    let (n, next) = many(bound, kind, at)?;
    if allows(bound, n) {
        Ok((n, next))
    } else {
        Err(stop(FaultKind::OverBound, at.place))
    }
}
