//! The octets of puts as numbers.

ghost use Rattle.std.specs.Prelude.{◌≡◌, option_map, ◌<◌, ◌∷◌, true, IfOk, OnOk, replicate, slice_index, []};
ghost use Rattle.cast_stub.specs.Steps.{is_width};
ghost use Rattle.stub_flat.specs.Items.{all_put, fixed, part, num, ordered};
ghost use Rattle.stub_compare.specs.CompareCells.{cell_of, is_big, owned, seen, turned_at};
ghost use Rattle.stub_compare.specs.CompareText.{cell_text, cells_text};
ghost use Rattle.stub_compare.specs.CompareTold.{IsPut, IsTold};

use crate::compare_text::{Numbers, field_number, put_number, put_over};
use cast_stub::{Constant, Put, Puts};
use kit_base::NoMemory;
use wire_def::Order;

/// A place of a chunk: the number of a put, and which of its octets.
pub(crate) type Place = Option<(u32, u32)>;

/// Whether the most significant octet comes first.
pub(crate) fn is_big(order: Order) -> bool
    ensures { result ≡ is_big order }
{
    match order {
        Order::Big => true,
        Order::Little => false,
    }
}

/// Which octet stands at a place of so many.
pub(crate) fn turned_at(turned: bool, count: usize, j: usize) -> usize
    requires { j < count }
    ensures value { result ≡ turned_at turned count j }
    ensures below { result < count }
{
    if turned { count - 1 - j } else { j }
}

/// Puts a part of a number of a kind, without its source.
fn put_part(out: &mut Numbers, k: u32) -> Result<(), NoMemory>
    ensures { OnOk result (IsPut out.old (λ rest. 7 ∷ (k ∷ rest)) out.new) }
{
    put_number(out, 7)?;
    put_number(out, k)
}

/// Puts an octet of a put.
fn put_octet(out: &mut Numbers, put: &Put, k: u32) -> Result<(), NoMemory>
    ensures { OnOk result (IsPut out.old (cell_text (cell_of put.now k)) out.new) }
{
    match put {
        Put::Num(_, path, _, _) => {
            put_part(out, k)?;
            put_over(out, 0, path)
        }
        Put::Tag(_, path, _, _) => {
            put_part(out, k)?;
            put_over(out, 1, path)
        }
        Put::Flag(_, path, _, _) => {
            put_part(out, k)?;
            put_over(out, 2, path)
        }
        Put::Count(_, path, factor, summand, _, _) => {
            put_part(out, k)?;
            put_over(out, 3, path)?;
            put_number(out, *factor)?;
            put_number(out, *summand)
        }
        Put::Short(_, path, name, size, factor) => {
            put_part(out, k)?;
            put_over(out, 4, path)?;
            put_number(out, *name)?;
            put_number(out, *size)?;
            put_number(out, *factor)
        }
        Put::Const(_, octets) => put_number(out, octet_in(octets, k as usize) + 8),
        Put::Head(_, field, _, _) => {
            put_part(out, k)?;
            put_number(out, 5)?;
            put_number(out, field_number(*field))
        }
    }
}

/// The octet at a place, 0 behind the last.
fn octet_at(octets: &[u8], k: usize) -> u32
    ensures value { result ≡ slice_index octets.now k }
    ensures most { result < 256 }
{
    match octets.get(k) {
        Some(octet) => u32::from(*octet),
        None => 0,
    }
}

/// The octet of a constant at a place, 0 behind the last.
fn octet_in(octets: &Constant, k: usize) -> u32
    ensures value { result ≡ slice_index octets.now k }
    ensures most { result < 256 }
{
    let (front, piece, rest) = octets.pieces();
    if k < front.len() {
        octet_at(front, k)
    } else if k - front.len() < piece.len() {
        octet_at(piece, k - front.len())
    } else {
        octet_at(rest, k - front.len() - piece.len())
    }
}

/// Puts the octet of an owner.
fn put_owned(out: &mut Numbers, puts: &Puts, owner: (u32, u32)) -> Result<(), NoMemory>
    ensures { OnOk result (IsPut out.old (cell_text (owned puts.now owner)) out.new) }
{
    match puts.get(owner.0 as usize) {
        Some(put) => put_octet(out, put, owner.1),
        None => put_number(out, 8),
    }
}

/// Puts the octet of a place, if it has one.
fn put_place(out: &mut Numbers, puts: &Puts, place: Place) -> Result<bool, NoMemory>
    ensures { IfOk result (λ told. IsTold told (option_map (owned puts.now) place)
        (λ c. IsPut out.old (cell_text c) out.new)) }
{
    match place {
        Some(owner) => {
            put_owned(out, puts, owner)?;
            Ok(true)
        }
        None => Ok(false),
    }
}

/// Puts the octets of places, if each has one.
pub(crate) fn put_places(out: &mut Numbers, puts: &Puts, places: &[Place]) -> Result<bool, NoMemory>
    ensures { IfOk result (λ told. IsTold told (all_put (seen puts.now places.now))
        (λ os. IsPut out.old (cells_text os) out.new)) }
{
    for place in places {
        let told = put_place(out, puts, *place)?;
        if !told {
            return Ok(false);
        }
    }
    Ok(true)
}

/// Puts so many zeros.
pub(crate) fn put_zeros(out: &mut Numbers, n: usize) -> Result<(), NoMemory>
    ensures { OnOk result (IsPut out.old (cells_text (replicate n (fixed 0))) out.new) }
{
    let mut left = n;
    while left > 0 {
        put_number(out, 8)?;
        left -= 1;
    }
    Ok(())
}

/// Puts an octet of a number that is itself the value.
fn put_own(out: &mut Numbers, k: u32) -> Result<(), NoMemory>
    ensures { OnOk result (IsPut out.old (cell_text (part (num []) k)) out.new) }
{
    put_part(out, k)?;
    put_number(out, 0)?;
    put_number(out, 0)
}

/// Puts the octets of a number that is itself the value.
pub(crate) fn put_itself(out: &mut Numbers, width: u32, order: Order) -> Result<(), NoMemory>
    requires { is_width width ≡ true }
    ensures { OnOk result (IsPut out.old (cells_text (ordered (num []) width order)) out.new) }
{
    let count = width as usize;
    let turned = is_big(order);
    for j in 0..count {
        put_own(out, turned_at(turned, count, j) as u32)?;
    }
    Ok(())
}
