//! The octets of a chunk, each of one put.

ghost use Rattle.std.specs.Prelude.{◌≡◌, ◌+◌, false, ◌<◌, ◌≤◌, ◌^◌, true, Some, IfOk, replicate, slice_get, vec_len, None};
ghost use Rattle.cast_stub.specs.Parts.{on_some};
ghost use Rattle.cast_stub.specs.Puts.{offset};
ghost use Rattle.stub_flat.specs.Items.{cells, piece, put_on, puts_on};
ghost use Rattle.stub_compare.specs.CompareCells.{is_turned, laid, laid_one, lengths, owners, plus, put_length, seen, wide};
ghost use Rattle.stub_compare.specs.CompareText.{cells_text};
ghost use Rattle.stub_compare.specs.CompareTold.{IsPut, IsTold};

use crate::compare_octets::{Place, is_big, put_places, turned_at};
use crate::compare_text::Numbers;
use cast_stub::{Put, Puts};
use kit_base::NoMemory;
use std::alloc::Global;
use stub_places::is_width;

// ---- puts

fn wide(width: u32) -> Option<u128>
    ensures { result ≡ wide width }
{
    if is_width(width) {
        Some(u128::from(width))
    } else {
        None
    }
}

/// How many octets a put has.
fn put_length(put: &Put) -> Option<u128>
    ensures { result ≡ put_length put.now }
{
    match put {
        Put::Num(_, _, width, _) => wide(*width),
        Put::Tag(_, _, width, _) => wide(*width),
        Put::Flag(_, _, width, _) => wide(*width),
        Put::Count(_, _, _, _, width, _) => wide(*width),
        Put::Short(_, _, _, _, _) => Some(4),
        Put::Const(_, octets) => Some(octets.len()),
        Put::Head(_, _, width, _) => wide(*width),
    }
}

fn plus(a: Option<u128>, b: Option<u128>) -> Result<Option<u128>, NoMemory>
    ensures { IfOk result (λ n. n ≡ plus a b) }
{
    let Some(a) = a else {
        return Ok(None);
    };
    let Some(b) = b else {
        return Ok(None);
    };
    match a.checked_add(b) {
        Some(sum) => Ok(Some(sum)),
        None => Err(NoMemory),
    }
}

/// How many octets puts have.
fn lengths(puts: &Puts) -> Result<Option<u128>, NoMemory>
    ensures { IfOk result (λ n. n ≡ lengths puts.now) }
{
    let mut sum = Some(0);
    for put in puts.as_slice() {
        sum = plus(sum, put_length(put))?;
    }
    Ok(sum)
}

/// Whether the most significant octet of a put comes first.
fn is_turned(put: &Put) -> bool
    ensures { result ≡ is_turned put.now }
{
    match put {
        Put::Num(_, _, _, order) => is_big(*order),
        Put::Tag(_, _, _, order) => is_big(*order),
        Put::Flag(_, _, _, order) => is_big(*order),
        Put::Count(_, _, _, _, _, order) => is_big(*order),
        Put::Short(_, _, _, _, _) => false,
        Put::Const(_, _) => false,
        Put::Head(_, _, _, order) => is_big(*order),
    }
}

/// The place of a put in its chunk.
fn offset(put: &Put) -> u32
    ensures { result ≡ offset put.now }
{
    match put {
        Put::Num(off, _, _, _) => *off,
        Put::Tag(off, _, _, _) => *off,
        Put::Flag(off, _, _, _) => *off,
        Put::Count(off, _, _, _, _, _) => *off,
        Put::Short(off, _, _, _, _) => *off,
        Put::Const(off, _) => *off,
        Put::Head(off, _, _, _) => *off,
    }
}

// ---- places

/// Whether so many places from one on go beyond the last.
fn is_outside(at: usize, count: u128, len: usize) -> bool
    ensures outside { result ≡ true → len < at + count }
    ensures inside { result ≡ false → at + count ≤ len }
{
    at > len || count > (len - at) as u128
}

/// Lays an octet at a place, if that lies within and is free.
fn lay_one(places: &mut Vec<Place>, at: usize, owner: (u32, u32)) -> bool
    requires { at < vec_len places.old }
    ensures laid { IsTold result (laid_one at owner places.old.items) (λ ds. ds ≡ places.new.items) }
    ensures len { vec_len places.new ≡ vec_len places.old }
{
    match places[at] {
        Some(_) => false,
        None => {
            places[at] = Some(owner);
            true
        }
    }
}

/// Lays the octets of the put of a number, where they lie within and the places are free.
fn lay(places: &mut Vec<Place>, at: usize, count: u128, i: u32, turned: bool) -> bool
    requires { vec_len places.old < 2 ^ 32 }
    ensures laid { IsTold result (laid at (owners i turned count) places.old.items)
        (λ ds. ds ≡ places.new.items) }
    ensures len { vec_len places.new ≡ vec_len places.old }
{
    if is_outside(at, count, places.len()) {
        return false;
    }
    let count = count as usize;
    for j in 0..count {
        let owner = (i, turned_at(turned, count, j) as u32);
        if !lay_one(places, at + j, owner) {
            return false;
        }
    }
    true
}

/// Lays the octets of a put.
fn lay_put(places: &mut Vec<Place>, puts: &Puts, put: &Put, i: u32) -> bool
    requires small { vec_len places.old < 2 ^ 32 }
    requires put { slice_get puts.now i ≡ Some put.now }
    ensures laid { IsTold result
        (on_some (piece put.now) (λ os. put_on (offset put.now) os (seen puts.now places.old.items)))
        (λ ds. ds ≡ seen puts.now places.new.items) }
    ensures len { vec_len places.new ≡ vec_len places.old }
{
    match put_length(put) {
        Some(count) => lay(places, offset(put) as usize, count, i, is_turned(put)),
        None => false,
    }
}

/// Places of which none is put.
fn free(alloc: Global, size: u32) -> Result<Vec<Place>, NoMemory>
    ensures { IfOk result (λ v. v.items ≡ replicate size None) }
{
    let mut places = Vec::with_capacity(alloc, size as usize)?;
    while places.len() < size as usize {
        places.push(None)?;
    }
    Ok(places)
}

fn number_of(i: usize) -> Result<u32, NoMemory>
    ensures { IfOk result (λ n. n ≡ i) }
{
    if i < 4294967296 {
        Ok(i as u32)
    } else {
        Err(NoMemory)
    }
}

/// Lays the octets of all puts.
fn lay_all(places: &mut Vec<Place>, puts: &Puts) -> Result<bool, NoMemory>
    requires { vec_len places.old < 2 ^ 32 }
    ensures { IfOk result (λ told. IsTold told (puts_on puts.now (seen puts.now places.old.items))
        (λ ds. ds ≡ seen puts.now places.new.items)) }
{
    for (i, put) in puts.as_slice().iter().enumerate() {
        let number = number_of(i)?;
        if !lay_put(places, puts, put, number) {
            return Ok(false);
        }
    }
    Ok(true)
}

// ---- a chunk

fn is_just(n: Option<u128>, size: u32) -> bool
    ensures just { result ≡ true → n ≡ Some size }
    ensures other { result ≡ false → n ≡ Some size → ⊥ }
{
    match n {
        Some(m) => m == u128::from(size),
        None => false,
    }
}

/// Puts the octets of a chunk, if each is of one put.
pub(crate) fn put_cells(
    alloc: Global,
    size: u32,
    puts: &Puts,
    out: &mut Numbers,
) -> Result<bool, NoMemory>
    ensures { IfOk result (λ told. IsTold told (cells size puts.now)
        (λ os. IsPut out.old (cells_text os) out.new)) }
{
    let total = lengths(puts)?;
    if !is_just(total, size) {
        return Ok(false);
    }
    let mut places = free(alloc, size)?;
    let laid = lay_all(&mut places, puts)?;
    if !laid {
        return Ok(false);
    }
    put_places(out, puts, places.as_slice())
}
