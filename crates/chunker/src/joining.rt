//! Puts further on, and constants that stand behind one another as one.

ghost use Rattle.std.specs.Prelude.{◌≡◌, ◌≤◌, ◌+◌, ◌++◌, List, [], length, map, OnOk, IfOk};
ghost use Rattle.cast_stub.specs.declared.put.Put.{Put};
ghost use Rattle.chunker.specs.Chunked.{moved, zeros, with_const, consts_joined};
ghost use Rattle.chunker.specs.Joins.{Joins};

use cast_stub::{Constant, Put, Puts};
use kit_base::{NoMemory, Octets};
use std::alloc::Global;

/// The puts of an open chunk for which there is room from its first one on.
const USUAL: usize = 8;

/// So many octets further on.
pub(crate) fn further(by: u32, off: u32) -> Result<u32, NoMemory>
    ensures { IfOk result (λ n. n ≡ off + by) }
{
    match off.checked_add(by) {
        Some(n) => Ok(n),
        None => Err(NoMemory),
    }
}

/// The put so many octets further on.
fn move_put(by: u32, put: Put) -> Result<Put, NoMemory>
    ensures { IfOk result (λ p. p ≡ moved by put) }
{
    match put {
        Put::Num(off, path, width, order) => Ok(Put::Num(further(by, off)?, path, width, order)),
        Put::Tag(off, path, width, order) => Ok(Put::Tag(further(by, off)?, path, width, order)),
        Put::Flag(off, path, width, order) => Ok(Put::Flag(further(by, off)?, path, width, order)),
        Put::Count(off, path, factor, summand, width, order) => {
            let at = further(by, off)?;
            Ok(Put::Count(at, path, factor, summand, width, order))
        }
        Put::Short(off, path, name, size, factor) => {
            Ok(Put::Short(further(by, off)?, path, name, size, factor))
        }
        Put::Const(off, octets) => Ok(Put::Const(further(by, off)?, octets)),
        Put::Head(off, field, width, order) => {
            Ok(Put::Head(further(by, off)?, field, width, order))
        }
    }
}

/// Puts the puts after those of `out`, so many octets further on.
pub(crate) fn move_puts(alloc: Global, by: u32, puts: Puts, out: &mut Puts) -> Result<(), NoMemory>
    ensures { OnOk result (out.new ≡ out.old ++ map (moved by) puts) }
{
    if out.len() == 0 {
        *out = Puts::with_room(alloc, USUAL.max(puts.len()))?;
    }
    for put in puts.into_items() {
        out.push(move_put(by, put)?)?;
    }
    Ok(())
}

/// Puts so many zeros after the puts of `out`.
pub(crate) fn put_zeros(alloc: Global, at: u32, many: u32, out: &mut Puts) -> Result<(), NoMemory>
    ensures { OnOk result (out.new ≡ out.old ++ zeros at many) }
{
    let mut octets = Octets::with_room(alloc, many as usize)?;
    for _ in 0..many {
        octets.push(0)?;
    }
    put_const(at, Constant::of(alloc, octets), out)
}

/// Puts a constant after the puts of `out`, if it has octets.
fn put_const(at: u32, octets: Constant, out: &mut Puts) -> Result<(), NoMemory>
    ensures { OnOk result ((r : List Put) → out.old ++ with_const at octets r ≡ out.new ++ r) }
{
    if octets.len() == 0 {
        return Ok(());
    }
    out.push(Put::Const(at, octets))?;
    Ok(())
}

/// Whether a put is a constant.
fn is_const(put: &Put) -> bool {
    matches!(put, Put::Const(_, _))
}

/// Puts that are joined so far, and a constant behind them that may go on.
#[derive(Drop)]
pub(crate) struct Joining {
    /// The puts that are joined.
    pub out: Puts,
    /// The place of the constant.
    pub at: u32,
    /// Its octets, none where there is no constant.
    pub octets: Constant,
}

/// Puts the constant that may go on, and another one in its place.
fn put_awaited(at: u32, octets: Constant, joining: &mut Joining) -> Result<(), NoMemory>
    ensures out { OnOk result ((r : List Put)
        → joining.old.out ++ with_const joining.old.at joining.old.octets r ≡ joining.new.out ++ r) }
    ensures at { OnOk result (joining.new.at ≡ at) }
    ensures octets { OnOk result (joining.new.octets ≡ octets) }
{
    let awaited = std::mem::replace(&mut joining.octets, octets);
    put_const(joining.at, awaited, &mut joining.out)?;
    joining.at = at;
    Ok(())
}

/// Takes one more put.
fn join_put(alloc: Global, put: Put, joining: &mut Joining) -> Result<(), NoMemory>
    ensures { OnOk result (Joins put joining.old joining.new) }
{
    match put {
        Put::Const(off, octets) => {
            if off as u128 == joining.at as u128 + joining.octets.len() {
                return joining.octets.append_all(&octets);
            }
            put_awaited(off, octets, joining)
        }
        Put::Num(off, path, width, order) => {
            put_awaited(0, Constant::of(alloc, Octets::new(alloc)), joining)?;
            joining.out.push(Put::Num(off, path, width, order))
        }
        Put::Tag(off, path, width, order) => {
            put_awaited(0, Constant::of(alloc, Octets::new(alloc)), joining)?;
            joining.out.push(Put::Tag(off, path, width, order))
        }
        Put::Flag(off, path, width, order) => {
            put_awaited(0, Constant::of(alloc, Octets::new(alloc)), joining)?;
            joining.out.push(Put::Flag(off, path, width, order))
        }
        Put::Count(off, path, factor, summand, width, order) => {
            put_awaited(0, Constant::of(alloc, Octets::new(alloc)), joining)?;
            joining
                .out
                .push(Put::Count(off, path, factor, summand, width, order))
        }
        Put::Short(off, path, name, size, factor) => {
            put_awaited(0, Constant::of(alloc, Octets::new(alloc)), joining)?;
            joining.out.push(Put::Short(off, path, name, size, factor))
        }
        Put::Head(off, field, width, order) => {
            put_awaited(0, Constant::of(alloc, Octets::new(alloc)), joining)?;
            joining.out.push(Put::Head(off, field, width, order))
        }
    }
}

/// How many puts are left of these where each constant goes on behind the one before it: at most one stands before and
/// behind each other put.
fn joined_len(puts: &Puts) -> usize
    ensures { result ≤ length puts.now }
{
    let others = puts.as_slice().iter().filter(|put| !is_const(put)).count();
    puts.len().min(others.saturating_mul(2).saturating_add(1))
}

/// The puts, of which constants that stand behind one another are one.
pub(crate) fn join_puts(alloc: Global, puts: Puts) -> Result<Puts, NoMemory>
    ensures { IfOk result (λ ps. ps ≡ consts_joined 0 [] puts) }
{
    let mut joining = Joining {
        out: Puts::with_room(alloc, joined_len(&puts))?,
        at: 0,
        octets: Constant::of(alloc, Octets::new(alloc)),
    };
    for put in puts.into_items() {
        join_put(alloc, put, &mut joining)?;
    }
    put_const(joining.at, joining.octets, &mut joining.out)?;
    Ok(joining.out)
}
