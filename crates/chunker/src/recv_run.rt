//! The take that is open behind the operations that are made, and the octets that are tested for it.

ghost use Rattle.std.specs.Prelude.{◌≡◌, max, OnOk};
ghost use Rattle.cast_stub.specs.RecvAppend.{append};
ghost use Rattle.cast_stub.specs.RecvBlock.{Recv, need, skip_any, skip_zero, pass, code_seen};
ghost use Rattle.chunker.specs.RecvChunked.{tested, taken};
ghost use Rattle.chunker.specs.RecvMakes.{Closes, Grows, Places, Sees, Takes};
ghost use Rattle.chunker.specs.Phases.{IsPhase};

use crate::phase::{Phase, at_multiple, gap, is_known, is_width, shift};
use crate::recv_gets::{get_unread, get_zeros, move_gets};
use cast_stub::{Gets, RecvOp, RecvOps};
use kit_base::NoMemory;
use std::alloc::Global;

/// Operations that are made, what is known of the place behind the open take, that take, and the octets that are
/// tested from its beginning on.
#[derive(Drop)]
pub(crate) struct RecvRun {
    /// The operations.
    pub out: RecvOps,
    /// What is known of the place behind the open take.
    pub phase: Phase,
    /// The size of the open take.
    pub size: u32,
    /// Its gets.
    pub gets: Gets,
    /// The octets that are tested.
    pub seen: u32,
}

/// Puts a test of octets, if there are any.
fn put_test(seen: u32, out: &mut RecvOps) -> Result<(), NoMemory>
    ensures { OnOk result
        ((r : Recv) → append (code_seen out.new) r ≡ append (code_seen out.old) (tested seen r)) }
{
    if seen == 0 {
        return Ok(());
    }
    out.push(RecvOp::Need(seen))?;
    Ok(())
}

/// Puts a take, if it passes or reads something.
fn put_open(size: u32, gets: Gets, out: &mut RecvOps) -> Result<(), NoMemory>
    ensures { OnOk result
        ((r : Recv) → append (code_seen out.new) r ≡ append (code_seen out.old) (taken size gets r)) }
{
    if size == 0 && gets.len() == 0 {
        return Ok(());
    }
    out.push(RecvOp::Take(size, gets))?;
    Ok(())
}

/// Ends the open take.
pub(crate) fn close(alloc: Global, run: &mut RecvRun) -> Result<(), NoMemory>
    ensures { OnOk result (Closes run.old run.new) }
{
    let gets = std::mem::replace(&mut run.gets, Gets::new(alloc));
    put_test(run.seen, &mut run.out)?;
    put_open(run.size, gets, &mut run.out)?;
    run.size = 0;
    run.seen = 0;
    Ok(())
}

/// Puts an operation behind the open take, with what is known behind it.
pub(crate) fn put_other(
    alloc: Global,
    op: RecvOp,
    phase: Phase,
    run: &mut RecvRun,
) -> Result<(), NoMemory>
    requires phase { IsPhase phase }
    ensures { OnOk result (Places op phase run.old run.new) }
{
    close(alloc, run)?;
    run.out.push(op)?;
    run.phase = phase;
    Ok(())
}

/// So many octets more of the open take.
fn grow(octets: u32, run: &mut RecvRun) -> Result<(), NoMemory>
    requires phase { IsPhase run.old.phase }
    ensures { OnOk result (Grows octets run.old run.new) }
{
    match run.size.checked_add(octets) {
        Some(size) => {
            run.size = size;
            run.phase = shift(run.phase, octets);
            Ok(())
        }
        None => Err(NoMemory),
    }
}

/// The greater number.
fn greatest(a: u32, b: u32) -> u32
    ensures { result ≡ max a b }
{
    if a < b { b } else { a }
}

/// So many octets are tested behind the open take.
fn see(octets: u32, run: &mut RecvRun) -> Result<(), NoMemory>
    ensures { OnOk result (Sees octets run.old run.new) }
{
    if octets == 0 {
        return Ok(());
    }
    match run.size.checked_add(octets) {
        Some(end) => {
            run.seen = greatest(run.seen, end);
            Ok(())
        }
        None => Err(NoMemory),
    }
}

/// Puts a test.
pub(crate) fn put_need(octets: u32, run: &mut RecvRun) -> Result<(), NoMemory>
    requires phase { IsPhase run.old.phase }
    ensures { OnOk result (Takes (need octets) run.old run.new) }
{
    see(octets, run)
}

/// Puts a take.
pub(crate) fn put_take(
    alloc: Global,
    size: u32,
    gets: &Gets,
    run: &mut RecvRun,
) -> Result<(), NoMemory>
    requires phase { IsPhase run.old.phase }
    ensures { OnOk result (Takes (pass size gets.now) run.old run.new) }
{
    move_gets(alloc, run.size, gets, &mut run.gets)?;
    grow(size, run)
}

/// Puts a skip of any octets up to a multiple.
pub(crate) fn put_any(alloc: Global, a: u32, run: &mut RecvRun) -> Result<(), NoMemory>
    requires phase { IsPhase run.old.phase }
    ensures { OnOk result (Takes (skip_any a) run.old run.new) }
{
    if !is_width(a) {
        return get_unread(alloc, run.size, a, &mut run.gets);
    }
    if is_known(run.phase, a) {
        let many = gap(run.phase.r, a);
        see(many, run)?;
        return grow(many, run);
    }
    put_other(alloc, RecvOp::SkipAny(a), at_multiple(a), run)
}

/// Puts a skip of zeros up to a multiple.
pub(crate) fn put_zero(alloc: Global, a: u32, run: &mut RecvRun) -> Result<(), NoMemory>
    requires phase { IsPhase run.old.phase }
    ensures { OnOk result (Takes (skip_zero a) run.old run.new) }
{
    if !is_width(a) {
        return get_unread(alloc, run.size, a, &mut run.gets);
    }
    if is_known(run.phase, a) {
        let many = gap(run.phase.r, a);
        get_zeros(alloc, run.size, many, &mut run.gets)?;
        see(many, run)?;
        return grow(many, run);
    }
    put_other(alloc, RecvOp::SkipZero(a), at_multiple(a), run)
}
