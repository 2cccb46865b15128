//! The chunk that is open behind the operations that are made.

ghost use Rattle.std.specs.Prelude.{◌≡◌, OnOk, true};
ghost use Rattle.cast_stub.specs.Block.{Block, chunk, align, code_seen};
ghost use Rattle.cast_stub.specs.Append.{append};
ghost use Rattle.chunker.specs.Chunked.{chunk_of};
ghost use Rattle.chunker.specs.Makes.{Closes, Grows, Places, Takes};
ghost use Rattle.chunker.specs.Phases.{IsPhase};

use crate::joining::{join_puts, move_puts, put_zeros};
use crate::phase::{Phase, at_multiple, gap, is_known, is_width, shift};
use cast_stub::{Puts, SendOp, SendOps};
use kit_base::NoMemory;
use std::alloc::Global;

/// Operations that are made, what is known of the place behind the open chunk, and that chunk.
#[derive(Drop)]
pub(crate) struct Run {
    /// The operations.
    pub out: SendOps,
    /// What is known of the place behind the open chunk.
    pub phase: Phase,
    /// The size of the open chunk.
    pub size: u32,
    /// Its puts.
    pub puts: Puts,
}

/// Puts a chunk, if it has a put.
fn put_open(size: u32, puts: Puts, out: &mut SendOps) -> Result<(), NoMemory>
    ensures { OnOk result
        ((r : Block) → append (code_seen out.new) r ≡ append (code_seen out.old) (chunk_of size puts r)) }
{
    if puts.len() == 0 {
        return Ok(());
    }
    out.push(SendOp::Chunk(size, puts))?;
    Ok(())
}

/// Ends the open chunk.
pub(crate) fn close(alloc: Global, run: &mut Run) -> Result<(), NoMemory>
    ensures { OnOk result (Closes run.old run.new) }
{
    if run.puts.len() == 0 {
        run.size = 0;
        return Ok(());
    }
    let puts = std::mem::replace(&mut run.puts, Puts::new(alloc));
    let joined = join_puts(alloc, puts)?;
    put_open(run.size, joined, &mut run.out)?;
    run.size = 0;
    Ok(())
}

/// Puts an operation behind the open chunk, with what is known behind it.
pub(crate) fn put_other(
    alloc: Global,
    op: SendOp,
    phase: Phase,
    run: &mut Run,
) -> Result<(), NoMemory>
    requires phase { IsPhase phase }
    ensures { OnOk result (Places op phase run.old run.new) }
{
    close(alloc, run)?;
    run.out.push(op)?;
    run.phase = phase;
    Ok(())
}

/// So many octets more of the open chunk.
fn grow(octets: u32, run: &mut Run) -> Result<(), NoMemory>
    requires phase { IsPhase run.old.phase }
    ensures { OnOk result (Grows octets run.old run.new) }
{
    match run.size.checked_add(octets) {
        Some(size) => {
            run.size = size;
            run.phase = shift(run.phase, octets);
            Ok(())
        }
        None => Err(NoMemory),
    }
}

/// Puts a chunk.
pub(crate) fn put_chunk(alloc: Global, size: u32, puts: Puts, run: &mut Run) -> Result<(), NoMemory>
    requires phase { IsPhase run.old.phase }
    ensures { OnOk result (Takes (chunk size puts) run.old run.new) }
{
    move_puts(alloc, run.size, puts, &mut run.puts)?;
    grow(size, run)
}

/// Puts zeros up to a multiple.
pub(crate) fn put_align(alloc: Global, a: u32, run: &mut Run) -> Result<(), NoMemory>
    requires phase { IsPhase run.old.phase }
    ensures { OnOk result (Takes (align a) run.old run.new) }
{
    if !is_width(a) {
        return Ok(());
    }
    if is_known(run.phase, a) {
        let many = gap(run.phase.r, a);
        put_zeros(alloc, run.size, many, &mut run.puts)?;
        return grow(many, run);
    }
    put_other(alloc, SendOp::Align(a), at_multiple(a), run)
}
