//! Code that is made operation by operation.

ghost use Rattle.std.specs.Prelude.{◌≡◌, [], ◌∷◌, OnOk, IfOk};
ghost use Rattle.cast_stub.specs.Append.{append};
ghost use Rattle.cast_stub.specs.Block.{stop, code_seen, chunk};
ghost use Rattle.stub_lower.specs.Codes.{call_here};

use cast_stub::copying::add;
use cast_stub::{Path, Put, Puts, SendOp, SendOps};
use kit_base::NoMemory;
use std::alloc::Global;

/// Puts a chunk after the last operation, which one put fills.
#[tactic(auto, using(crate::proofs::Building::building))]
pub(crate) fn add_chunk(
    alloc: Global,
    width: u32,
    put: Put,
    out: &mut SendOps,
) -> Result<(), NoMemory>
    ensures { OnOk result (code_seen out.new ≡ append (code_seen out.old) (chunk width (put ∷ []) stop)) }
{
    let mut puts = Puts::new(alloc);
    puts.push(put)?;
    add(out, SendOp::Chunk(width, puts))
}

/// Puts a chunk after the last operation, which two puts fill.
#[tactic(auto, using(crate::proofs::Building::building))]
pub(crate) fn add_pair(
    alloc: Global,
    width: u32,
    first: Put,
    second: Put,
    out: &mut SendOps,
) -> Result<(), NoMemory>
    ensures { OnOk result
        (code_seen out.new ≡ append (code_seen out.old) (chunk width (first ∷ second ∷ []) stop)) }
{
    let mut puts = Puts::new(alloc);
    puts.push(first)?;
    puts.push(second)?;
    add(out, SendOp::Chunk(width, puts))
}

/// A call of a node's code on the current value.
#[tactic(auto, using(crate::proofs::Building::building))]
pub(crate) fn call_of(alloc: Global, id: u32) -> Result<SendOps, NoMemory>
    ensures { IfOk result (λ code. code_seen code ≡ call_here id) }
{
    let mut code = SendOps::new(alloc);
    add(&mut code, SendOp::Call(id, Path::new(alloc)))?;
    Ok(code)
}
