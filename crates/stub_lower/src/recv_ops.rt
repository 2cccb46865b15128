//! Code that is made operation by operation.

ghost use Rattle.std.specs.Prelude.{◌≡◌, OnOk, IfOk};
ghost use Rattle.cast_stub.specs.RecvAppend.{append};
ghost use Rattle.cast_stub.specs.RecvBlock.{finish, code_seen, need, pass};
ghost use Rattle.stub_lower.specs.RecvCodes.{call_here, take_code};

use cast_stub::recv_copying::add;
use cast_stub::{Get, Gets, Path, RecvOp, RecvOps};
use kit_base::NoMemory;
use std::alloc::Global;

/// Puts a test of so many octets and a take of them after the last operation.
#[tactic(auto, using(crate::proofs::RecvBuilding::building))]
pub(crate) fn add_test(size: u32, gets: Gets, out: &mut RecvOps) -> Result<(), NoMemory>
    ensures { OnOk result
        (code_seen out.new ≡ append (code_seen out.old) (need size (pass size gets finish))) }
{
    add(out, RecvOp::Need(size))?;
    add(out, RecvOp::Take(size, gets))
}

/// Puts a test and a take after the last operation, with one get.
#[tactic(auto, using(crate::proofs::RecvBuilding::building))]
pub(crate) fn add_take(
    alloc: Global,
    width: u32,
    get: Get,
    out: &mut RecvOps,
) -> Result<(), NoMemory>
    ensures { OnOk result (code_seen out.new ≡ append (code_seen out.old) (take_code width get)) }
{
    let mut gets = Gets::new(alloc);
    gets.push(get)?;
    add_test(width, gets, out)
}

/// A call of a node's code on the current value.
#[tactic(auto, using(crate::proofs::RecvBuilding::building))]
pub(crate) fn call_of(alloc: Global, id: u32) -> Result<RecvOps, NoMemory>
    ensures { IfOk result (λ code. code_seen code ≡ call_here id) }
{
    let mut code = RecvOps::new(alloc);
    add(&mut code, RecvOp::Call(id, Path::new(alloc)))?;
    Ok(code)
}
