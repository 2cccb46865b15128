//! Copies of what operations that receive hold, for a part of the value; and operations put one
//! after the other.

ghost use Rattle.std.specs.Prelude.{◌≡◌, map, OnOk, IfOk};
ghost use Rattle.cast_stub.specs.RecvAppend.{append, get_rebased};
ghost use Rattle.cast_stub.specs.RecvBlock.{finish, op_seen, code_seen};

use crate::copying::{copy_octets, path_after};
use crate::put::Path;
use crate::recv::{Get, Gets, RecvOp, RecvOps};
use kit_base::NoMemory;
use std::alloc::Global;

/// The get for the whole, of a get for the part at the prefix.
fn get_after(alloc: Global, prefix: &Path, get: &Get) -> Result<Get, NoMemory>
    ensures { IfOk result (λ p. p ≡ get_rebased prefix.now get.now) }
{
    match get {
        Get::Num(off, path, width, order) => {
            Ok(Get::Num(*off, path_after(alloc, prefix, path)?, *width, *order))
        }
        Get::Tag(off, path, width, order) => {
            Ok(Get::Tag(*off, path_after(alloc, prefix, path)?, *width, *order))
        }
        Get::Flag(off, path, width, order) => {
            Ok(Get::Flag(*off, path_after(alloc, prefix, path)?, *width, *order))
        }
        Get::Count(off, path, factor, summand, width, order) => {
            Ok(Get::Count(
                *off,
                path_after(alloc, prefix, path)?,
                *factor,
                *summand,
                *width,
                *order,
            ))
        }
        Get::Const(off, octets) => Ok(Get::Const(*off, copy_octets(alloc, octets)?)),
    }
}

/// The gets for the whole, of gets for the part at the prefix.
pub fn gets_after(alloc: Global, prefix: &Path, gets: &Gets) -> Result<Gets, NoMemory>
    ensures { IfOk result (λ ps. ps ≡ map (get_rebased prefix.now) gets.now) }
{
    let mut copy = Gets::new(alloc);
    for get in gets.as_slice() {
        copy.push(get_after(alloc, prefix, get)?)?;
    }
    Ok(copy)
}

/// Puts an operation after the last.
#[tactic(auto, using(crate::proofs::Adding::adding_received))]
pub fn add(out: &mut RecvOps, op: RecvOp) -> Result<(), NoMemory>
    ensures { OnOk result (code_seen out.new ≡ append (code_seen out.old) (op_seen op finish)) }
{
    out.push(op)
}
