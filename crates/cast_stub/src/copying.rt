//! Copies of what operations hold, for a part of the value; and operations put one after the other.

ghost use Rattle.std.specs.Prelude.{◌≡◌, [], ◌∷◌, ◌++◌, map, OnOk, IfOk};
ghost use Rattle.cast_stub.specs.Append.{append, put_rebased};
ghost use Rattle.cast_stub.specs.Block.{stop, op_seen, code_seen};

use crate::put::{Path, Put, Puts};
use crate::send::{SendOp, SendOps};
use kit_base::{NoMemory, Octets};
use std::alloc::Global;

/// The path from the whole, of a path from the part at the prefix.
pub fn path_after(alloc: Global, prefix: &Path, path: &Path) -> Result<Path, NoMemory>
    ensures { IfOk result (λ p. p ≡ prefix.now ++ path.now) }
{
    let mut copy = Path::new(alloc);
    copy.append(prefix.as_slice())?;
    copy.append(path.as_slice())?;
    Ok(copy)
}

/// The same octets.
pub fn copy_octets(alloc: Global, octets: &Octets) -> Result<Octets, NoMemory>
    ensures { IfOk result (λ o. o ≡ octets.now) }
{
    let mut copy = Octets::new(alloc);
    copy.append(octets.as_slice())?;
    Ok(copy)
}

/// The put for the whole, of a put for the part at the prefix.
fn put_after(alloc: Global, prefix: &Path, put: &Put) -> Result<Put, NoMemory>
    ensures { IfOk result (λ p. p ≡ put_rebased prefix.now put.now) }
{
    match put {
        Put::Num(off, path, width, order) => {
            Ok(Put::Num(*off, path_after(alloc, prefix, path)?, *width, *order))
        }
        Put::Tag(off, path, width, order) => {
            Ok(Put::Tag(*off, path_after(alloc, prefix, path)?, *width, *order))
        }
        Put::Flag(off, path, width, order) => {
            Ok(Put::Flag(*off, path_after(alloc, prefix, path)?, *width, *order))
        }
        Put::Count(off, path, factor, summand, width, order) => {
            Ok(Put::Count(
                *off,
                path_after(alloc, prefix, path)?,
                *factor,
                *summand,
                *width,
                *order,
            ))
        }
        Put::Short(off, path, name, size, factor) => {
            Ok(Put::Short(
                *off,
                path_after(alloc, prefix, path)?,
                *name,
                *size,
                *factor,
            ))
        }
        Put::Const(off, octets) => Ok(Put::Const(*off, octets.copy(alloc)?)),
        Put::Head(off, field, width, order) => Ok(Put::Head(*off, *field, *width, *order)),
    }
}

/// The puts for the whole, of puts for the part at the prefix.
pub fn puts_after(alloc: Global, prefix: &Path, puts: &Puts) -> Result<Puts, NoMemory>
    ensures { IfOk result (λ ps. ps ≡ map (put_rebased prefix.now) puts.now) }
{
    let mut copy = Puts::new(alloc);
    for put in puts.as_slice() {
        copy.push(put_after(alloc, prefix, put)?)?;
    }
    Ok(copy)
}

/// Puts an operation after the last.
#[tactic(auto, using(crate::proofs::Adding::adding))]
pub fn add(out: &mut SendOps, op: SendOp) -> Result<(), NoMemory>
    ensures { OnOk result (code_seen out.new ≡ append (code_seen out.old) (op_seen op stop)) }
{
    out.push(op)
}

/// The path of a field.
pub fn path_of(alloc: Global, field: u32) -> Result<Path, NoMemory>
    ensures { IfOk result (λ p. p ≡ field ∷ []) }
{
    let mut path = Path::new(alloc);
    path.push(field)?;
    Ok(path)
}
