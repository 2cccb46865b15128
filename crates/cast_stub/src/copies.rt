//! Copies of code.

ghost use Rattle.std.specs.Prelude.{◌≡◌, ◌++◌, OnOk, IfOk};

use crate::copying::puts_after;
use crate::put::{Path, Puts};
use crate::send::{SendCases, SendLast, SendOp, SendOps};
use kit_base::NoMemory;
use std::alloc::Global;

/// The same path.
pub fn copy_path(alloc: Global, path: &Path) -> Result<Path, NoMemory>
    ensures { IfOk result (λ p. p ≡ path.now) }
{
    let mut copy = Path::new(alloc);
    copy.append(path.as_slice())?;
    Ok(copy)
}

/// The same puts.
#[tactic(auto, using(crate::proofs::Copied::copied))]
pub fn copy_puts(alloc: Global, puts: &Puts) -> Result<Puts, NoMemory>
    ensures { IfOk result (λ ps. ps ≡ puts.now) }
{
    puts_after(alloc, &Path::new(alloc), puts)
}

/// The same operations.
#[cycle(copy)]
pub fn copy_ops(alloc: Global, ops: &SendOps) -> Result<SendOps, NoMemory>
    ensures { IfOk result (λ os. os ≡ ops.now) }
{
    let mut copy = SendOps::new(alloc);
    for op in ops.as_slice() {
        copy.push(copy_op(alloc, op)?)?;
    }
    Ok(copy)
}

/// The same operation.
#[cycle(copy)]
fn copy_op(alloc: Global, op: &SendOp) -> Result<SendOp, NoMemory>
    ensures { IfOk result (λ o. o ≡ op.now) }
{
    match op {
        SendOp::Ensure(n) => Ok(SendOp::Ensure(*n)),
        SendOp::EnsureRow(path, unit, extra) => {
            Ok(SendOp::EnsureRow(copy_path(alloc, path)?, *unit, *extra))
        }
        SendOp::Align(a) => Ok(SendOp::Align(*a)),
        SendOp::Chunk(size, puts) => Ok(SendOp::Chunk(*size, copy_puts(alloc, puts)?)),
        SendOp::RowCopy(path) => Ok(SendOp::RowCopy(copy_path(alloc, path)?)),
        SendOp::RowSwap(path) => Ok(SendOp::RowSwap(copy_path(alloc, path)?)),
        SendOp::RowWide(path, order) => Ok(SendOp::RowWide(copy_path(alloc, path)?, *order)),
        SendOp::Each(path, body) => {
            Ok(SendOp::Each(copy_path(alloc, path)?, copy_ops(alloc, body)?))
        }
        SendOp::Some(path, body) => {
            Ok(SendOp::Some(copy_path(alloc, path)?, copy_ops(alloc, body)?))
        }
        SendOp::Switch(path, cases, other) => {
            let mut bodies = SendCases::new(alloc);
            for case in cases.as_slice() {
                bodies.push(case_of(&case.0, copy_ops(alloc, &case.1)?))?;
            }
            let last = match other {
                Some(body) => Some(copy_ops(alloc, body)?),
                None => None,
            };
            SendOp::switch(alloc, copy_path(alloc, path)?, bodies, last)
        }
        SendOp::Call(k, path) => Ok(SendOp::Call(*k, copy_path(alloc, path)?)),
        SendOp::Patch(at, sub, order) => Ok(SendOp::Patch(*at, *sub, *order)),
    }
}

/// The same bodies of a switch.
pub fn copy_cases(alloc: Global, cases: &SendCases) -> Result<SendCases, NoMemory>
    ensures { IfOk result (λ cs. cs ≡ cases.now) }
{
    let mut copy = SendCases::new(alloc);
    for case in cases.as_slice() {
        copy.push(case_of(&case.0, copy_ops(alloc, &case.1)?))?;
    }
    Ok(copy)
}

/// The same body of every other number.
pub fn copy_last(alloc: Global, last: &SendLast) -> Result<Option<SendOps>, NoMemory>
    ensures { IfOk result (λ l. l ≡ last.now) }
{
    match last {
        Some(body) => Ok(Some(copy_ops(alloc, body)?)),
        None => Ok(None),
    }
}

/// Puts the same operations after those of `out`.
pub fn put_copies(alloc: Global, ops: &SendOps, out: &mut SendOps) -> Result<(), NoMemory>
    ensures { OnOk result (out.new ≡ out.old ++ ops.now) }
{
    for op in ops.as_slice() {
        out.push(copy_op(alloc, op)?)?;
    }
    Ok(())
}

/// A number and its body, as one of the bodies of a switch.
pub fn case_of(n: &i128, body: SendOps) -> (i128, SendOps)
    ensures number { result.0 ≡ n.now }
    ensures body { result.1 ≡ body }
{
    (*n, body)
}
