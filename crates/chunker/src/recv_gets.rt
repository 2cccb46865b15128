//! Gets further on, and those that stand for skips.

ghost use Rattle.std.specs.Prelude.{◌≡◌, ◌+◌, ◌++◌, map, OnOk, IfOk};
ghost use Rattle.chunker.specs.RecvChunked.{moved, zeros, unread};

use crate::joining::further;
use cast_stub::copies::copy_path;
use cast_stub::copying::copy_octets;
use cast_stub::{Get, Gets, Path};
use kit_base::{NoMemory, Octets};
use std::alloc::Global;
use wire_def::Order;

/// The get so many octets further on.
fn move_get(alloc: Global, by: u32, get: &Get) -> Result<Get, NoMemory>
    ensures { IfOk result (λ g. g ≡ moved by get.now) }
{
    match get {
        Get::Num(off, path, width, order) => {
            Ok(Get::Num(further(by, *off)?, copy_path(alloc, path)?, *width, *order))
        }
        Get::Tag(off, path, width, order) => {
            Ok(Get::Tag(further(by, *off)?, copy_path(alloc, path)?, *width, *order))
        }
        Get::Flag(off, path, width, order) => {
            Ok(Get::Flag(further(by, *off)?, copy_path(alloc, path)?, *width, *order))
        }
        Get::Count(off, path, factor, summand, width, order) => {
            Ok(Get::Count(
                further(by, *off)?,
                copy_path(alloc, path)?,
                *factor,
                *summand,
                *width,
                *order,
            ))
        }
        Get::Const(off, octets) => Ok(Get::Const(further(by, *off)?, copy_octets(alloc, octets)?)),
    }
}

/// Puts the gets after those of `out`, so many octets further on.
pub(crate) fn move_gets(alloc: Global, by: u32, gets: &Gets, out: &mut Gets) -> Result<(), NoMemory>
    ensures { OnOk result (out.new ≡ out.old ++ map (moved by) gets.now) }
{
    for get in gets.as_slice() {
        out.push(move_get(alloc, by, get)?)?;
    }
    Ok(())
}

/// Puts so many zeros after the gets of `out`, if there are any.
pub(crate) fn get_zeros(alloc: Global, at: u32, many: u32, out: &mut Gets) -> Result<(), NoMemory>
    ensures { OnOk result (out.new ≡ out.old ++ zeros at many) }
{
    if many == 0 {
        return Ok(());
    }
    let mut octets = Octets::new(alloc);
    for _ in 0..many {
        octets.push(0)?;
    }
    out.push(Get::Const(at, octets))?;
    Ok(())
}

/// Puts a number that is never read after the gets of `out`.
pub(crate) fn get_unread(alloc: Global, at: u32, width: u32, out: &mut Gets) -> Result<(), NoMemory>
    ensures { OnOk result (out.new ≡ out.old ++ unread at width) }
{
    out.push(Get::Num(at, Path::new(alloc), width, Order::Big))?;
    Ok(())
}
