//! What an encoding gives: how a number, a count and the elements of an array are received.

ghost use Rattle.std.specs.Prelude.{◌≡◌, ◌≤◌, ◌*◌, [], OnOk, IfOk};
ghost use Rattle.wire_def.specs.Described.{most_units};
ghost use Rattle.wire_def.specs.Lone.{units_of};
ghost use Rattle.mint.specs.Types.{number, text, row_of};
ghost use Rattle.cast_stub.specs.RecvAppend.{append};
ghost use Rattle.cast_stub.specs.RecvBlock.{finish, each, code_seen};
ghost use Rattle.cast_stub.specs.Layouts.{order_of, element_width, is_gapped};
ghost use Rattle.stub_lower.specs.RecvCodes.{aligned, array_code, count_code, described_code, end_code, ended_code, filling_code, fixed_code, free_code, gapped_turn, item_code, length_get, number_code, row_code, scalar_code, take_code};

use crate::leaves::{element_width, is_gapped};
use crate::recv_ops::{add_take, add_test};
use crate::units::{item_octets, number_at, rest_of, short_octets};
use cast_stub::layouts::{order_of, width_of};
use cast_stub::recv_copying::add;
use cast_stub::{Get, Gets, Path, RecvOp, RecvOps};
use kit_base::{NoMemory, Octets};
use mint::kind::{Count, Kind};
use std::alloc::Global;
use wire_def::Encoding;
use wire_def::descriptors::{bits_of, has_long, name_of, units_in};

// ---- scalars

/// Puts a skip to a multiple of a width after the last operation.
#[tactic(auto, using(crate::proofs::RecvBuilding::building))]
fn add_skip(width: u32, out: &mut RecvOps) -> Result<(), NoMemory>
    ensures { OnOk result (code_seen out.new ≡ append (code_seen out.old) (aligned width finish)) }
{
    if width == 1 {
        Ok(())
    } else {
        add(out, RecvOp::SkipAny(width))
    }
}

/// Puts a test and a take, at a multiple of their size, with one get.
#[tactic(auto, using(crate::proofs::RecvBuilding::building))]
fn add_aligned(alloc: Global, width: u32, get: Get, out: &mut RecvOps) -> Result<(), NoMemory>
    ensures { OnOk result
        (code_seen out.new ≡ append (code_seen out.old) (aligned width (take_code width get))) }
{
    if width == 1 {
        add_take(alloc, width, get, out)
    } else {
        add(out, RecvOp::SkipAny(width))?;
        add_take(alloc, width, get, out)
    }
}

/// Puts the code of an item of a Mach message; the get is that of its number.
#[tactic(auto, using(crate::proofs::RecvBuilding::building))]
fn add_item(alloc: Global, kind: Kind, get: Get, out: &mut RecvOps) -> Result<(), NoMemory>
    ensures { OnOk result (code_seen out.new ≡ append (code_seen out.old) (item_code (number kind) get)) }
{
    let mut gets = Gets::new(alloc);
    gets.push(Get::Const(0, item_octets(alloc, kind)?))?;
    gets.push(get)?;
    add_test(4 + rest_of(kind), gets, out)
}

/// Puts the code of a scalar by itself after the last operation; the get is that of its number.
#[tactic(auto, using(crate::proofs::RecvBuilding::building))]
pub(crate) fn add_scalar(
    alloc: Global,
    enc: Encoding,
    kind: Kind,
    get: Get,
    out: &mut RecvOps,
) -> Result<(), NoMemory>
    ensures { OnOk result
        (code_seen out.new ≡ append (code_seen out.old) (scalar_code enc (number kind) get)) }
{
    match enc {
        Encoding::Xdr => add_take(alloc, width_of(enc, kind), get, out),
        Encoding::CdrBig | Encoding::CdrLittle => {
            add_aligned(alloc, width_of(enc, kind), get, out)
        }
        Encoding::Mach => add_item(alloc, kind, get, out),
    }
}

/// Puts the code of the current value, a number of a kind.
#[tactic(auto, using(crate::proofs::RecvBuilding::building))]
pub(crate) fn add_number(
    alloc: Global,
    enc: Encoding,
    kind: Kind,
    out: &mut RecvOps,
) -> Result<(), NoMemory>
    ensures { OnOk result (code_seen out.new ≡ append (code_seen out.old) (number_code enc (number kind))) }
{
    let get = Get::Num(
        number_at(enc),
        Path::new(alloc),
        width_of(enc, kind),
        order_of(enc),
    );
    add_scalar(alloc, enc, kind, get, out)
}

// ---- lengths

/// The get of a length, to which so many octets were added.
fn length(alloc: Global, enc: Encoding, summand: u32) -> Get
    ensures { result ≡ length_get enc summand }
{
    let width = width_of(enc, Kind::U32);
    Get::Count(
        number_at(enc),
        Path::new(alloc),
        1,
        summand,
        width,
        order_of(enc),
    )
}

/// Puts the code of a count, which a fixed length does not have.
#[tactic(auto, using(crate::proofs::RecvBuilding::building))]
pub(crate) fn add_count(
    alloc: Global,
    enc: Encoding,
    count: Count,
    out: &mut RecvOps,
) -> Result<(), NoMemory>
    ensures { OnOk result (code_seen out.new ≡ append (code_seen out.old) (count_code enc count)) }
{
    match count {
        Count::Exactly(_) => Ok(()),
        _ => add_scalar(alloc, enc, Kind::U32, length(alloc, enc, 0), out),
    }
}

/// Puts the code of a text's length over CDR, with the octet after it.
#[tactic(auto, using(crate::proofs::RecvBuilding::building))]
fn add_ended(alloc: Global, enc: Encoding, out: &mut RecvOps) -> Result<(), NoMemory>
    ensures { OnOk result (code_seen out.new ≡ append (code_seen out.old) (ended_code enc)) }
{
    add_scalar(alloc, enc, Kind::U32, length(alloc, enc, 1), out)
}

/// Puts what comes before the elements of a row over CDR.
#[tactic(auto, using(crate::proofs::RecvBuilding::building))]
fn add_row_head(
    alloc: Global,
    enc: Encoding,
    width: u32,
    count: Count,
    out: &mut RecvOps,
) -> Result<(), NoMemory>
    ensures { OnOk result (code_seen out.new ≡ append (code_seen out.old) (row_code enc width count)) }
{
    match count {
        Count::Exactly(0) => Ok(()),
        Count::Exactly(_) => add_skip(width, out),
        _ => add_count(alloc, enc, count, out),
    }
}

/// Puts the descriptor of an array in either form.
#[tactic(auto, using(crate::proofs::RecvBuilding::building))]
fn add_free(alloc: Global, kind: Kind, out: &mut RecvOps) -> Result<(), NoMemory>
    ensures { OnOk result (code_seen out.new ≡ append (code_seen out.old) (free_code (number kind))) }
{
    let (name, size, units) = (name_of(kind), bits_of(kind), units_in(kind));
    add(out, RecvOp::Desc(Path::new(alloc), name, size, units))
}

/// Puts the short descriptor of a fixed length.
#[tactic(auto, using(crate::proofs::RecvBuilding::building))]
fn add_fixed(alloc: Global, kind: Kind, many: u32, out: &mut RecvOps) -> Result<(), NoMemory>
    requires { many * units_of (number kind) ≤ most_units }
    ensures { OnOk result (code_seen out.new ≡ append (code_seen out.old) (fixed_code (number kind) many)) }
{
    let octets = short_octets(alloc, kind, many * units_in(kind))?;
    add_take(alloc, 4, Get::Const(0, octets), out)
}

/// Puts the descriptor of an array of a Mach message.
#[tactic(auto, using(crate::proofs::RecvBuilding::building))]
fn add_described(alloc: Global, kind: Kind, count: Count, out: &mut RecvOps) -> Result<(), NoMemory>
    ensures { OnOk result
        (code_seen out.new ≡ append (code_seen out.old) (described_code count (number kind))) }
{
    match count {
        Count::Exactly(many) if !has_long(count, kind) => add_fixed(alloc, kind, many, out),
        _ => add_free(alloc, kind, out),
    }
}

// ---- rows and texts

/// The code of one number of an array, aligned by itself or not.
#[tactic(auto, using(crate::proofs::RecvBuilding::building))]
fn turn(alloc: Global, enc: Encoding, width: u32, gapped: bool) -> Result<RecvOps, NoMemory>
    ensures { IfOk result (λ code. code_seen code ≡ gapped_turn enc width gapped) }
{
    let get = Get::Num(0, Path::new(alloc), width, order_of(enc));
    let mut code = RecvOps::new(alloc);
    if gapped {
        add(&mut code, RecvOp::SkipAny(8))?;
    }
    add_take(alloc, width, get, &mut code)?;
    Ok(code)
}

/// Puts a loop over the numbers of an array.
#[tactic(auto, using(crate::proofs::RecvBuilding::building))]
fn add_loop(
    alloc: Global,
    enc: Encoding,
    width: u32,
    gapped: bool,
    out: &mut RecvOps,
) -> Result<(), NoMemory>
    ensures { OnOk result
        (code_seen out.new ≡ append (code_seen out.old) (each [] (gapped_turn enc width gapped) finish)) }
{
    let code = turn(alloc, enc, width, gapped)?;
    add(out, RecvOp::Each(Path::new(alloc), code))
}

/// Puts the octet 0 after a text.
#[tactic(auto, using(crate::proofs::RecvBuilding::building))]
fn add_end(alloc: Global, out: &mut RecvOps) -> Result<(), NoMemory>
    ensures { OnOk result (code_seen out.new ≡ append (code_seen out.old) end_code) }
{
    let mut octets = Octets::new(alloc);
    octets.push(0)?;
    add_take(alloc, 1, Get::Const(0, octets), out)
}

/// Puts the code of a text.
#[tactic(auto, using(crate::proofs::RecvBuilding::building))]
pub(crate) fn add_text(
    alloc: Global,
    enc: Encoding,
    count: Count,
    out: &mut RecvOps,
) -> Result<(), NoMemory>
    ensures { OnOk result (code_seen out.new ≡ append (code_seen out.old) (array_code enc (text count))) }
{
    match enc {
        Encoding::Xdr => {
            add_count(alloc, enc, count, out)?;
            add_loop(alloc, enc, 1, false, out)?;
            add(out, RecvOp::SkipZero(4))
        }
        Encoding::CdrBig | Encoding::CdrLittle => {
            add_ended(alloc, enc, out)?;
            add_loop(alloc, enc, 1, false, out)?;
            add_end(alloc, out)
        }
        Encoding::Mach => {
            add_described(alloc, Kind::Char, count, out)?;
            add_loop(alloc, enc, 1, false, out)?;
            add(out, RecvOp::SkipAny(4))
        }
    }
}

/// Puts the code of a row.
#[tactic(auto, using(crate::proofs::RecvBuilding::building))]
pub(crate) fn add_row(
    alloc: Global,
    enc: Encoding,
    kind: Kind,
    count: Count,
    out: &mut RecvOps,
) -> Result<(), NoMemory>
    ensures { OnOk result
        (code_seen out.new ≡ append (code_seen out.old) (array_code enc (row_of kind count))) }
{
    let width = element_width(enc, kind);
    match enc {
        Encoding::Xdr => {
            add_count(alloc, enc, count, out)?;
            add_loop(alloc, enc, width, false, out)?;
            match kind {
                Kind::Octet => add(out, RecvOp::SkipZero(4)),
                _ => Ok(()),
            }
        }
        Encoding::CdrBig | Encoding::CdrLittle => {
            add_row_head(alloc, enc, width, count, out)?;
            add_loop(alloc, enc, width, is_gapped(kind, count), out)
        }
        Encoding::Mach => {
            add_described(alloc, kind, count, out)?;
            add_loop(alloc, enc, width, false, out)?;
            add_filling(width, out)
        }
    }
}

/// Puts what fills a row of a Mach message up.
#[tactic(auto, using(crate::proofs::RecvBuilding::building))]
fn add_filling(width: u32, out: &mut RecvOps) -> Result<(), NoMemory>
    ensures { OnOk result (code_seen out.new ≡ append (code_seen out.old) (filling_code width)) }
{
    if width < 4 {
        add(out, RecvOp::SkipAny(4))
    } else {
        Ok(())
    }
}
