//! What an encoding gives: how a number, a count and the elements of an array are sent.

ghost use Rattle.std.specs.Prelude.{◌≡◌, [], ◌∷◌, ◌++◌, OnOk, IfOk};
ghost use Rattle.mint.specs.Types.{number, text, row_of};
ghost use Rattle.cast_stub.specs.Append.{append};
ghost use Rattle.cast_stub.specs.Block.{stop, chunk, each, code_seen};
ghost use Rattle.cast_stub.specs.Layouts.{order_of, element_width, is_gapped};
ghost use Rattle.cast_stub.specs.declared.put.Put.TheVariants as put;
ghost use Rattle.mint.specs.declared.kind.Count.{Count};
ghost use Rattle.stub_lower.specs.Codes.{aligned, array_code, count_code, described_code, end_code, ended_code, filling_code, filling_puts, gapped_turn, item_code, length_put, long_code, number_code, row_code, scalar_code, short_code};

use crate::ops::{add_chunk, add_pair};
use crate::units::{item_octets, long_octets, number_at, rest_of};
use cast_stub::copying::add;
use cast_stub::layouts::{order_of, width_of};
use cast_stub::{Constant, Path, Put, Puts, SendOp, SendOps};
use kit_base::{NoMemory, Octets};
use mint::kind::{Count, Kind};
use std::alloc::Global;
use wire_def::descriptors::{bits_of, has_long, name_of, units_in};
use wire_def::{Encoding, Order};

/// Puts an alignment after the last operation.
#[tactic(auto, using(crate::proofs::Building::building))]
fn add_align(width: u32, out: &mut SendOps) -> Result<(), NoMemory>
    ensures { OnOk result (code_seen out.new ≡ append (code_seen out.old) (aligned width stop)) }
{
    if width == 1 {
        Ok(())
    } else {
        add(out, SendOp::Align(width))
    }
}

/// Puts a chunk after the last operation, at a multiple of its size, which one put fills.
#[tactic(auto, using(crate::proofs::Building::building))]
fn add_aligned(alloc: Global, width: u32, put: Put, out: &mut SendOps) -> Result<(), NoMemory>
    ensures { OnOk result
        (code_seen out.new ≡ append (code_seen out.old) (aligned width (chunk width (put ∷ []) stop))) }
{
    if width == 1 {
        add_chunk(alloc, width, put, out)
    } else {
        add(out, SendOp::Align(width))?;
        add_chunk(alloc, width, put, out)
    }
}

/// Puts zeros at an offset after the last put.
fn add_zeros(alloc: Global, at: u32, zeros: &[u8], puts: &mut Puts) -> Result<(), NoMemory>
    ensures { OnOk result (puts.new ≡ puts.old ++ (put.Const at zeros.now ∷ [])) }
{
    let mut octets = Octets::new(alloc);
    octets.append(zeros)?;
    puts.push(Put::Const(at, Constant::of(alloc, octets)))
}

/// Puts what fills an item of a Mach message up after its number.
fn add_fill(alloc: Global, kind: Kind, puts: &mut Puts) -> Result<(), NoMemory>
    ensures { OnOk result (puts.new ≡ puts.old ++ filling_puts (number kind)) }
{
    match kind {
        Kind::Octet | Kind::I8 | Kind::U8 | Kind::Char => add_zeros(alloc, 5, &[0; 3], puts),
        Kind::I16 | Kind::U16 => add_zeros(alloc, 6, &[0; 2], puts),
        _ => Ok(()),
    }
}

/// Puts the code of an item of a Mach message; the put is that of its number.
#[tactic(auto, using(crate::proofs::Building::building))]
fn add_item(alloc: Global, kind: Kind, put: Put, out: &mut SendOps) -> Result<(), NoMemory>
    ensures { OnOk result (code_seen out.new ≡ append (code_seen out.old) (item_code (number kind) put)) }
{
    let mut puts = Puts::new(alloc);
    puts.push(Put::Const(0, Constant::of(alloc, item_octets(alloc, kind)?)))?;
    puts.push(put)?;
    add_fill(alloc, kind, &mut puts)?;
    add(out, SendOp::Chunk(4 + rest_of(kind), puts))
}

/// Puts the code of a scalar by itself after the last operation; the put is that of its number.
#[tactic(auto, using(crate::proofs::Building::building))]
pub(crate) fn add_scalar(
    alloc: Global,
    enc: Encoding,
    kind: Kind,
    put: Put,
    out: &mut SendOps,
) -> Result<(), NoMemory>
    ensures { OnOk result
        (code_seen out.new ≡ append (code_seen out.old) (scalar_code enc (number kind) put)) }
{
    match enc {
        Encoding::Xdr => add_chunk(alloc, width_of(enc, kind), put, out),
        Encoding::CdrBig | Encoding::CdrLittle => {
            add_aligned(alloc, width_of(enc, kind), put, out)
        }
        Encoding::Mach => add_item(alloc, kind, put, out),
    }
}

/// Puts the code of the current value, a number of a kind.
#[tactic(auto, using(crate::proofs::Building::building))]
pub(crate) fn add_number(
    alloc: Global,
    enc: Encoding,
    kind: Kind,
    out: &mut SendOps,
) -> Result<(), NoMemory>
    ensures { OnOk result (code_seen out.new ≡ append (code_seen out.old) (number_code enc (number kind))) }
{
    let put = Put::Num(
        number_at(enc),
        Path::new(alloc),
        width_of(enc, kind),
        order_of(enc),
    );
    add_scalar(alloc, enc, kind, put, out)
}

/// The put of a length, to which so many octets are added.
fn length(alloc: Global, enc: Encoding, summand: u32) -> Put
    ensures { result ≡ length_put enc summand }
{
    let width = width_of(enc, Kind::U32);
    Put::Count(
        number_at(enc),
        Path::new(alloc),
        1,
        summand,
        width,
        order_of(enc),
    )
}

/// Puts the code of a count, which a fixed length does not have.
#[tactic(auto, using(crate::proofs::Building::building))]
pub(crate) fn add_count(
    alloc: Global,
    enc: Encoding,
    count: Count,
    out: &mut SendOps,
) -> Result<(), NoMemory>
    ensures { OnOk result (code_seen out.new ≡ append (code_seen out.old) (count_code enc count)) }
{
    match count {
        Count::Exactly(_) => Ok(()),
        _ => add_scalar(alloc, enc, Kind::U32, length(alloc, enc, 0), out),
    }
}

/// Puts the long descriptor of an array.
#[tactic(auto, using(crate::proofs::Building::building))]
fn add_long(alloc: Global, kind: Kind, out: &mut SendOps) -> Result<(), NoMemory>
    ensures { OnOk result (code_seen out.new ≡ append (code_seen out.old) (long_code (number kind))) }
{
    let words = Put::Const(0, Constant::of(alloc, long_octets(alloc, kind)?));
    let many = Put::Count(8, Path::new(alloc), units_in(kind), 0, 4, Order::Little);
    add_pair(alloc, 12, words, many, out)
}

/// Puts the short descriptor of an array.
#[tactic(auto, using(crate::proofs::Building::building))]
fn add_short(alloc: Global, kind: Kind, out: &mut SendOps) -> Result<(), NoMemory>
    ensures { OnOk result (code_seen out.new ≡ append (code_seen out.old) (short_code (number kind))) }
{
    let (name, size, units) = (name_of(kind), bits_of(kind), units_in(kind));
    let put = Put::Short(0, Path::new(alloc), name, size, units);
    add_chunk(alloc, 4, put, out)
}

/// Puts the descriptor of an array of a Mach message.
#[tactic(auto, using(crate::proofs::Building::building))]
fn add_described(alloc: Global, kind: Kind, count: Count, out: &mut SendOps) -> Result<(), NoMemory>
    ensures { OnOk result
        (code_seen out.new ≡ append (code_seen out.old) (described_code count (number kind))) }
{
    if has_long(count, kind) {
        add_long(alloc, kind, out)
    } else {
        add_short(alloc, kind, out)
    }
}

/// The code of one number of an array, aligned by itself or not.
#[tactic(auto, using(crate::proofs::Building::building))]
fn turn(alloc: Global, enc: Encoding, width: u32, gapped: bool) -> Result<SendOps, NoMemory>
    ensures { IfOk result (λ code. code_seen code ≡ gapped_turn enc width gapped) }
{
    let put = Put::Num(0, Path::new(alloc), width, order_of(enc));
    let mut code = SendOps::new(alloc);
    if gapped {
        add(&mut code, SendOp::Align(8))?;
    }
    add_chunk(alloc, width, put, &mut code)?;
    Ok(code)
}

/// Puts a loop over the numbers of an array.
#[tactic(auto, using(crate::proofs::Building::building))]
fn add_loop(
    alloc: Global,
    enc: Encoding,
    width: u32,
    gapped: bool,
    out: &mut SendOps,
) -> Result<(), NoMemory>
    ensures { OnOk result
        (code_seen out.new ≡ append (code_seen out.old) (each [] (gapped_turn enc width gapped) stop)) }
{
    let code = turn(alloc, enc, width, gapped)?;
    add(out, SendOp::Each(Path::new(alloc), code))
}

/// Puts the code of a text's length, with the octet after it.
#[tactic(auto, using(crate::proofs::Building::building))]
fn add_ended(alloc: Global, enc: Encoding, out: &mut SendOps) -> Result<(), NoMemory>
    ensures { OnOk result (code_seen out.new ≡ append (code_seen out.old) (ended_code enc)) }
{
    add_scalar(alloc, enc, Kind::U32, length(alloc, enc, 1), out)
}

/// Puts the octet 0 after a text.
#[tactic(auto, using(crate::proofs::Building::building))]
fn add_end(alloc: Global, out: &mut SendOps) -> Result<(), NoMemory>
    ensures { OnOk result (code_seen out.new ≡ append (code_seen out.old) end_code) }
{
    let mut octets = Octets::new(alloc);
    octets.push(0)?;
    add_chunk(alloc, 1, Put::Const(0, Constant::of(alloc, octets)), out)
}

/// Puts what comes before the elements of a row over CDR.
#[tactic(auto, using(crate::proofs::Building::building))]
fn add_row_head(
    alloc: Global,
    enc: Encoding,
    width: u32,
    count: Count,
    out: &mut SendOps,
) -> Result<(), NoMemory>
    ensures { OnOk result (code_seen out.new ≡ append (code_seen out.old) (row_code enc width count)) }
{
    match count {
        Count::Exactly(0) => Ok(()),
        Count::Exactly(_) => add_align(width, out),
        _ => add_count(alloc, enc, count, out),
    }
}

/// Puts the code of a text.
#[tactic(auto, using(crate::proofs::Building::building))]
pub(crate) fn add_text(
    alloc: Global,
    enc: Encoding,
    count: Count,
    out: &mut SendOps,
) -> Result<(), NoMemory>
    ensures { OnOk result (code_seen out.new ≡ append (code_seen out.old) (array_code enc (text count))) }
{
    match enc {
        Encoding::Xdr => {
            add_count(alloc, enc, count, out)?;
            add_loop(alloc, enc, 1, false, out)?;
            add(out, SendOp::Align(4))
        }
        Encoding::CdrBig | Encoding::CdrLittle => {
            add_ended(alloc, enc, out)?;
            add_loop(alloc, enc, 1, false, out)?;
            add_end(alloc, out)
        }
        Encoding::Mach => {
            add_described(alloc, Kind::Char, count, out)?;
            add_loop(alloc, enc, 1, false, out)?;
            add(out, SendOp::Align(4))
        }
    }
}

/// Whether each number of a row is aligned by itself over CDR.
pub(crate) fn is_gapped(kind: Kind, count: Count) -> bool
    ensures { result ≡ is_gapped (row_of kind count) }
{
    match (kind, count) {
        (Kind::I64 | Kind::U64, Count::Exactly(_)) => false,
        (Kind::I64 | Kind::U64, _) => true,
        _ => false,
    }
}

/// The octets of a row's element.
pub(crate) fn element_width(enc: Encoding, kind: Kind) -> u32
    ensures { (count : Count) → result ≡ element_width enc (row_of kind count) }
{
    match kind {
        Kind::Octet => 1,
        _ => width_of(enc, kind),
    }
}

/// Puts the code of a row.
#[tactic(auto, using(crate::proofs::Building::building))]
pub(crate) fn add_row(
    alloc: Global,
    enc: Encoding,
    kind: Kind,
    count: Count,
    out: &mut SendOps,
) -> Result<(), NoMemory>
    ensures { OnOk result
        (code_seen out.new ≡ append (code_seen out.old) (array_code enc (row_of kind count))) }
{
    let width = element_width(enc, kind);
    match enc {
        Encoding::Xdr => {
            add_count(alloc, enc, count, out)?;
            add_loop(alloc, enc, width, false, out)?;
            match kind {
                Kind::Octet => add(out, SendOp::Align(4)),
                _ => Ok(()),
            }
        }
        Encoding::CdrBig | Encoding::CdrLittle => {
            add_row_head(alloc, enc, width, count, out)?;
            add_loop(alloc, enc, width, is_gapped(kind, count), out)
        }
        Encoding::Mach => {
            add_described(alloc, kind, count, out)?;
            add_loop(alloc, enc, width, false, out)?;
            add_filling(width, out)
        }
    }
}

/// Puts what fills a row of a Mach message up.
#[tactic(auto, using(crate::proofs::Building::building))]
fn add_filling(width: u32, out: &mut SendOps) -> Result<(), NoMemory>
    ensures { OnOk result (code_seen out.new ≡ append (code_seen out.old) (filling_code width)) }
{
    if width < 4 {
        add(out, SendOp::Align(4))
    } else {
        Ok(())
    }
}
