//! The text of code that receives.

ghost use Rattle.std.specs.Prelude.{◌≡◌, ◌∷◌, [], codes, map, IfOk, OnOk};
ghost use Rattle.cast_stub.specs.RecvBlock.{pass, op_seen, code_seen};
ghost use Rattle.stub_print.specs.Putting.{IsPut, IsRecvPut};
ghost use Rattle.stub_print.specs.RecvText.{block_text, recv_text, subs_text};
ghost use Rattle.stub_print.specs.Words.{line, numeral, path_word};

use crate::gets::put_gets;
use crate::lines::{
    put_alone, put_call, put_case, put_counted, put_end, put_named, put_ordered, put_over, put_room,
};
use crate::puts::put_three;
use crate::words::{end_line, put_first, put_number, put_path, put_word};
use cast_stub::{Gets, Path, RecvCode, RecvOp, RecvOps, RecvSubs};
use kit_base::{Name, NoMemory, Octets};
use std::alloc::Global;

/// The text of a code that receives: `recv` and the name, the operations, each code that calls name
/// after `sub` and its number, and `end`.
pub fn print_recv(alloc: Global, name: &Name, code: &RecvCode) -> Result<Octets, NoMemory>
    ensures { IfOk result (λ text.
        text ≡ recv_text name.now (code_seen code.now.ops) (map code_seen code.now.subs)) }
{
    let mut out = Octets::new(alloc);
    put_named(&mut out, b"recv", name.as_slice())?;
    put_ops(&mut out, &code.ops)?;
    put_subs(&mut out, &code.subs)?;
    put_end(&mut out)?;
    Ok(out)
}

/// Puts the codes that calls name, each after its number.
fn put_subs(out: &mut Octets, subs: &RecvSubs) -> Result<(), NoMemory>
    ensures { OnOk result (IsPut out.old (subs_text 0 (map code_seen subs.now)) out.new) }
{
    for (k, ops) in subs.as_slice().iter().enumerate() {
        put_counted(out, b"sub", k as u64)?;
        put_ops(out, ops)?;
        put_end(out)?;
    }
    Ok(())
}

/// Puts the lines of operations.
#[cycle(put)]
fn put_ops(out: &mut Octets, ops: &RecvOps) -> Result<(), NoMemory>
    ensures { OnOk result (IsPut out.old (block_text (code_seen ops.now)) out.new) }
{
    for op in ops.as_slice() {
        put_op(out, op)?;
    }
    Ok(())
}

/// Puts the lines of an operation.
#[cycle(put)]
fn put_op(out: &mut Octets, op: &RecvOp) -> Result<(), NoMemory>
    ensures { OnOk result (IsRecvPut out.old (op_seen op.now) out.new) }
{
    match op {
        RecvOp::Need(n) => put_counted(out, b"need", u64::from(*n)),
        RecvOp::NeedRow(path, unit, extra) => put_room(out, b"need_row", path, *unit, *extra),
        RecvOp::SkipAny(a) => put_skip(out, *a, b"any"),
        RecvOp::SkipZero(a) => put_skip(out, *a, b"zero"),
        RecvOp::Take(size, gets) => put_take(out, *size, gets),
        RecvOp::Desc(path, name, size, factor) => put_desc(out, path, *name, *size, *factor),
        RecvOp::Row(path, order) => put_ordered(out, b"row", path, *order),
        RecvOp::RowWide(path, order) => put_ordered(out, b"row_wide", path, *order),
        RecvOp::Each(path, body) => {
            put_over(out, b"each", path)?;
            put_ops(out, body)?;
            put_end(out)
        }
        RecvOp::Switch(path, cases, other) => {
            put_over(out, b"switch", path)?;
            for case in cases.as_slice() {
                put_case(out, &case.0)?;
                put_ops(out, &case.1)?;
            }
            match other {
                Some(body) => {
                    put_alone(out, b"default")?;
                    put_ops(out, body)?;
                    put_end(out)
                }
                None => put_end(out),
            }
        }
        RecvOp::Some(path, body) => {
            put_over(out, b"some", path)?;
            put_ops(out, body)?;
            put_end(out)
        }
        RecvOp::Call(k, path) => put_call(out, *k, path),
    }
}

/// Puts the line of a skip: up to a multiple, and what the octets may be.
fn put_skip(out: &mut Octets, a: u32, what: &[u8]) -> Result<(), NoMemory>
    ensures { OnOk result (IsPut out.old (line (codes "skip") (numeral a ∷ what.now ∷ [])) out.new) }
{
    put_first(out, b"skip")?;
    put_number(out, u64::from(a))?;
    put_word(out, what)?;
    end_line(out)
}

/// Puts the lines of a take.
fn put_take(out: &mut Octets, size: u32, gets: &Gets) -> Result<(), NoMemory>
    ensures { OnOk result (IsRecvPut out.old (pass size gets.now) out.new) }
{
    put_counted(out, b"take", u64::from(size))?;
    put_gets(out, gets)?;
    put_end(out)
}

/// Puts the line of a Mach descriptor.
fn put_desc(
    out: &mut Octets,
    path: &Path,
    name: u32,
    size: u32,
    factor: u32,
) -> Result<(), NoMemory>
    ensures { OnOk result (IsPut out.old (line (codes "desc")
        (path_word path.now ∷ numeral name ∷ numeral size ∷ numeral factor ∷ [])) out.new) }
{
    put_first(out, b"desc")?;
    put_path(out, path)?;
    put_three(out, name, size, factor)
}
