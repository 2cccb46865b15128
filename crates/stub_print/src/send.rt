//! The text of code that sends.

ghost use Rattle.std.specs.Prelude.{◌≡◌, ◌∷◌, [], codes, map, IfOk, OnOk};
ghost use Rattle.cast_stub.specs.Block.{chunk, op_seen, code_seen};
ghost use Rattle.stub_print.specs.Putting.{IsPut, IsSendPut};
ghost use Rattle.stub_print.specs.SendText.{block_text, send_text, subs_text};
ghost use Rattle.stub_print.specs.Words.{line, numeral, order_word};

use crate::lines::{
    put_alone, put_call, put_case, put_counted, put_end, put_named, put_ordered, put_over, put_room,
};
use crate::puts::put_puts;
use crate::words::{end_line, put_first, put_number, put_order};
use cast_stub::{Puts, SendCode, SendOp, SendOps, SendSubs};
use kit_base::{Name, NoMemory, Octets};
use std::alloc::Global;
use wire_def::Order;

/// The text of a code that sends: `send` and the name, the operations, each code that calls name
/// after `sub` and its number, and `end`.
pub fn print_send(alloc: Global, name: &Name, code: &SendCode) -> Result<Octets, NoMemory>
    ensures { IfOk result (λ text.
        text ≡ send_text name.now (code_seen code.now.ops) (map code_seen code.now.subs)) }
{
    let mut out = Octets::new(alloc);
    put_named(&mut out, b"send", name.as_slice())?;
    put_ops(&mut out, &code.ops)?;
    put_subs(&mut out, &code.subs)?;
    put_end(&mut out)?;
    Ok(out)
}

/// Puts the codes that calls name, each after its number.
fn put_subs(out: &mut Octets, subs: &SendSubs) -> Result<(), NoMemory>
    ensures { OnOk result (IsPut out.old (subs_text 0 (map code_seen subs.now)) out.new) }
{
    for (k, ops) in subs.as_slice().iter().enumerate() {
        put_counted(out, b"sub", k as u64)?;
        put_ops(out, ops)?;
        put_end(out)?;
    }
    Ok(())
}

/// Puts the lines of operations.
#[cycle(put)]
fn put_ops(out: &mut Octets, ops: &SendOps) -> Result<(), NoMemory>
    ensures { OnOk result (IsPut out.old (block_text (code_seen ops.now)) out.new) }
{
    for op in ops.as_slice() {
        put_op(out, op)?;
    }
    Ok(())
}

/// Puts the lines of an operation.
#[cycle(put)]
fn put_op(out: &mut Octets, op: &SendOp) -> Result<(), NoMemory>
    ensures { OnOk result (IsSendPut out.old (op_seen op.now) out.new) }
{
    match op {
        SendOp::Ensure(n) => put_counted(out, b"ensure", u64::from(*n)),
        SendOp::EnsureRow(path, unit, extra) => put_room(out, b"ensure_row", path, *unit, *extra),
        SendOp::Align(a) => put_counted(out, b"align", u64::from(*a)),
        SendOp::Chunk(size, puts) => put_chunk(out, *size, puts),
        SendOp::RowCopy(path) => put_over(out, b"row_copy", path),
        SendOp::RowSwap(path) => put_over(out, b"row_swap", path),
        SendOp::RowWide(path, order) => put_ordered(out, b"row_wide", path, *order),
        SendOp::Each(path, body) => {
            put_over(out, b"each", path)?;
            put_ops(out, body)?;
            put_end(out)
        }
        SendOp::Switch(path, cases, other) => {
            put_over(out, b"switch", path)?;
            for case in cases.as_slice() {
                put_case(out, &case.0)?;
                put_ops(out, &case.1)?;
            }
            match other {
                Some(body) => {
                    put_alone(out, b"default")?;
                    put_ops(out, body)?;
                    put_end(out)
                }
                None => put_end(out),
            }
        }
        SendOp::Some(path, body) => {
            put_over(out, b"some", path)?;
            put_ops(out, body)?;
            put_end(out)
        }
        SendOp::Call(k, path) => put_call(out, *k, path),
        SendOp::Patch(at, sub, order) => put_patch(out, *at, *sub, *order),
    }
}

/// Puts the lines of a chunk.
fn put_chunk(out: &mut Octets, size: u32, puts: &Puts) -> Result<(), NoMemory>
    ensures { OnOk result (IsSendPut out.old (chunk size puts.now) out.new) }
{
    put_counted(out, b"chunk", u64::from(size))?;
    put_puts(out, puts)?;
    put_end(out)
}

/// Puts the line of a patch.
fn put_patch(out: &mut Octets, at: u32, sub: u32, order: Order) -> Result<(), NoMemory>
    ensures { OnOk result
        (IsPut out.old (line (codes "patch") (numeral at ∷ numeral sub ∷ order_word order ∷ [])) out.new) }
{
    put_first(out, b"patch")?;
    put_number(out, u64::from(at))?;
    put_number(out, u64::from(sub))?;
    put_order(out, order)?;
    end_line(out)
}
