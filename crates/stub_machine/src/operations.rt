//! The operations of a send code, one after the other and one within another.

ghost use Rattle.std.specs.Prelude.{◌≡◌, ◌<◌, ◌≤◌, Err, OnOk, OnErr, map, length, slice_index_or, pos};
ghost use Rattle.mint.specs.Values.{seen, all_seen, vals_of, num};
ghost use Rattle.cast_stub.specs.Parts.{elements_in, on_some};
ghost use Rattle.cast_stub.specs.Block.{Block, stop, op_seen};
ghost use Rattle.cast_stub.specs.Steps.{over, if_present};
ghost use Rattle.stub_machine.specs.Codes.{block_run, code_run, each_run, some_run, called_run};
ghost use Rattle.stub_machine.specs.Run.{ended, state_of, Runs, Ends, Grown};
ghost use Rattle.kit_base.specs.Limits.{longest_message};

use crate::errors::Stopped;
use crate::parts::{arm_at, part, position};
use crate::puts::{only_chunk, run_chunk, run_chunks};
use crate::rows::{run_row_copy, run_row_swap, run_row_wide};
use crate::single::{run_align, run_ensure, run_ensure_row, run_patch};
use cast_stub::{Path, SendOp, SendOps, SendSubs};
use kit_base::limits::LONGEST_MESSAGE;
use mint::row::Row;
use mint::value::{Value, Values};
use raw_buf::SendBuf;
use wire_def::Head;

/// What a run has throughout: the codes that calls name, and the head.
#[derive(Drop)]
pub struct Machine<'a> {
    /// The codes that calls name, by their numbers.
    pub subs: &'a SendSubs,
    /// The head of the message, whose numbers the code may write.
    pub head: &'a Head,
}

/// Runs operations on a value, where at most so many calls are nested. The length is tested after each of them, so
/// that no more memory is taken than one of them needs beyond the longest message.
#[cycle(run)]
#[tactic(auto, using(crate::proofs::Running::running, crate::proofs::Growing::growing))]
pub fn run_block(
    machine: &Machine<'_>,
    calls: u32,
    code: &SendOps,
    value: &Value,
    buf: &mut SendBuf,
) -> Result<(), Stopped>
    requires { Runs (code_run machine.now calls code.now (seen value.now)) (state_of buf.old) }
    ensures ok { OnOk result
        (Ends (code_run machine.now calls code.now (seen value.now)) (state_of buf.old) (state_of buf.new)) }
    ensures err { OnErr result
        (Grown (code_run machine.now calls code.now (seen value.now)) (state_of buf.old) (state_of buf.new)) }
    ensures long { (result ≡ Err Stopped.Long) → longest_message < length buf.new.done }
    ensures short { OnOk result (0 < length code.now → length buf.new.done ≤ longest_message) }
{
    for op in code.as_slice() {
        run_op(machine, calls, op, value, buf)?;
        if buf.octets().len() > LONGEST_MESSAGE {
            return Err(Stopped::Long);
        }
    }
    Ok(())
}

/// Runs one operation.
#[cycle(run)]
#[tactic(auto, using(crate::proofs::Running::running, crate::proofs::Growing::growing))]
fn run_op(
    machine: &Machine<'_>,
    calls: u32,
    op: &SendOp,
    value: &Value,
    buf: &mut SendBuf,
) -> Result<(), Stopped>
    requires { Runs (block_run machine.now calls (op_seen op.now stop) (seen value.now)) (state_of buf.old) }
    ensures ok { OnOk result ((r : Block)
        → ended (block_run machine.now calls (op_seen op.now r) (seen value.now)) (state_of buf.old)
        ≡ ended (block_run machine.now calls r (seen value.now)) (state_of buf.new)) }
    ensures err { OnErr result (Grown (block_run machine.now calls (op_seen op.now stop) (seen value.now))
        (state_of buf.old) (state_of buf.new)) }
    ensures long { (result ≡ Err Stopped.Long) → longest_message < length buf.new.done }
{
    match op {
        SendOp::Ensure(n) => run_ensure(*n, buf),
        SendOp::EnsureRow(path, unit, extra) => run_ensure_row(path, *unit, *extra, value, buf),
        SendOp::Align(a) => {
            run_align(*a, buf);
            Ok(())
        }
        SendOp::Chunk(size, puts) => {
            run_chunk(*size, puts, machine.head, value, buf);
            Ok(())
        }
        SendOp::Each(path, body) => run_each(machine, calls, path, body, value, buf),
        SendOp::RowCopy(path) => {
            run_row_copy(path, value, buf);
            Ok(())
        }
        SendOp::RowSwap(path) => {
            run_row_swap(path, value, buf);
            Ok(())
        }
        SendOp::RowWide(path, order) => {
            run_row_wide(path, *order, value, buf);
            Ok(())
        }
        SendOp::Switch(path, cases, other) => {
            let Some((n, inner)) = arm_at(path, value) else {
                unreachable!()
            };
            match position(cases, n) {
                Some(i) => run_block(machine, calls, &cases.as_slice()[i].1, inner, buf),
                None => match other {
                    Some(body) => run_block(machine, calls, body, inner, buf),
                    None => unreachable!(),
                },
            }
        }
        SendOp::Some(path, body) => run_some(machine, calls, path, body, value, buf),
        SendOp::Call(k, path) => run_called(machine, calls, *k, path, value, buf),
        SendOp::Patch(at, sub, order) => {
            run_patch(*at, *sub, *order, buf);
            Ok(())
        }
    }
}

/// Runs a body on each element of the value at a path.
#[cycle(run)]
#[tactic(auto, using(crate::proofs::Running::running, crate::proofs::Growing::growing))]
fn run_each(
    machine: &Machine<'_>,
    calls: u32,
    path: &Path,
    body: &SendOps,
    value: &Value,
    buf: &mut SendBuf,
) -> Result<(), Stopped>
    requires { Runs (each_run machine.now calls path.now body.now (seen value.now)) (state_of buf.old) }
    ensures ok { OnOk result (Ends (each_run machine.now calls path.now body.now (seen value.now))
        (state_of buf.old) (state_of buf.new)) }
    ensures err { OnErr result (Grown (each_run machine.now calls path.now body.now (seen value.now))
        (state_of buf.old) (state_of buf.new)) }
    ensures long { (result ≡ Err Stopped.Long) → longest_message < length buf.new.done }
{
    let Some(here) = part(path, value) else {
        unreachable!()
    };
    run_elements(machine, calls, body, here, buf)
}

/// Runs a body on each element.
#[cycle(run)]
#[tactic(auto, using(crate::proofs::Running::running, crate::proofs::Growing::growing))]
fn run_elements(
    machine: &Machine<'_>,
    calls: u32,
    body: &SendOps,
    value: &Value,
    buf: &mut SendBuf,
) -> Result<(), Stopped>
    requires { Runs (on_some (elements_in (seen value.now)) (over (code_run machine.now calls body.now)))
        (state_of buf.old) }
    ensures ok { OnOk result
        (Ends (on_some (elements_in (seen value.now)) (over (code_run machine.now calls body.now)))
        (state_of buf.old) (state_of buf.new)) }
    ensures err { OnErr result
        (Grown (on_some (elements_in (seen value.now)) (over (code_run machine.now calls body.now)))
        (state_of buf.old) (state_of buf.new)) }
    ensures long { (result ≡ Err Stopped.Long) → longest_message < length buf.new.done }
{
    match value {
        Value::Items(values) => run_items(machine, calls, body, values, buf),
        Value::Row(row) => run_numbers(machine, calls, body, row, buf),
        _ => unreachable!(),
    }
}

/// Runs a body on each value.
#[cycle(run)]
#[tactic(auto, using(crate::proofs::Running::running, crate::proofs::Growing::growing))]
fn run_items(
    machine: &Machine<'_>,
    calls: u32,
    body: &SendOps,
    values: &Values,
    buf: &mut SendBuf,
) -> Result<(), Stopped>
    requires { Runs (over (code_run machine.now calls body.now) (all_seen values.now)) (state_of buf.old) }
    ensures ok { OnOk result (Ends (over (code_run machine.now calls body.now) (all_seen values.now))
        (state_of buf.old) (state_of buf.new)) }
    ensures err { OnErr result (Grown (over (code_run machine.now calls body.now) (all_seen values.now))
        (state_of buf.old) (state_of buf.new)) }
    ensures long { (result ≡ Err Stopped.Long) → longest_message < length buf.new.done }
{
    if let Some((size, puts)) = only_chunk(body) {
        run_chunks(size, puts, machine.head, values, buf);
        return Ok(());
    }
    for value in values.as_slice() {
        run_block(machine, calls, body, value, buf)?;
    }
    Ok(())
}

/// Runs a body on each number of a row.
#[cycle(run)]
#[tactic(auto, using(crate::proofs::Running::running, crate::proofs::Growing::growing))]
fn run_numbers(
    machine: &Machine<'_>,
    calls: u32,
    body: &SendOps,
    row: &Row,
    buf: &mut SendBuf,
) -> Result<(), Stopped>
    requires { Runs (over (code_run machine.now calls body.now) (vals_of (map num row.now.numbers)))
        (state_of buf.old) }
    ensures ok { OnOk result
        (Ends (over (code_run machine.now calls body.now) (vals_of (map num row.now.numbers)))
        (state_of buf.old) (state_of buf.new)) }
    ensures err { OnErr result
        (Grown (over (code_run machine.now calls body.now) (vals_of (map num row.now.numbers)))
        (state_of buf.old) (state_of buf.new)) }
    ensures long { (result ≡ Err Stopped.Long) → longest_message < length buf.new.done }
{
    for i in 0..row.len() {
        let number = number_at(row, i);
        run_block(machine, calls, body, &number, buf)?;
    }
    Ok(())
}

/// The number at a place of a row, as a value.
#[tactic(auto, using(crate::proofs::Running::values))]
fn number_at(row: &Row, i: usize) -> Value
    requires { i < length row.now.numbers }
    ensures { seen result ≡ num (slice_index_or row.now.numbers i (pos 0)) }
{
    match row.get(i) {
        Some(n) => Value::Num(n),
        None => unreachable!(),
    }
}

/// Runs a body on the value that may be there at a path.
#[cycle(run)]
#[tactic(auto, using(crate::proofs::Running::running, crate::proofs::Growing::growing))]
fn run_some(
    machine: &Machine<'_>,
    calls: u32,
    path: &Path,
    body: &SendOps,
    value: &Value,
    buf: &mut SendBuf,
) -> Result<(), Stopped>
    requires { Runs (some_run machine.now calls path.now body.now (seen value.now)) (state_of buf.old) }
    ensures ok { OnOk result (Ends (some_run machine.now calls path.now body.now (seen value.now))
        (state_of buf.old) (state_of buf.new)) }
    ensures err { OnErr result (Grown (some_run machine.now calls path.now body.now (seen value.now))
        (state_of buf.old) (state_of buf.new)) }
    ensures long { (result ≡ Err Stopped.Long) → longest_message < length buf.new.done }
{
    let Some(here) = part(path, value) else {
        unreachable!()
    };
    run_present(machine, calls, body, here, buf)
}

/// Runs a body on the value that may be there.
#[cycle(run)]
#[tactic(auto, using(crate::proofs::Running::running, crate::proofs::Growing::growing))]
fn run_present(
    machine: &Machine<'_>,
    calls: u32,
    body: &SendOps,
    value: &Value,
    buf: &mut SendBuf,
) -> Result<(), Stopped>
    requires { Runs (if_present (code_run machine.now calls body.now) (seen value.now)) (state_of buf.old) }
    ensures ok { OnOk result (Ends (if_present (code_run machine.now calls body.now) (seen value.now))
        (state_of buf.old) (state_of buf.new)) }
    ensures err { OnErr result (Grown (if_present (code_run machine.now calls body.now) (seen value.now))
        (state_of buf.old) (state_of buf.new)) }
    ensures long { (result ≡ Err Stopped.Long) → longest_message < length buf.new.done }
{
    match value {
        Value::Opt(None) => Ok(()),
        Value::Opt(Some(inner)) => run_block(machine, calls, body, inner, buf),
        _ => unreachable!(),
    }
}

/// Runs the code of a number on the value at a path.
#[cycle(run)]
#[tactic(auto, using(crate::proofs::Running::running, crate::proofs::Growing::growing))]
fn run_called(
    machine: &Machine<'_>,
    calls: u32,
    k: u32,
    path: &Path,
    value: &Value,
    buf: &mut SendBuf,
) -> Result<(), Stopped>
    requires { Runs (called_run machine.now calls k path.now (seen value.now)) (state_of buf.old) }
    ensures ok { OnOk result (Ends (called_run machine.now calls k path.now (seen value.now))
        (state_of buf.old) (state_of buf.new)) }
    ensures err { OnErr result (Grown (called_run machine.now calls k path.now (seen value.now))
        (state_of buf.old) (state_of buf.new)) }
    ensures long { (result ≡ Err Stopped.Long) → longest_message < length buf.new.done }
{
    if calls == 0 {
        unreachable!()
    }
    let Some(here) = part(path, value) else {
        unreachable!()
    };
    match machine.subs.get(k as usize) {
        Some(code) => run_block(machine, calls - 1, code, here, buf),
        None => unreachable!(),
    }
}
