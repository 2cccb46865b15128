//! The operations of a receive code, one after the other and one within another.
ghost use Rattle.std.specs.Prelude.{IfOk, ◌≡◌, map};
ghost use Rattle.mint.specs.Kinds.{IsInRange};
ghost use Rattle.mint.specs.Values.{seen};
ghost use Rattle.cast_stub.specs.Fill.{runs};
ghost use Rattle.cast_stub.specs.Runs.{Holds};
ghost use Rattle.stub_receiver.specs.Codes.{ActsAt, kind_in, code_run, op_run, part_run, called_run, each_run, some_run, arm_run, value_run, number_run, HasRun, HasFilled};
ghost use Rattle.stub_receiver.specs.Drawn.{itself, numbers_in};
ghost use Rattle.stub_receiver.specs.Ran.{place_of, Gave};

use crate::blocks::{row_into, wide_into};
use crate::desc::desc_into;
use crate::draft::{Filling, exchange_part, fresh};
use crate::errors::{Halt, tested};
use crate::flat::{need_and_take, run_flat};
use crate::looping::{Elements, elements_of};
use crate::machine::Machine;
use crate::numbers::kind_at;
use crate::picking::{Bodies, body_of};
use crate::rows::need_row;
use crate::settling::settle;
use crate::skips::{skip_any, skip_zero};
use crate::takes::run_take;
use cast_stub::{Path, RecvLast, RecvOp, RecvOps};
use mint::value::{Row, Value, Values};
use raw_buf::RecvView;

/// Runs operations on a draft.
#[cycle(run)]
#[tactic(auto, using(crate::proofs::Running::running))]
pub fn run_block(
    machine: &Machine<'_>,
    calls: u32,
    code: &RecvOps,
    draft: &mut Filling,
    view: &mut RecvView<'_>,
) -> Result<(), Halt>
    requires { Holds (code_run machine.now calls code.now draft.old view.old) }
    ensures done { HasRun machine.now result draft.new view.new
        (code_run machine.now calls code.now draft.old view.old) }
    ensures octets { view.new.octets ≡ view.old.octets }
{
    for op in code.as_slice() {
        run_op(machine, calls, op, draft, view)?;
    }
    Ok(())
}

/// Runs one operation.
#[cycle(run)]
#[tactic(auto, using(crate::proofs::Running::running))]
fn run_op(
    machine: &Machine<'_>,
    calls: u32,
    op: &RecvOp,
    draft: &mut Filling,
    view: &mut RecvView<'_>,
) -> Result<(), Halt>
    requires { Holds (op_run machine.now calls op.now draft.old view.old) }
    ensures done { HasRun machine.now result draft.new view.new
        (op_run machine.now calls op.now draft.old view.old) }
    ensures octets { view.new.octets ≡ view.old.octets }
{
    match op {
        RecvOp::Need(n) => tested(view.need(*n as usize)),
        RecvOp::NeedRow(path, unit, extra) => {
            tested(need_row(machine.mint, path, *unit, *extra, draft, view))
        }
        RecvOp::SkipAny(a) => tested(skip_any(machine.mint, *a, draft, view)),
        RecvOp::SkipZero(a) => tested(skip_zero(machine.mint, *a, draft, view)),
        RecvOp::Take(n, gets) => tested(run_take(machine.mint, *n, gets, draft, view)),
        RecvOp::Desc(path, _, _, _) => run_at(machine, calls, op, path, draft, view),
        RecvOp::Row(path, _) => run_at(machine, calls, op, path, draft, view),
        RecvOp::RowWide(path, _) => run_at(machine, calls, op, path, draft, view),
        RecvOp::Each(path, _) => run_at(machine, calls, op, path, draft, view),
        RecvOp::Switch(path, _, _) => run_at(machine, calls, op, path, draft, view),
        RecvOp::Some(path, _) => run_at(machine, calls, op, path, draft, view),
        RecvOp::Call(_, path) => run_at(machine, calls, op, path, draft, view),
    }
}

/// Runs an operation on the part at its path.
#[cycle(run)]
#[tactic(auto, using(crate::proofs::Running::running))]
fn run_at(
    machine: &Machine<'_>,
    calls: u32,
    op: &RecvOp,
    path: &Path,
    draft: &mut Filling,
    view: &mut RecvView<'_>,
) -> Result<(), Halt>
    requires path { ActsAt op.now path.now }
    requires holds { Holds (op_run machine.now calls op.now draft.old view.old) }
    ensures done { HasRun machine.now result draft.new view.new
        (op_run machine.now calls op.now draft.old view.old) }
    ensures octets { view.new.octets ≡ view.old.octets }
{
    let path = path.as_slice();
    let mut part = Filling::Raw(0);
    exchange_part(machine.mint, draft, path, 0, &mut part);
    let mut new = act(machine, calls, op, part, view)?;
    exchange_part(machine.mint, draft, path, 0, &mut new);
    Ok(())
}

/// What an operation makes of the part at its path.
#[cycle(run)]
#[tactic(auto, using(crate::proofs::Running::running))]
fn act(
    machine: &Machine<'_>,
    calls: u32,
    op: &RecvOp,
    part: Filling,
    view: &mut RecvView<'_>,
) -> Result<Filling, Halt>
    requires { Holds (part_run machine.now calls op.now part view.old) }
    ensures done { HasFilled machine.now result view.new (part_run machine.now calls op.now part view.old) }
    ensures octets { view.new.octets ≡ view.old.octets }
{
    match op {
        RecvOp::Desc(_, name, size, mul) => {
            let mut part = part;
            match desc_into(machine.mint, *name, *size, *mul, &mut part, view) {
                true => Ok(part),
                false => Err(Halt::Refused),
            }
        }
        RecvOp::Row(_, order) => row_into(machine.alloc, machine.mint, *order, &part, view),
        RecvOp::RowWide(_, order) => wide_into(machine.alloc, machine.mint, *order, &part, view),
        RecvOp::Each(_, body) => run_each(machine, calls, body, part, view),
        RecvOp::Switch(_, cases, other) => run_switch(machine, calls, cases, other, part, view),
        RecvOp::Some(_, body) => run_some(machine, calls, body, part, view),
        RecvOp::Call(k, _) => run_called(machine, calls, *k, part, view),
        RecvOp::Need(_) => unreachable!(),
        RecvOp::NeedRow(_, _, _) => unreachable!(),
        RecvOp::SkipAny(_) => unreachable!(),
        RecvOp::SkipZero(_) => unreachable!(),
        RecvOp::Take(_, _) => unreachable!(),
    }
}

/// Fills a draft by the code of a number.
#[cycle(run)]
#[tactic(auto, using(crate::proofs::Running::running))]
fn run_called(
    machine: &Machine<'_>,
    calls: u32,
    k: u32,
    part: Filling,
    view: &mut RecvView<'_>,
) -> Result<Filling, Halt>
    requires { Holds (called_run machine.now calls k part view.old) }
    ensures done { HasFilled machine.now result view.new (called_run machine.now calls k part view.old) }
    ensures octets { view.new.octets ≡ view.old.octets }
{
    if calls == 0 {
        unreachable!()
    }
    let mut part = part;
    match machine.subs.get(k as usize) {
        Some(code) => {
            run_block(machine, calls - 1, code, &mut part, view)?;
            Ok(part)
        }
        None => unreachable!(),
    }
}

/// Fills a value of a node, of which nothing was read.
#[cycle(run)]
#[tactic(auto, using(crate::proofs::Running::running))]
pub fn run_fresh(
    machine: &Machine<'_>,
    calls: u32,
    body: &RecvOps,
    item: u32,
    view: &mut RecvView<'_>,
) -> Result<Value, Halt>
    requires { Holds (value_run machine.now calls body.now item (place_of view.old)) }
    ensures done { Gave seen result (place_of view.new)
        (value_run machine.now calls body.now item (place_of view.old)) }
    ensures octets { view.new.octets ≡ view.old.octets }
{
    if let Some((wanted, size, gets)) = need_and_take(body) {
        return run_flat(machine.alloc, machine.mint, wanted, size, gets, item, view);
    }
    let mut draft = fresh(machine.alloc, machine.mint, item)?;
    run_block(machine, calls, body, &mut draft, view)?;
    Ok(settle(machine.alloc, machine.mint, draft)?)
}

/// Fills the value that may be there.
#[cycle(run)]
#[tactic(auto, using(crate::proofs::Running::running))]
fn run_some(
    machine: &Machine<'_>,
    calls: u32,
    body: &RecvOps,
    part: Filling,
    view: &mut RecvView<'_>,
) -> Result<Filling, Halt>
    requires { Holds (some_run machine.now calls body.now part view.old) }
    ensures done { HasFilled machine.now result view.new (some_run machine.now calls body.now part view.old) }
    ensures octets { view.new.octets ≡ view.old.octets }
{
    match part {
        Filling::Flagged(item) => {
            let value = run_fresh(machine, calls, body, item, view)?;
            Ok(Filling::Done(Value::present(machine.alloc, value)?))
        }
        Filling::Done(value) => Ok(Filling::Done(value)),
        Filling::Raw(_) | Filling::Digit(_) => unreachable!(),
        Filling::Listed(_, _) | Filling::Lined(_, _) => unreachable!(),
        Filling::Tagged(_, _) | Filling::Fields(_) => unreachable!(),
    }
}

/// Fills the value of a union's arm.
#[cycle(run)]
#[tactic(auto, using(crate::proofs::Running::running))]
fn run_switch(
    machine: &Machine<'_>,
    calls: u32,
    cases: &Bodies,
    other: &RecvLast,
    part: Filling,
    view: &mut RecvView<'_>,
) -> Result<Filling, Halt>
    requires { Holds (arm_run machine.now calls cases.now other.now part view.old) }
    ensures done { HasFilled machine.now result view.new
        (arm_run machine.now calls cases.now other.now part view.old) }
    ensures octets { view.new.octets ≡ view.old.octets }
{
    match part {
        Filling::Tagged(n, item) => {
            let Some(body) = body_of(cases, other, &n) else {
                unreachable!()
            };
            let value = run_fresh(machine, calls, body, item, view)?;
            Ok(Filling::Done(Value::arm(machine.alloc, n, value)?))
        }
        Filling::Raw(_) => unreachable!(),
        Filling::Digit(_) => unreachable!(),
        Filling::Listed(_, _) => unreachable!(),
        Filling::Lined(_, _) => unreachable!(),
        Filling::Flagged(_) => unreachable!(),
        Filling::Done(_) => unreachable!(),
        Filling::Fields(_) => unreachable!(),
    }
}

/// Fills so many values of a node.
#[cycle(run)]
#[tactic(auto, using(crate::proofs::Running::running))]
fn run_items(
    machine: &Machine<'_>,
    calls: u32,
    body: &RecvOps,
    item: u32,
    n: u32,
    view: &mut RecvView<'_>,
) -> Result<Values, Halt>
    requires { Holds (runs (value_run machine.now calls body.now item) n (place_of view.old)) }
    ensures done { Gave (map seen) result (place_of view.new)
        (runs (value_run machine.now calls body.now item) n (place_of view.old)) }
    ensures octets { view.new.octets ≡ view.old.octets }
{
    let mut values = Values::new(machine.alloc);
    for _ in 0..n {
        values.push(run_fresh(machine, calls, body, item, view)?)?;
    }
    Ok(values)
}

/// Fills a number of a node's row or text.
#[cycle(run)]
#[tactic(auto, using(crate::proofs::Running::running))]
fn run_digit(
    machine: &Machine<'_>,
    calls: u32,
    body: &RecvOps,
    id: u32,
    view: &mut RecvView<'_>,
) -> Result<i128, Halt>
    requires { Holds (number_run machine.now calls body.now id (place_of view.old)) }
    ensures done { Gave itself result (place_of view.new)
        (number_run machine.now calls body.now id (place_of view.old)) }
    ensures ranged { IfOk result (λ n. IsInRange (kind_in machine.now id) n) }
    ensures octets { view.new.octets ≡ view.old.octets }
{
    let mut draft = Filling::Digit(id);
    run_block(machine, calls, body, &mut draft, view)?;
    let value = settle(machine.alloc, machine.mint, draft)?;
    match value.as_num() {
        Some(n) => Ok(n),
        None => unreachable!(),
    }
}

/// Fills so many numbers of a node's row or text.
#[cycle(run)]
#[tactic(auto, using(crate::proofs::Running::running))]
fn run_numbers(
    machine: &Machine<'_>,
    calls: u32,
    body: &RecvOps,
    id: u32,
    n: u32,
    view: &mut RecvView<'_>,
) -> Result<Row, Halt>
    requires { Holds (runs (number_run machine.now calls body.now id) n (place_of view.old)) }
    ensures done { Gave numbers_in result (place_of view.new)
        (runs (number_run machine.now calls body.now id) n (place_of view.old)) }
    ensures kind { IfOk result (λ r. r.kind ≡ kind_in machine.now id) }
    ensures octets { view.new.octets ≡ view.old.octets }
{
    let mut row = Row::new(machine.alloc, kind_at(machine.mint, id));
    for _ in 0..n {
        row.push(run_digit(machine, calls, body, id, view)?)?;
    }
    Ok(row)
}

/// Fills each element of a list whose length is known.
#[cycle(run)]
#[tactic(auto, using(crate::proofs::Running::running))]
fn run_each(
    machine: &Machine<'_>,
    calls: u32,
    body: &RecvOps,
    part: Filling,
    view: &mut RecvView<'_>,
) -> Result<Filling, Halt>
    requires { Holds (each_run machine.now calls body.now part view.old) }
    ensures done { HasFilled machine.now result view.new (each_run machine.now calls body.now part view.old) }
    ensures octets { view.new.octets ≡ view.old.octets }
{
    match elements_of(machine.mint, &part) {
        Elements::Values(item, n) => {
            let values = run_items(machine, calls, body, item, n, view)?;
            Ok(Filling::Done(Value::Items(values)))
        }
        Elements::Numbers(id, n) => {
            let row = run_numbers(machine, calls, body, id, n, view)?;
            Ok(Filling::Done(Value::Row(row)))
        }
        Elements::Nothing => unreachable!(),
    }
}
