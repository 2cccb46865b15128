//! Each call of code that receives, replaced by the code that it names.

ghost use Rattle.std.specs.Prelude.{◌≡◌, ◌<◌, ◌≤◌, [], length, None, OnOk, IfOk, option_map};
ghost use Rattle.cast_stub.specs.RecvAppend.{append, rebase};
ghost use Rattle.cast_stub.specs.RecvBlock.{finish, op_seen, code_seen, cases_seen};
ghost use Rattle.cast_stub.specs.Got.{sub_at};
ghost use Rattle.copy_inline.specs.RecvCallFree.{HasNoCall};
ghost use Rattle.copy_inline.specs.RecvInlined.{Does, Goes, GoThroughTypes, Turns};
ghost use Rattle.copy_inline.specs.RecvNested.{CasesAre, IsShallow, OfCode, Within};
ghost use Rattle.copy_inline.specs.RecvSpliced.{spliced, inlined, pairs_seen, pairs_spliced};

use crate::inlining::{LEVELS, levels};
use cast_stub::copying::path_after;
use cast_stub::recv_copying::{add, gets_after};
use cast_stub::{Path, RecvCases, RecvCode, RecvLast, RecvOp, RecvOps, RecvSubs};
use kit_base::NoMemory;
use mint::table::NodeId;
use std::alloc::Global;

/// The operations of a code after those of `out`, for the part at the prefix.
#[cycle(inline)]
#[tactic(auto, using(crate::proofs::RecvEmitting::emitting))]
fn put_code(
    alloc: Global,
    subs: &RecvSubs,
    calls: u32,
    nested: u32,
    prefix: &Path,
    code: &RecvOps,
    out: &mut RecvOps,
) -> Result<(), NoMemory>
    requires calls { nested ≤ calls }
    requires levels { IsShallow (sub_at subs.now) nested (code_seen code.now) }
    ensures { OnOk result (code_seen out.new
        ≡ append (code_seen out.old)
        (rebase prefix.now (spliced (inlined (sub_at subs.now) calls) (code_seen code.now)))) }
{
    let inner = nested - 1;
    for op in code.as_slice() {
        put_op(alloc, subs, calls, inner, prefix, op, out)?;
    }
    Ok(())
}

/// The operation after those of `out`, for the part at the prefix.
#[cycle(inline)]
#[tactic(auto, using(crate::proofs::RecvEmitting::emitting))]
fn put_op(
    alloc: Global,
    subs: &RecvSubs,
    calls: u32,
    nested: u32,
    prefix: &Path,
    op: &RecvOp,
    out: &mut RecvOps,
) -> Result<(), NoMemory>
    requires calls { nested < calls }
    requires levels { Within (sub_at subs.now) (IsShallow (sub_at subs.now) nested) (op_seen op.now finish) }
    ensures { OnOk result (code_seen out.new
        ≡ append (code_seen out.old)
        (rebase prefix.now (spliced (inlined (sub_at subs.now) calls) (op_seen op.now finish)))) }
{
    match op {
        RecvOp::Need(n) => add(out, RecvOp::Need(*n)),
        RecvOp::NeedRow(path, unit, extra) => {
            let part = path_after(alloc, prefix, path)?;
            add(out, RecvOp::NeedRow(part, *unit, *extra))
        }
        RecvOp::SkipAny(a) => add(out, RecvOp::SkipAny(*a)),
        RecvOp::SkipZero(a) => add(out, RecvOp::SkipZero(*a)),
        RecvOp::Take(size, gets) => {
            add(out, RecvOp::Take(*size, gets_after(alloc, prefix, gets)?))
        }
        RecvOp::Desc(path, name, size, mul) => {
            let part = path_after(alloc, prefix, path)?;
            add(out, RecvOp::Desc(part, *name, *size, *mul))
        }
        RecvOp::Row(path, order) => {
            add(out, RecvOp::Row(path_after(alloc, prefix, path)?, *order))
        }
        RecvOp::RowWide(path, order) => {
            let part = path_after(alloc, prefix, path)?;
            add(out, RecvOp::RowWide(part, *order))
        }
        RecvOp::Each(path, body) => {
            let inner = body_of(alloc, subs, calls, nested, body)?;
            add(out, RecvOp::Each(path_after(alloc, prefix, path)?, inner))
        }
        RecvOp::Some(path, body) => {
            let inner = body_of(alloc, subs, calls, nested, body)?;
            add(out, RecvOp::Some(path_after(alloc, prefix, path)?, inner))
        }
        RecvOp::Switch(path, cases, other) => {
            let bodies = bodies_of(alloc, subs, calls, nested, cases)?;
            let last = last_of(alloc, subs, calls, nested, other)?;
            let part = path_after(alloc, prefix, path)?;
            add(out, RecvOp::switch(alloc, part, bodies, last)?)
        }
        RecvOp::Call(k, path) => {
            let part = path_after(alloc, prefix, path)?;
            put_called(alloc, subs, calls, nested, &part, *k, out)
        }
    }
}

/// A body, which goes by its own current value.
#[cycle(inline)]
#[tactic(auto, using(crate::proofs::RecvEmitting::emitting))]
fn body_of(
    alloc: Global,
    subs: &RecvSubs,
    calls: u32,
    nested: u32,
    body: &RecvOps,
) -> Result<RecvOps, NoMemory>
    requires calls { nested ≤ calls }
    requires levels { IsShallow (sub_at subs.now) nested (code_seen body.now) }
    ensures { IfOk result
        (λ code. code_seen code ≡ spliced (inlined (sub_at subs.now) calls) (code_seen body.now)) }
{
    let mut inner = RecvOps::new(alloc);
    let here = Path::new(alloc);
    put_code(alloc, subs, calls, nested, &here, body, &mut inner)?;
    Ok(inner)
}

/// The bodies of a switch.
#[cycle(inline)]
#[tactic(auto, using(crate::proofs::RecvEmitting::emitting))]
fn bodies_of(
    alloc: Global,
    subs: &RecvSubs,
    calls: u32,
    nested: u32,
    cases: &RecvCases,
) -> Result<RecvCases, NoMemory>
    requires calls { nested ≤ calls }
    requires levels { CasesAre (IsShallow (sub_at subs.now) nested) (cases_seen cases.now None) }
    ensures { IfOk result
        (λ bodies. pairs_seen bodies ≡ pairs_spliced (inlined (sub_at subs.now) calls) cases.now) }
{
    let mut bodies = RecvCases::new(alloc);
    for case in cases.as_slice() {
        let body = body_of(alloc, subs, calls, nested, &case.1)?;
        bodies.push(case_of(&case.0, body))?;
    }
    Ok(bodies)
}

/// The body of every other number.
#[cycle(inline)]
#[tactic(auto, using(crate::proofs::RecvEmitting::emitting))]
fn last_of(
    alloc: Global,
    subs: &RecvSubs,
    calls: u32,
    nested: u32,
    other: &RecvLast,
) -> Result<Option<RecvOps>, NoMemory>
    requires calls { nested ≤ calls }
    requires levels { CasesAre (IsShallow (sub_at subs.now) nested) (cases_seen [] other.now) }
    ensures { IfOk result (λ last. option_map code_seen last
        ≡ option_map (λ b. spliced (inlined (sub_at subs.now) calls) (code_seen b)) other.now) }
{
    match other {
        Some(body) => Ok(Some(body_of(alloc, subs, calls, nested, body)?)),
        None => Ok(None),
    }
}

/// The code of a number after the operations of `out`, for the part at a path.
#[cycle(inline)]
#[tactic(auto, using(crate::proofs::RecvEmitting::emitting))]
fn put_called(
    alloc: Global,
    subs: &RecvSubs,
    calls: u32,
    nested: u32,
    part: &Path,
    k: u32,
    out: &mut RecvOps,
) -> Result<(), NoMemory>
    requires calls { nested < calls }
    requires levels { OfCode (sub_at subs.now k) (IsShallow (sub_at subs.now) nested) }
    ensures { OnOk result (code_seen out.new
        ≡ append (code_seen out.old) (rebase part.now (inlined (sub_at subs.now) calls k))) }
{
    match subs.get(k as usize) {
        Some(code) => put_code(alloc, subs, calls - 1, nested, part, code, out),
        None => unreachable!(),
    }
}

/// A number and its body.
fn case_of(n: &i128, body: RecvOps) -> (i128, RecvOps)
    ensures number { result.0 ≡ n.now }
    ensures body { result.1 ≡ body }
{
    (*n, body)
}

/// The code of a node, each call replaced by the code that it names. The codes go through the nodes of
/// one table.
pub fn inline_recv(alloc: Global, subs: &RecvSubs, id: NodeId) -> Result<RecvCode, NoMemory>
    // What may be inlined.
    requires id { id < length subs.now }
    requires types { GoThroughTypes subs.now }
    // What the code does.
    ensures same { IfOk result (λ code. Does subs.now id code) }
    // What it has no more.
    ensures subs { IfOk result (λ code. code.subs ≡ []) }
    ensures calls { IfOk result (λ code. HasNoCall (code_seen code.ops)) }
    // How it goes through the type.
    ensures traces { IfOk result (λ code. Goes subs.now id code) }
    ensures turned { IfOk result (λ code. Turns subs.now id code) }
{
    let mut ops = RecvOps::new(alloc);
    let here = Path::new(alloc);
    put_called(alloc, subs, levels(), LEVELS, &here, id, &mut ops)?;
    Ok(RecvCode {
        ops,
        subs: RecvSubs::new(alloc),
    })
}
