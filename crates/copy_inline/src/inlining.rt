//! Each call replaced by the code that it names.

ghost use Rattle.std.specs.Prelude.{◌≡◌, ◌<◌, ◌≤◌, ◌+◌, [], length, None, OnOk, IfOk, option_map};
ghost use Rattle.cast_stub.specs.Append.{append, rebase};
ghost use Rattle.cast_stub.specs.Block.{stop, op_seen, code_seen, cases_seen};
ghost use Rattle.cast_stub.specs.Subs.{sub_at, deepest};
ghost use Rattle.cast_stub.specs.CallFree.{HasNoCall};
ghost use Rattle.cast_stub.specs.Rowless.{HasNoRow};
ghost use Rattle.copy_inline.specs.Inlined.{Does, Goes, GoThroughTypes, Turns};
ghost use Rattle.copy_inline.specs.Nested.{CasesAre, IsShallow, OfCode, Within};
ghost use Rattle.copy_inline.specs.Spliced.{spliced, inlined, pairs_seen, pairs_spliced};

use cast_stub::copies::case_of;
use cast_stub::copying::{add, path_after, puts_after};
use cast_stub::{Path, SendCases, SendCode, SendLast, SendOp, SendOps, SendSubs};
use kit_base::NoMemory;
use mint::table::NodeId;
use std::alloc::Global;

/// How many levels the code of a node has at most: two for each of the 32 levels of a type, a body and
/// the code that it calls, and two for a row.
pub(crate) const LEVELS: u32 = 66;

/// The operations of a code after those of `out`, for the part at the prefix.
#[cycle(inline)]
#[tactic(auto, using(crate::proofs::Emitting::emitting))]
fn put_code(
    alloc: Global,
    subs: &SendSubs,
    calls: u32,
    nested: u32,
    prefix: &Path,
    code: &SendOps,
    out: &mut SendOps,
) -> Result<(), NoMemory>
    requires calls { nested ≤ calls }
    requires levels { IsShallow (sub_at subs.now) nested (code_seen code.now) }
    ensures { OnOk result (code_seen out.new
        ≡ append (code_seen out.old)
        (rebase prefix.now (spliced (inlined (sub_at subs.now) calls) (code_seen code.now)))) }
{
    let inner = nested - 1;
    for op in code.as_slice() {
        put_op(alloc, subs, calls, inner, prefix, op, out)?;
    }
    Ok(())
}

/// The operation after those of `out`, for the part at the prefix.
#[cycle(inline)]
#[tactic(auto, using(crate::proofs::Emitting::emitting))]
fn put_op(
    alloc: Global,
    subs: &SendSubs,
    calls: u32,
    nested: u32,
    prefix: &Path,
    op: &SendOp,
    out: &mut SendOps,
) -> Result<(), NoMemory>
    requires calls { nested < calls }
    requires levels { Within (sub_at subs.now) (IsShallow (sub_at subs.now) nested) (op_seen op.now stop) }
    ensures { OnOk result (code_seen out.new
        ≡ append (code_seen out.old)
        (rebase prefix.now (spliced (inlined (sub_at subs.now) calls) (op_seen op.now stop)))) }
{
    match op {
        SendOp::Ensure(n) => add(out, SendOp::Ensure(*n)),
        SendOp::EnsureRow(path, unit, extra) => {
            add(
                out,
                SendOp::EnsureRow(path_after(alloc, prefix, path)?, *unit, *extra),
            )
        }
        SendOp::Align(a) => add(out, SendOp::Align(*a)),
        SendOp::Chunk(size, puts) => {
            add(out, SendOp::Chunk(*size, puts_after(alloc, prefix, puts)?))
        }
        SendOp::RowCopy(path) => add(out, SendOp::RowCopy(path_after(alloc, prefix, path)?)),
        SendOp::RowSwap(path) => add(out, SendOp::RowSwap(path_after(alloc, prefix, path)?)),
        SendOp::RowWide(path, order) => {
            add(
                out,
                SendOp::RowWide(path_after(alloc, prefix, path)?, *order),
            )
        }
        SendOp::Each(path, body) => {
            let inner = body_of(alloc, subs, calls, nested, body)?;
            add(out, SendOp::Each(path_after(alloc, prefix, path)?, inner))
        }
        SendOp::Some(path, body) => {
            let inner = body_of(alloc, subs, calls, nested, body)?;
            add(out, SendOp::Some(path_after(alloc, prefix, path)?, inner))
        }
        SendOp::Switch(path, cases, other) => {
            let bodies = bodies_of(alloc, subs, calls, nested, cases)?;
            let last = last_of(alloc, subs, calls, nested, other)?;
            let part = path_after(alloc, prefix, path)?;
            add(out, SendOp::switch(alloc, part, bodies, last)?)
        }
        SendOp::Call(k, path) => {
            let part = path_after(alloc, prefix, path)?;
            put_called(alloc, subs, calls, nested, &part, *k, out)
        }
        SendOp::Patch(at, sub, order) => add(out, SendOp::Patch(*at, *sub, *order)),
    }
}

/// A body, which goes by its own current value.
#[cycle(inline)]
#[tactic(auto, using(crate::proofs::Emitting::emitting))]
fn body_of(
    alloc: Global,
    subs: &SendSubs,
    calls: u32,
    nested: u32,
    body: &SendOps,
) -> Result<SendOps, NoMemory>
    requires calls { nested ≤ calls }
    requires levels { IsShallow (sub_at subs.now) nested (code_seen body.now) }
    ensures { IfOk result
        (λ code. code_seen code ≡ spliced (inlined (sub_at subs.now) calls) (code_seen body.now)) }
{
    let mut inner = SendOps::new(alloc);
    let here = Path::new(alloc);
    put_code(alloc, subs, calls, nested, &here, body, &mut inner)?;
    Ok(inner)
}

/// The bodies of a switch.
#[cycle(inline)]
#[tactic(auto, using(crate::proofs::Emitting::emitting))]
fn bodies_of(
    alloc: Global,
    subs: &SendSubs,
    calls: u32,
    nested: u32,
    cases: &SendCases,
) -> Result<SendCases, NoMemory>
    requires calls { nested ≤ calls }
    requires levels { CasesAre (IsShallow (sub_at subs.now) nested) (cases_seen cases.now None) }
    ensures { IfOk result
        (λ bodies. pairs_seen bodies ≡ pairs_spliced (inlined (sub_at subs.now) calls) cases.now) }
{
    let mut bodies = SendCases::new(alloc);
    for case in cases.as_slice() {
        let body = body_of(alloc, subs, calls, nested, &case.1)?;
        bodies.push(case_of(&case.0, body))?;
    }
    Ok(bodies)
}

/// The body of every other number.
#[cycle(inline)]
#[tactic(auto, using(crate::proofs::Emitting::emitting))]
fn last_of(
    alloc: Global,
    subs: &SendSubs,
    calls: u32,
    nested: u32,
    other: &SendLast,
) -> Result<Option<SendOps>, NoMemory>
    requires calls { nested ≤ calls }
    requires levels { CasesAre (IsShallow (sub_at subs.now) nested) (cases_seen [] other.now) }
    ensures { IfOk result (λ last. option_map code_seen last
        ≡ option_map (λ b. spliced (inlined (sub_at subs.now) calls) (code_seen b)) other.now) }
{
    match other {
        Some(body) => Ok(Some(body_of(alloc, subs, calls, nested, body)?)),
        None => Ok(None),
    }
}

/// The code of a number after the operations of `out`, for the part at a path.
#[cycle(inline)]
#[tactic(auto, using(crate::proofs::Emitting::emitting))]
fn put_called(
    alloc: Global,
    subs: &SendSubs,
    calls: u32,
    nested: u32,
    part: &Path,
    k: u32,
    out: &mut SendOps,
) -> Result<(), NoMemory>
    requires calls { nested < calls }
    requires levels { OfCode (sub_at subs.now k) (IsShallow (sub_at subs.now) nested) }
    ensures { OnOk result (code_seen out.new
        ≡ append (code_seen out.old) (rebase part.now (inlined (sub_at subs.now) calls k))) }
{
    match subs.get(k as usize) {
        Some(code) => put_code(alloc, subs, calls - 1, nested, part, code, out),
        None => unreachable!(),
    }
}

/// How many calls are nested at most, and the code itself.
pub(crate) fn levels() -> u32
    ensures is { result ≡ 1 + deepest }
    ensures few { 66 < result }
{
    4097
}

/// The code of a node, each call replaced by the code that it names. The codes go through the nodes of
/// one table.
pub fn inline(alloc: Global, subs: &SendSubs, id: NodeId) -> Result<SendCode, NoMemory>
    // What may be inlined.
    requires id { id < length subs.now }
    requires types { GoThroughTypes subs.now }
    // What the code does.
    ensures steps { IfOk result (λ code. Does subs.now id code) }
    // What it has no more.
    ensures subs { IfOk result (λ code. code.subs ≡ []) }
    ensures calls { IfOk result (λ code. HasNoCall (code_seen code.ops)) }
    ensures no_row { IfOk result HasNoRow }
    // How it goes through the type.
    ensures follows { IfOk result (λ code. Goes subs.now id code) }
    ensures turned { IfOk result (λ code. Turns subs.now id code) }
{
    let mut ops = SendOps::new(alloc);
    let here = Path::new(alloc);
    put_called(alloc, subs, levels(), LEVELS, &here, id, &mut ops)?;
    Ok(SendCode {
        ops,
        subs: SendSubs::new(alloc),
    })
}
