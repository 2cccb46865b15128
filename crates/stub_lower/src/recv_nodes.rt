//! The code of each node of a table.

ghost use Rattle.std.specs.Prelude.{◌≡◌, [], length, OnOk, IfOk};
ghost use Rattle.cast_stub.specs.RecvAppend.{append};
ghost use Rattle.cast_stub.specs.RecvBlock.{finish, each, switch, if_there, code_seen, cases_seen};
ghost use Rattle.cast_stub.specs.Traces.{AllTrace, AllTurned};
ghost use Rattle.mint.specs.Types.{label, scalar_of};
ghost use Rattle.stub_lower.specs.RecvCodes.{call_here, IsCall, calls_from, cases_at, default_at, flag_code, number_code, tag_code, node_code};
ghost use Rattle.cast_stub.specs.Layouts.{layout_of};
ghost use Rattle.stub_lower.specs.RecvLowered.{CallsReceive, CodesReceive};

use crate::recv_leaves::{add_count, add_number, add_row, add_scalar, add_text};
use crate::recv_ops::call_of;
use crate::units::number_at;
use cast_stub::copying::path_of;
use cast_stub::layouts::{order_of, width_of};
use cast_stub::recv_copying::add;
use cast_stub::{Get, Path, RecvCases, RecvOp, RecvOps, RecvSubs};
use kit_base::NoMemory;
use mint::kind::Kind;
use mint::node::{Arms, Labels, Node, NodeIds, Tag};
use mint::table::Mint;
use std::alloc::Global;
use wire_def::Encoding;

/// The codes that receive the nodes of a table, each at its node's place; a node's parts are calls of
/// their codes.
pub fn lower_recv(alloc: Global, enc: Encoding, mint: &Mint) -> Result<RecvSubs, NoMemory>
    ensures many { IfOk result (λ subs. length subs ≡ length mint.now) }
    ensures sound { IfOk result (λ subs. CodesReceive enc mint.now subs) }
    ensures called { IfOk result (λ subs. CallsReceive enc mint.now subs) }
    ensures traces { IfOk result (λ subs. AllTrace mint.now subs) }
    ensures rows { IfOk result (λ subs. AllTurned (layout_of enc) mint.now subs) }
{
    let mut subs = RecvSubs::new(alloc);
    let count = mint.len() as u32;
    for id in 0..count {
        match mint.node(id) {
            Some(node) => subs.push(node_code(alloc, enc, node)?)?,
            None => unreachable!(),
        }
    }
    Ok(subs)
}

/// The code of a node.
#[tactic(auto, using(crate::proofs::RecvBuilding::building))]
fn node_code(alloc: Global, enc: Encoding, node: &Node) -> Result<RecvOps, NoMemory>
    ensures { IfOk result (λ code. code_seen code ≡ node_code enc node.now) }
{
    let mut out = RecvOps::new(alloc);
    match node {
        Node::Void => {}
        Node::Num(kind) => add_number(alloc, enc, *kind, &mut out)?,
        Node::Enum(labels) => add_label(alloc, enc, labels, &mut out)?,
        Node::Text(count) => add_text(alloc, enc, *count, &mut out)?,
        Node::Row(kind, count) => add_row(alloc, enc, *kind, *count, &mut out)?,
        Node::Group(ids) => add_calls(alloc, ids, &mut out)?,
        Node::Items(id, count) => {
            add_count(alloc, enc, *count, &mut out)?;
            add_each(alloc, *id, &mut out)?
        }
        Node::Choice(tag, arms, other) => {
            add_tag(alloc, enc, tag, &mut out)?;
            add_switch(alloc, arms, *other, &mut out)?
        }
        Node::Maybe(id) => {
            add_flag(alloc, enc, &mut out)?;
            add_value(alloc, *id, &mut out)?
        }
    }
    Ok(out)
}

/// Puts a call for each field.
#[tactic(auto, using(crate::proofs::RecvBuilding::building))]
fn add_calls(alloc: Global, ids: &NodeIds, out: &mut RecvOps) -> Result<(), NoMemory>
    ensures { OnOk result (code_seen out.new ≡ append (code_seen out.old) (calls_from 0 ids.now)) }
{
    for (i, id) in ids.as_slice().iter().enumerate() {
        match u32::try_from(i) {
            Ok(n) => add(out, RecvOp::Call(*id, path_of(alloc, n)?))?,
            Err(_) => return Err(NoMemory),
        }
    }
    Ok(())
}

/// Puts a call for each element.
#[tactic(auto, using(crate::proofs::RecvBuilding::building))]
fn add_each(alloc: Global, id: u32, out: &mut RecvOps) -> Result<(), NoMemory>
    ensures { OnOk result (code_seen out.new ≡ append (code_seen out.old) (each [] (call_here id) finish)) }
{
    let body = call_of(alloc, id)?;
    add(out, RecvOp::Each(Path::new(alloc), body))
}

/// Puts a call for the value that may be there.
#[tactic(auto, using(crate::proofs::RecvBuilding::building))]
fn add_value(alloc: Global, id: u32, out: &mut RecvOps) -> Result<(), NoMemory>
    ensures { OnOk result
        (code_seen out.new ≡ append (code_seen out.old) (if_there [] (call_here id) finish)) }
{
    let body = call_of(alloc, id)?;
    add(out, RecvOp::Some(Path::new(alloc), body))
}

/// Puts the code of one of an enum's labels.
#[tactic(auto, using(crate::proofs::RecvBuilding::labels))]
fn add_label(
    alloc: Global,
    enc: Encoding,
    labels: &Labels,
    out: &mut RecvOps,
) -> Result<(), NoMemory>
    ensures { OnOk result
        (code_seen out.new ≡ append (code_seen out.old) (number_code enc (label labels.now))) }
{
    add_number(alloc, enc, Kind::I32, out)
}

/// Puts the code of an arm's number.
#[tactic(auto, using(crate::proofs::RecvBuilding::labels))]
fn add_tag(alloc: Global, enc: Encoding, tag: &Tag, out: &mut RecvOps) -> Result<(), NoMemory>
    ensures { OnOk result
        (code_seen out.new ≡ append (code_seen out.old) (tag_code enc (scalar_of tag.now))) }
{
    let kind = match tag {
        Tag::Num(kind) => *kind,
        Tag::Enum(_) => Kind::I32,
    };
    let get = Get::Tag(
        number_at(enc),
        Path::new(alloc),
        width_of(enc, kind),
        order_of(enc),
    );
    add_scalar(alloc, enc, kind, get, out)
}

/// Puts the code that says whether a value is there.
#[tactic(auto, using(crate::proofs::RecvBuilding::building))]
fn add_flag(alloc: Global, enc: Encoding, out: &mut RecvOps) -> Result<(), NoMemory>
    ensures { OnOk result (code_seen out.new ≡ append (code_seen out.old) (flag_code enc)) }
{
    let width = width_of(enc, Kind::Bool);
    let get = Get::Flag(number_at(enc), Path::new(alloc), width, order_of(enc));
    add_scalar(alloc, enc, Kind::Bool, get, out)
}

/// Puts a switch with a call for each arm, and one for the last.
#[tactic(auto, using(crate::proofs::RecvBuilding::building))]
fn add_switch(
    alloc: Global,
    arms: &Arms,
    other: Option<u32>,
    out: &mut RecvOps,
) -> Result<(), NoMemory>
    ensures { OnOk result
        (code_seen out.new ≡ append (code_seen out.old) (switch [] (cases_at arms.now other) finish)) }
{
    let mut cases = RecvCases::new(alloc);
    for (n, id) in arms.as_slice() {
        cases.push(call_for(alloc, n, *id)?)?;
    }
    let default = default_of(alloc, other)?;
    let switch = RecvOp::switch(alloc, Path::new(alloc), cases, default)?;
    add(out, switch)
}

/// The call of the last arm, if there is one.
#[tactic(auto, using(crate::proofs::RecvBuilding::building))]
fn default_of(alloc: Global, other: Option<u32>) -> Result<Option<RecvOps>, NoMemory>
    ensures { IfOk result (λ code. cases_seen [] code ≡ default_at other) }
{
    match other {
        Some(id) => Ok(Some(call_of(alloc, id)?)),
        None => Ok(None),
    }
}

/// A call of a node's code, which is the body of a number.
fn call_for(alloc: Global, n: &i128, id: u32) -> Result<(i128, RecvOps), NoMemory>
    ensures { IfOk result (λ c. IsCall c n.now id) }
{
    let body = call_of(alloc, id)?;
    Ok(case_of(n, body))
}

/// The body of a number.
fn case_of(n: &i128, body: RecvOps) -> (i128, RecvOps)
    ensures number { result.0 ≡ n.now }
    ensures body { result.1 ≡ body }
{
    (*n, body)
}
