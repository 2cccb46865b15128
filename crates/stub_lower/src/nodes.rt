//! The code of each node of a table.

ghost use Rattle.std.specs.Prelude.{◌≡◌, [], length, OnOk, IfOk};
ghost use Rattle.cast_stub.specs.Append.{append};
ghost use Rattle.cast_stub.specs.Block.{stop, each, switch, if_there, code_seen, cases_seen};
ghost use Rattle.cast_stub.specs.Follows.{AllFollow};
ghost use Rattle.cast_stub.specs.Rowless.{HaveNoRow};
ghost use Rattle.cast_stub.specs.Turned.{AllTurned};
ghost use Rattle.mint.specs.Types.{label, scalar_of};
ghost use Rattle.stub_lower.specs.Codes.{call_here, IsCall, calls_from, cases_at, default_at, flag_code, number_code, tag_code, node_code};
ghost use Rattle.cast_stub.specs.Layouts.{layout_of};
ghost use Rattle.stub_lower.specs.Lowered.{CodesSend};

use crate::leaves::{add_count, add_number, add_row, add_scalar, add_text};
use crate::ops::call_of;
use crate::units::number_at;
use cast_stub::copies::case_of;
use cast_stub::copying::{add, path_of};
use cast_stub::layouts::{order_of, width_of};
use cast_stub::{Path, Put, SendCases, SendOp, SendOps, SendSubs};
use kit_base::NoMemory;
use mint::kind::Kind;
use mint::node::{Arms, Labels, Node, NodeIds, Tag};
use mint::table::Mint;
use std::alloc::Global;
use wire_def::Encoding;

/// The codes that send the nodes of a table, each at its node's place; a node's parts are calls of
/// their codes.
pub fn lower(alloc: Global, enc: Encoding, mint: &Mint) -> Result<SendSubs, NoMemory>
    ensures many { IfOk result (λ subs. length subs ≡ length mint.now) }
    ensures means { IfOk result (λ subs. CodesSend enc mint.now subs) }
    ensures follows { IfOk result (λ subs. AllFollow mint.now subs) }
    ensures rows { IfOk result (λ subs. AllTurned (layout_of enc) mint.now subs) }
    ensures no_row { IfOk result HaveNoRow }
{
    let mut subs = SendSubs::new(alloc);
    let count = mint.len() as u32;
    for id in 0..count {
        match mint.node(id) {
            Some(node) => subs.push(node_code(alloc, enc, node)?)?,
            None => unreachable!(),
        }
    }
    Ok(subs)
}

/// The code of a node.
#[tactic(auto, using(crate::proofs::Building::building))]
fn node_code(alloc: Global, enc: Encoding, node: &Node) -> Result<SendOps, NoMemory>
    ensures { IfOk result (λ code. code_seen code ≡ node_code enc node.now) }
{
    let mut out = SendOps::new(alloc);
    match node {
        Node::Void => {}
        Node::Num(kind) => add_number(alloc, enc, *kind, &mut out)?,
        Node::Enum(labels) => add_label(alloc, enc, labels, &mut out)?,
        Node::Text(count) => add_text(alloc, enc, *count, &mut out)?,
        Node::Row(kind, count) => add_row(alloc, enc, *kind, *count, &mut out)?,
        Node::Group(ids) => add_calls(alloc, ids, &mut out)?,
        Node::Items(id, count) => {
            add_count(alloc, enc, *count, &mut out)?;
            add_each(alloc, *id, &mut out)?
        }
        Node::Choice(tag, arms, other) => {
            add_tag(alloc, enc, tag, &mut out)?;
            add_switch(alloc, arms, *other, &mut out)?
        }
        Node::Maybe(id) => {
            add_flag(alloc, enc, &mut out)?;
            add_value(alloc, *id, &mut out)?
        }
    }
    Ok(out)
}

/// Puts a call for each field.
#[tactic(auto, using(crate::proofs::Building::building))]
fn add_calls(alloc: Global, ids: &NodeIds, out: &mut SendOps) -> Result<(), NoMemory>
    ensures { OnOk result (code_seen out.new ≡ append (code_seen out.old) (calls_from 0 ids.now)) }
{
    for (i, id) in ids.as_slice().iter().enumerate() {
        match u32::try_from(i) {
            Ok(n) => add(out, SendOp::Call(*id, path_of(alloc, n)?))?,
            Err(_) => return Err(NoMemory),
        }
    }
    Ok(())
}

/// Puts a call for each element.
#[tactic(auto, using(crate::proofs::Building::building))]
fn add_each(alloc: Global, id: u32, out: &mut SendOps) -> Result<(), NoMemory>
    ensures { OnOk result (code_seen out.new ≡ append (code_seen out.old) (each [] (call_here id) stop)) }
{
    let body = call_of(alloc, id)?;
    add(out, SendOp::Each(Path::new(alloc), body))
}

/// Puts a call for the value that may be there.
#[tactic(auto, using(crate::proofs::Building::building))]
fn add_value(alloc: Global, id: u32, out: &mut SendOps) -> Result<(), NoMemory>
    ensures { OnOk result (code_seen out.new ≡ append (code_seen out.old) (if_there [] (call_here id) stop)) }
{
    let body = call_of(alloc, id)?;
    add(out, SendOp::Some(Path::new(alloc), body))
}

/// Puts the code of one of an enum's labels.
#[tactic(auto, using(crate::proofs::Building::labels))]
fn add_label(
    alloc: Global,
    enc: Encoding,
    labels: &Labels,
    out: &mut SendOps,
) -> Result<(), NoMemory>
    ensures { OnOk result
        (code_seen out.new ≡ append (code_seen out.old) (number_code enc (label labels.now))) }
{
    add_number(alloc, enc, Kind::I32, out)
}

/// Puts the code of an arm's number.
#[tactic(auto, using(crate::proofs::Building::labels))]
fn add_tag(alloc: Global, enc: Encoding, tag: &Tag, out: &mut SendOps) -> Result<(), NoMemory>
    ensures { OnOk result
        (code_seen out.new ≡ append (code_seen out.old) (tag_code enc (scalar_of tag.now))) }
{
    let kind = match tag {
        Tag::Num(kind) => *kind,
        Tag::Enum(_) => Kind::I32,
    };
    let put = Put::Tag(
        number_at(enc),
        Path::new(alloc),
        width_of(enc, kind),
        order_of(enc),
    );
    add_scalar(alloc, enc, kind, put, out)
}

/// Puts the code that says whether a value is there.
#[tactic(auto, using(crate::proofs::Building::building))]
fn add_flag(alloc: Global, enc: Encoding, out: &mut SendOps) -> Result<(), NoMemory>
    ensures { OnOk result (code_seen out.new ≡ append (code_seen out.old) (flag_code enc)) }
{
    let width = width_of(enc, Kind::Bool);
    let put = Put::Flag(number_at(enc), Path::new(alloc), width, order_of(enc));
    add_scalar(alloc, enc, Kind::Bool, put, out)
}

/// Puts a switch with a call for each arm, and one for the last.
#[tactic(auto, using(crate::proofs::Building::building))]
fn add_switch(
    alloc: Global,
    arms: &Arms,
    other: Option<u32>,
    out: &mut SendOps,
) -> Result<(), NoMemory>
    ensures { OnOk result
        (code_seen out.new ≡ append (code_seen out.old) (switch [] (cases_at arms.now other) stop)) }
{
    let mut cases = SendCases::new(alloc);
    for (n, id) in arms.as_slice() {
        cases.push(call_for(alloc, n, *id)?)?;
    }
    let default = default_of(alloc, other)?;
    let switch = SendOp::switch(alloc, Path::new(alloc), cases, default)?;
    add(out, switch)
}

/// The call of the last arm, if there is one.
#[tactic(auto, using(crate::proofs::Building::building))]
fn default_of(alloc: Global, other: Option<u32>) -> Result<Option<SendOps>, NoMemory>
    ensures { IfOk result (λ code. cases_seen [] code ≡ default_at other) }
{
    match other {
        Some(id) => Ok(Some(call_of(alloc, id)?)),
        None => Ok(None),
    }
}

/// A call of a node's code, which is the body of a number.
fn call_for(alloc: Global, n: &i128, id: u32) -> Result<(i128, SendOps), NoMemory>
    ensures { IfOk result (λ c. IsCall c n.now id) }
{
    let body = call_of(alloc, id)?;
    Ok(case_of(n, body))
}
