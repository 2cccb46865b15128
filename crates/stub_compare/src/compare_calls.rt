//! At which node each code of a list is called.

ghost use Rattle.std.specs.Prelude.{◌≡◌, true, Some, None, IfOk, IfSome, length, map, option_map, replicate, vec_len};
ghost use Rattle.cast_stub.specs.Block.{cases_seen, code_seen, op_seen};
ghost use Rattle.stub_flat.specs.Places.{node_of};
ghost use Rattle.stub_flat.specs.Flat.{all_noted, calls, calls_of_known, noted, spots, way_calls};
ghost use Rattle.stub_compare.specs.CompareTold.{IsNotedThrough, IsTold, body_calls};

use crate::compare_steps::steps_in;
use cast_stub::{SendCases, SendCode, SendLast, SendOp, SendOps, SendSubs};
use kit_base::NoMemory;
use mint::table::{Mint, NodeId};
use std::alloc::Global;
use stub_places::{Spot, arm_spot_at, element_at, present_at, rest_spot_at, spend, spot_at};

/// Notes at which node a code is called, if that is one node.
fn note(nodes: &mut Vec<Spot>, k: u32, spot: Spot) -> bool
    ensures noted { IsTold result (noted (k, spot) nodes.old.items) (λ ts. ts ≡ nodes.new.items) }
    ensures len { vec_len nodes.new ≡ vec_len nodes.old }
{
    let at = k as usize;
    if at >= nodes.len() {
        return true;
    }
    let Some(id) = spot else {
        return false;
    };
    match nodes[at] {
        Some(other) => id == other,
        None => {
            nodes[at] = Some(id);
            true
        }
    }
}

/// Notes the calls of operations.
#[cycle(note)]
fn note_ops(mint: &Mint, spot: Spot, ops: &SendOps, nodes: &mut Vec<Spot>) -> bool
    ensures noted { IsTold result (all_noted (calls mint.now spot (code_seen ops.now)) nodes.old.items)
        (λ ts. ts ≡ nodes.new.items) }
    ensures len { vec_len nodes.new ≡ vec_len nodes.old }
{
    for op in ops.as_slice() {
        if !note_op(mint, spot, op, nodes) {
            return false;
        }
    }
    true
}

/// Notes the calls of an operation.
#[cycle(note)]
fn note_op(mint: &Mint, spot: Spot, op: &SendOp, nodes: &mut Vec<Spot>) -> bool
    ensures noted { IsNotedThrough result mint.now spot (op_seen op.now) nodes.old.items nodes.new.items }
    ensures len { vec_len nodes.new ≡ vec_len nodes.old }
{
    match op {
        SendOp::Ensure(_) => true,
        SendOp::EnsureRow(_, _, _) => true,
        SendOp::Align(_) => true,
        SendOp::Chunk(_, _) => true,
        SendOp::RowCopy(_) => true,
        SendOp::RowSwap(_) => true,
        SendOp::RowWide(_, _) => true,
        SendOp::Each(path, body) => {
            let inner = element_at(mint, spot_at(mint, path.as_slice(), spot));
            note_ops(mint, inner, body, nodes)
        }
        SendOp::Switch(path, cases, last) => {
            let place = spot_at(mint, path.as_slice(), spot);
            note_ways(mint, place, cases, last, nodes)
        }
        SendOp::Some(path, body) => {
            let inner = present_at(mint, spot_at(mint, path.as_slice(), spot));
            note_ops(mint, inner, body, nodes)
        }
        SendOp::Call(k, path) => note(nodes, *k, spot_at(mint, path.as_slice(), spot)),
        SendOp::Patch(_, _, _) => true,
    }
}

/// Notes the calls of the bodies of a switch over a place.
#[cycle(note)]
fn note_ways(
    mint: &Mint,
    place: Spot,
    cases: &SendCases,
    last: &SendLast,
    nodes: &mut Vec<Spot>,
) -> bool
    ensures noted { IsTold result (all_noted (way_calls mint.now (node_of mint.now place)
        (cases_seen cases.now last.now) (cases_seen cases.now last.now)) nodes.old.items)
        (λ ts. ts ≡ nodes.new.items) }
    ensures len { vec_len nodes.new ≡ vec_len nodes.old }
{
    for case in cases.as_slice() {
        let spot = arm_spot_at(mint, place, &case.0);
        if !note_ops(mint, spot, &case.1, nodes) {
            return false;
        }
    }
    match last {
        Some(body) => {
            let spot = rest_spot_at(mint, place, cases);
            note_ops(mint, spot, body, nodes)
        }
        None => true,
    }
}

/// Notes the calls of a code, where its node is known.
fn note_body(mint: &Mint, spot: Spot, body: &SendOps, nodes: &mut Vec<Spot>) -> bool
    ensures noted { IsTold result (all_noted (body_calls mint.now spot (code_seen body.now)) nodes.old.items)
        (λ ts. ts ≡ nodes.new.items) }
    ensures len { vec_len nodes.new ≡ vec_len nodes.old }
{
    match spot {
        Some(_) => note_ops(mint, spot, body, nodes),
        None => true,
    }
}

/// Notes the calls of the codes whose nodes are known.
fn note_known(mint: &Mint, subs: &SendSubs, known: &[Spot], nodes: &mut Vec<Spot>) -> bool
    requires { length known.now ≡ length subs.now }
    ensures noted { IsTold result
        (all_noted (calls_of_known mint.now (map code_seen subs.now) known.now) nodes.old.items)
        (λ ts. ts ≡ nodes.new.items) }
    ensures len { vec_len nodes.new ≡ vec_len nodes.old }
{
    for (i, body) in subs.as_slice().iter().enumerate() {
        let spot = known[i];
        if !note_body(mint, spot, body, nodes) {
            return false;
        }
    }
    true
}

/// The nodes with those of the calls of the codes whose nodes are known.
fn next_round(
    alloc: Global,
    mint: &Mint,
    subs: &SendSubs,
    nodes: &[Spot],
) -> Result<Option<Vec<Spot>>, NoMemory>
    requires { length nodes.now ≡ length subs.now }
    ensures found { IfOk result (λ found. option_map (λ v. v.items) found
        ≡ all_noted (calls_of_known mint.now (map code_seen subs.now) nodes.now) nodes.now) }
    ensures len { IfOk result (λ found. IfSome found (λ v. vec_len v ≡ length subs.now)) }
{
    let mut next = Vec::from_slice(alloc, nodes)?;
    let told = note_known(mint, subs, nodes, &mut next);
    if told { Ok(Some(next)) } else { Ok(None) }
}

/// The node at which each code of the list is called, from the code itself on. Each round takes a step for each operation.
pub fn find_spots(
    alloc: Global,
    mint: &Mint,
    id: NodeId,
    code: &SendCode,
    left: &mut u64,
) -> Result<Option<Vec<Spot>>, NoMemory>
    ensures found { IfOk result (λ found. option_map (λ v. v.items) found
        ≡ spots mint.now (Some id) (code_seen code.now.ops) (map code_seen code.now.subs)) }
    ensures len { IfOk result (λ found. IfSome found (λ v. vec_len v ≡ length code.now.subs)) }
{
    let steps = steps_in(code).calls;
    spend(left, steps)?;
    let mut nodes = unknown(alloc, code.subs.len())?;
    if !note_ops(mint, Some(id), &code.ops, &mut nodes) {
        return Ok(None);
    }
    for _ in 0..code.subs.len() {
        spend(left, steps)?;
        let round = next_round(alloc, mint, &code.subs, nodes.as_slice())?;
        let Some(next) = round else {
            return Ok(None);
        };
        if are_same(nodes.as_slice(), next.as_slice()) {
            return Ok(Some(nodes));
        }
        nodes = next;
    }
    Ok(Some(nodes))
}

fn are_same(a: &[Spot], b: &[Spot]) -> bool
    ensures { result ≡ true → a.now ≡ b.now }
{
    a == b
}

/// No node of so many codes.
fn unknown(alloc: Global, n: usize) -> Result<Vec<Spot>, NoMemory>
    ensures { IfOk result (λ v. v.items ≡ replicate n None) }
{
    let mut nodes = Vec::with_capacity(alloc, n)?;
    while nodes.len() < n {
        nodes.push(None)?;
    }
    Ok(nodes)
}
