//! The code of each operation of a binding.

ghost use Rattle.std.specs.Prelude.{◌≡◌, ◌<◌, ◌≤◌, ℕ, length, true, IfOk};
ghost use Rattle.mint.specs.Types.{type_at};
ghost use Rattle.stub_lower.specs.Leads.{AreChunks};
ghost use Rattle.stub_codes.specs.Backs.{encoding, other_encoding, IsMinorOver};
ghost use Rattle.stub_codes.specs.Distinct.{AreSame};
ghost use Rattle.stub_codes.specs.Lowered.{AreBodies, AreLowered};
ghost use Rattle.stub_codes.specs.Messages.{request_type};
ghost use Rattle.stub_codes.specs.Receiving.{Receives, ReceivesOther};
ghost use Rattle.stub_codes.specs.Sending.{SendsAfter};
ghost use Rattle.stub_codes.specs.Stubs.{AreReplying, AreStubs, HasReplies, IsStub, replies_in};

use crate::backs::{encoding_of, lead_of, other_of};
use crate::bodies::{Bodies, bodies_of, body_of};
use crate::distinct::{Distinct, distinct_of};
use crate::earlier::{Earlier, request_type_of, with_request};
use crate::lowered::{Lowered, lower_all};
use crate::receiving::{receiving, receiving_other, shared_other};
use crate::replying::replies_in_versions;
use crate::sending::{Body, sending, sending_of};
use crate::stub::{Stub, Stubs};
use cast_stub::{RecvCode, SendCode};
use kit_base::NoMemory;
use kit_shared::Shared;
use mint::table::{Mint, NodeId};
use pres::Bound;
use std::alloc::Global;
use wire_def::Back;

/// The node of what goes into an operation.
pub(crate) fn request_of(bound: &Bound, op: u32) -> NodeId
    requires { op < length bound.now.ops }
    ensures node { result < length bound.now.nodes }
    ensures type_ { type_at bound.now.nodes result ≡ request_type bound.now op }
{
    match bound.ops().get(op as usize) {
        Some(operation) => operation.request,
        None => unreachable!(),
    }
}

/// The codes that receive what goes into an operation, in each order: those of an earlier operation where it is the same.
fn receivers_of(
    alloc: Global,
    bound: &Bound,
    types: &Distinct,
    low: &Lowered,
    stubs: &Stubs,
    p: u32,
    op: u32,
    minor: u8,
) -> Result<(Shared<RecvCode>, Option<Shared<RecvCode>>), NoMemory>
    requires op { op < length bound.now.ops }
    requires many { length types.now.ids ≡ length bound.now.nodes }
    requires same { AreSame types.now.mint bound.now.nodes types.now.ids }
    requires lowered { AreLowered bound.now.back types.now.mint low.now }
    requires few { length stubs.now ≤ length bound.now.ops }
    requires stubs { AreStubs bound.now minor stubs.now }
    ensures recv { IfOk result
        (λ r. Receives (encoding bound.now.back) (request_type bound.now op) r.0) }
    ensures other { IfOk result
        (λ r. ReceivesOther (other_encoding bound.now.back) (request_type bound.now op) r.1) }
{
    match with_request(bound, types, stubs, minor, p, op) {
        Some(stub) => Ok((stub.recv.share()?, shared_other(&stub.other)?)),
        None => {
            let back = bound.back();
            let id = request_type_of(bound, types, op);
            let code = receiving(alloc, encoding_of(back), &low.recvs, &types.mint, id)?;
            let recv = Shared::new(alloc, code)?;
            let other = receiving_other(alloc, other_of(back), &low.others, &types.mint, id)?;
            Ok((recv, other))
        }
    }
}

/// The code that sends the messages of a head and of the values of a type, from the code that is kept of the type where
/// there is some.
fn request_code(
    alloc: Global,
    back: Back,
    lead: SendCode,
    low: &Lowered,
    bodies: &Bodies,
    mint: &Mint,
    id: NodeId,
) -> Result<SendCode, NoMemory>
    requires id { id < length mint.now }
    requires lowered { AreLowered back mint.now low.now }
    requires bodies { AreBodies low.now.sends bodies.now }
    requires chunks { AreChunks lead }
    ensures { IfOk result (λ code. SendsAfter back lead (type_at mint.now id) code) }
{
    match bodies.get(id as usize) {
        Some(Some(body)) => { sending_of(alloc, back, lead, Body::Kept(body), low, mint, id) }
        _ => {
            let body = body_of(alloc, &low.sends, mint, id)?;
            sending(alloc, back, lead, body, low, mint, id)
        }
    }
}

/// The code of an operation, whose requests are sent in a version.
fn stub_of(
    alloc: Global,
    bound: &Bound,
    types: &Distinct,
    low: &Lowered,
    bodies: &Bodies,
    stubs: &Stubs,
    earlier: &mut Earlier,
    op: u32,
    minor: u8,
    answers: bool,
) -> Result<Stub, NoMemory>
    requires op { op < length bound.now.ops }
    requires minor { IsMinorOver bound.now.back minor }
    requires many { length types.now.ids ≡ length bound.now.nodes }
    requires same { AreSame types.now.mint bound.now.nodes types.now.ids }
    requires lowered { AreLowered bound.now.back types.now.mint low.now }
    requires few { length stubs.now ≤ length bound.now.ops }
    requires stubs { AreStubs bound.now minor stubs.now }
    requires replying { answers ≡ true → AreReplying bound.now stubs.now }
    requires bodies { AreBodies low.now.sends bodies.now }
    ensures is { IfOk result (λ stub. IsStub bound.now minor op stub) }
    ensures replies { answers ≡ true → IfOk result (λ stub. (n : ℕ) → IsMinorOver bound.now.back n
        → HasReplies bound.now n op (replies_in stub n)) }
{
    let back = bound.back();
    let id = request_type_of(bound, types, op);
    let lead = lead_of(alloc, bound, op, minor)?;
    let send = request_code(alloc, back, lead, low, bodies, &types.mint, id)?;
    let p = earlier.request(id);
    let (recv, other) = receivers_of(alloc, bound, types, low, stubs, p, op, minor)?;
    earlier.keep_request(id, op);
    let (replies, later) = replies_in_versions(
        alloc, bound, types, low, stubs, earlier, minor, op, answers,
    )?;
    Ok(Stub {
        send,
        recv,
        other,
        replies,
        later,
    })
}

/// The code of each operation, in their order, whose requests are sent in a version, with those of replies where
/// replies are sent. The types are lowered once.
pub(crate) fn stubs_of(
    alloc: Global,
    bound: &Bound,
    minor: u8,
    answers: bool,
) -> Result<Stubs, NoMemory>
    requires { IsMinorOver bound.now.back minor }
    ensures many { IfOk result (λ stubs. length stubs ≡ length bound.now.ops) }
    ensures each { IfOk result (λ stubs. AreStubs bound.now minor stubs) }
    ensures replying { answers ≡ true → IfOk result (λ stubs. AreReplying bound.now stubs) }
{
    let types = distinct_of(alloc, bound.mint())?;
    let low = lower_all(alloc, bound.back(), &types.mint)?;
    let bodies = bodies_of(alloc, bound, &types, &low.sends)?;
    let mut earlier = Earlier::new(alloc, types.mint.len(), bound.ops().len())?;
    let mut stubs = Stubs::with_room(alloc, bound.ops().len())?;
    for i in 0..bound.ops().len() {
        match u32::try_from(i) {
            Ok(op) => {
                let stub = stub_of(
                    alloc,
                    bound,
                    &types,
                    &low,
                    &bodies,
                    &stubs,
                    &mut earlier,
                    op,
                    minor,
                    answers,
                )?;
                stubs.push(stub)?;
            }
            Err(_) => return Err(NoMemory),
        }
    }
    Ok(stubs)
}
