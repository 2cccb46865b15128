//! Codes that an earlier operation has, for an operation of which the same is promised.

ghost use Rattle.std.specs.Prelude.{◌≡◌, ◌<◌, ◌≤◌, ℕ, length, IfOk, IfSome, true};
ghost use Rattle.mint.specs.Types.{type_at};
ghost use Rattle.head_arms.specs.Raised.{exceptions};
ghost use Rattle.stub_codes.specs.Backs.{encoding, other_encoding, reply_form, IsMinorOver};
ghost use Rattle.stub_codes.specs.Distinct.{AreSame};
ghost use Rattle.stub_codes.specs.Messages.{request_type};
ghost use Rattle.stub_codes.specs.Receiving.{Receives, ReceivesOther};
ghost use Rattle.stub_codes.specs.Replies.{arm_type, HasArm};
ghost use Rattle.stub_codes.specs.Sending.{Sends};
ghost use Rattle.stub_codes.specs.Stubs.{AreReplying, AreStubs};

use crate::arms::arm_node;
use crate::compile::request_of;
use crate::distinct::{Distinct, number_in};
use crate::stub::{Stub, Stubs};
use cast_stub::{RecvCode, SendCode};
use head_arms::exceptions_of;
use kit_base::NoMemory;
use kit_shared::Shared;
use mint::table::NodeId;
use pres::Bound;
use std::alloc::Global;
use wire_def::Back;

/// Which operations had codes made for a type, by numbers that prove nothing.
#[derive(Drop)]
pub(crate) struct Earlier {
    /// For each type, an operation of whose requests it is.
    requests: Vec<u32>,
    /// For each slot, an operation that has such a reply.
    replies: Vec<u32>,
}

/// The number of no operation.
const NONE: u32 = u32::MAX;

impl Earlier {
    /// None yet, for so many types and so many operations.
    pub(crate) fn new(alloc: Global, types: usize, ops: usize) -> Result<Earlier, NoMemory> {
        Ok(Earlier {
            requests: vec![in alloc; NONE; types]?,
            replies: vec![in alloc; NONE; types.saturating_add(ops)]?,
        })
    }

    /// An operation whose requests are perhaps of a type.
    pub(crate) fn request(&self, id: NodeId) -> u32 {
        number_in(self.requests.as_slice(), id)
    }

    /// Keeps an operation whose requests are of a type.
    pub(crate) fn keep_request(&mut self, id: NodeId, op: u32) {
        let at = id as usize;
        if at < self.requests.len() {
            self.requests[at] = op;
        }
    }

    /// An operation that perhaps has a reply with an arm, a type and a head of this mark.
    pub(crate) fn reply(&self, id: NodeId, arm: u32, lead: u32) -> u32 {
        let at = slot_of(self.replies.len(), id, arm, lead);
        match self.replies.get(at) {
            Some(op) => *op,
            None => NONE,
        }
    }

    /// Keeps an operation that has such a reply.
    pub(crate) fn keep_reply(&mut self, id: NodeId, arm: u32, lead: u32, op: u32) {
        let at = slot_of(self.replies.len(), id, arm, lead);
        if at < self.replies.len() {
            self.replies[at] = op;
        }
    }
}

/// The slot of an arm with a type and a head's mark, among so many.
fn slot_of(slots: usize, id: NodeId, arm: u32, lead: u32) -> usize {
    let mark = arm
        .wrapping_mul(2654435761)
        .wrapping_add(lead.wrapping_mul(40503));
    if slots == 0 {
        0
    } else {
        mark.wrapping_add(id) as usize % slots
    }
}

/// A number of the head of an operation's replies with an arm, which heads that differ seldom have.
pub(crate) fn lead_mark(bound: &Bound, op: u32, arm: u32) -> u32
    requires { op < length bound.now.ops }
{
    match bound.back() {
        Back::Xdr | Back::Mach => u32::from(exceptions_of(bound, op) > 0),
        Back::CdrBig | Back::CdrLittle => back_cdr::lead_mark(bound, op, arm),
    }
}

/// The type of what goes into an operation, by its number.
pub(crate) fn request_type_of(bound: &Bound, types: &Distinct, op: u32) -> NodeId
    requires op { op < length bound.now.ops }
    requires many { length types.now.ids ≡ length bound.now.nodes }
    requires same { AreSame types.now.mint bound.now.nodes types.now.ids }
    ensures id { result < length types.now.mint }
    ensures type_ { type_at types.now.mint result ≡ request_type bound.now op }
{
    number_in(types.ids.as_slice(), request_of(bound, op))
}

/// The type of the value of an arm of what comes back from an operation, by its number.
pub(crate) fn arm_type_of(bound: &Bound, types: &Distinct, op: u32, arm: u32) -> NodeId
    requires op { op < length bound.now.ops }
    requires arm { HasArm bound.now op arm }
    requires many { length types.now.ids ≡ length bound.now.nodes }
    requires same { AreSame types.now.mint bound.now.nodes types.now.ids }
    ensures id { result < length types.now.mint }
    ensures type_ { type_at types.now.mint result ≡ arm_type bound.now op arm }
{
    number_in(types.ids.as_slice(), arm_node(bound, op, arm))
}

/// The stub of an earlier operation whose requests are of the same type, where the number is one's.
pub(crate) fn with_request<'a>(
    bound: &Bound,
    types: &Distinct,
    stubs: &'a Stubs,
    _minor: u8,
    p: u32,
    op: u32,
) -> Option<&'a Stub>
    requires op { op < length bound.now.ops }
    requires many { length types.now.ids ≡ length bound.now.nodes }
    requires same { AreSame types.now.mint bound.now.nodes types.now.ids }
    requires few { length stubs.now ≤ length bound.now.ops }
    requires stubs { AreStubs bound.now _minor stubs.now }
    ensures recv { IfSome result
        (λ s. Receives (encoding bound.now.back) (request_type bound.now op) s.now.recv) }
    ensures other { IfSome result
        (λ s. ReceivesOther (other_encoding bound.now.back) (request_type bound.now op) s.now.other) }
{
    match stubs.get(p as usize) {
        Some(stub) => {
            if request_type_of(bound, types, p) == request_type_of(bound, types, op) {
                Some(stub)
            } else {
                None
            }
        }
        None => None,
    }
}

/// Whether both operations raise exceptions, or neither does.
fn raise_alike(bound: &Bound, op: u32, p: u32) -> bool
    requires op { op < length bound.now.ops }
    requires p { p < length bound.now.ops }
    ensures there { result ≡ true → exceptions bound.now op ≡ 0 → exceptions bound.now p ≡ 0 }
    ensures here { result ≡ true → exceptions bound.now p ≡ 0 → exceptions bound.now op ≡ 0 }
{
    if exceptions_of(bound, op) == 0 {
        exceptions_of(bound, p) == 0
    } else {
        exceptions_of(bound, p) > 0
    }
}

/// Whether the heads of replies to two operations with an arm are known to be the same but for the id: over ONC and Mach
/// they say the arm where exceptions are raised, and over CDR the exception's id.
fn have_one_lead(bound: &Bound, op: u32, p: u32, arm: u32) -> bool
    requires op { op < length bound.now.ops }
    requires p { p < length bound.now.ops }
    ensures { result ≡ true → (m : ℕ) → reply_form bound.now m op arm ≡ reply_form bound.now m p arm }
{
    match bound.back() {
        Back::Xdr | Back::Mach => raise_alike(bound, op, p),
        Back::CdrBig | Back::CdrLittle => back_cdr::have_one_lead(bound, op, p, arm),
    }
}

/// The code of an earlier operation that sends the replies to an operation with an arm, in a version, where the numbers
/// are one's.
pub(crate) fn with_reply<'a>(
    bound: &Bound,
    types: &Distinct,
    stubs: &'a Stubs,
    _lead: u8,
    p: u32,
    op: u32,
    arm: u32,
    minor: u8,
) -> Option<&'a Shared<SendCode>>
    requires op { op < length bound.now.ops }
    requires arm { HasArm bound.now op arm }
    requires minor { IsMinorOver bound.now.back minor }
    requires many { length types.now.ids ≡ length bound.now.nodes }
    requires same { AreSame types.now.mint bound.now.nodes types.now.ids }
    requires few { length stubs.now ≤ length bound.now.ops }
    requires stubs { AreStubs bound.now _lead stubs.now }
    requires replying { AreReplying bound.now stubs.now }
    ensures { IfSome result (λ c. Sends bound.now.back (reply_form bound.now minor op arm)
        (arm_type bound.now op arm) c.now) }
{
    let Some(stub) = stubs.get(p as usize) else {
        return None;
    };
    let Some(code) = stub.replies_in(minor).get(arm as usize) else {
        return None;
    };
    if have_one_lead(bound, op, p, arm)
        && arm_type_of(bound, types, p, arm) == arm_type_of(bound, types, op, arm)
    {
        Some(code)
    } else {
        None
    }
}
