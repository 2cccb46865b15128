//! What differs from one back end to another, from the crate of each.

ghost use Rattle.std.specs.Prelude.{◌≡◌, ◌<◌, length, IfOk, OnOk};
ghost use Rattle.cast_stub.specs.Append.{append};
ghost use Rattle.cast_stub.specs.Block.{code_seen};
ghost use Rattle.cast_stub.specs.Follows.{AllFollow};
ghost use Rattle.cast_stub.specs.Layouts.{layout_of};
ghost use Rattle.cast_stub.specs.Traces as received;
ghost use Rattle.cast_stub.specs.Turned.{AllTurned};
ghost use Rattle.stub_lower.specs.Leads.{AreChunks, Leads};
ghost use Rattle.stub_lower.specs.Lowered.{CodesSend};
ghost use Rattle.stub_lower.specs.RecvLowered.{CodesReceive};
ghost use Rattle.stub_codes.specs.Backs.{encoding, other_encoding, lead, reply_form, reply_head, tail, IsMinorOver};
ghost use Rattle.stub_codes.specs.Replies.{HasArm};

use crate::arms::arms_have_ids;
use cast_stub::copying::add;
use cast_stub::{RecvSubs, SendCode, SendOps, SendSubs};
use kit_base::NoMemory;
use mint::table::Mint;
use pres::Bound;
use std::alloc::Global;
use wire_def::{Back, Encoding, Head, Order};

/// How the bodies of messages that are sent are laid out.
pub fn encoding_of(back: Back) -> Encoding
    ensures { result ≡ encoding back }
{
    match back {
        Back::Xdr => back_xdr::ENCODING,
        Back::CdrBig => Encoding::CdrBig,
        Back::CdrLittle => Encoding::CdrLittle,
        Back::Mach => back_mach::ENCODING,
    }
}

/// How the bodies of messages that are received may be laid out besides.
pub(crate) fn other_of(back: Back) -> Option<Encoding>
    ensures { result ≡ other_encoding back }
{
    match back {
        Back::CdrBig => Some(Encoding::CdrLittle),
        Back::CdrLittle => Some(Encoding::CdrBig),
        Back::Xdr | Back::Mach => None,
    }
}

/// The codes that send the nodes of a table over an encoding, from the crate of its back end.
pub(crate) fn lower_send(alloc: Global, enc: Encoding, mint: &Mint) -> Result<SendSubs, NoMemory>
    ensures many { IfOk result (λ subs. length subs ≡ length mint.now) }
    ensures means { IfOk result (λ subs. CodesSend enc mint.now subs) }
    ensures follows { IfOk result (λ subs. AllFollow mint.now subs) }
    ensures rows { IfOk result (λ subs. AllTurned (layout_of enc) mint.now subs) }
{
    match enc {
        Encoding::Xdr => back_xdr::lower_send(alloc, mint),
        Encoding::CdrBig => back_cdr::lower_send(alloc, mint, Order::Big),
        Encoding::CdrLittle => back_cdr::lower_send(alloc, mint, Order::Little),
        Encoding::Mach => back_mach::lower_send(alloc, mint),
    }
}

/// The codes that receive the nodes of a table over an encoding, from the crate of its back end.
pub(crate) fn lower_recv(alloc: Global, enc: Encoding, mint: &Mint) -> Result<RecvSubs, NoMemory>
    ensures many { IfOk result (λ subs. length subs ≡ length mint.now) }
    ensures sound { IfOk result (λ subs. CodesReceive enc mint.now subs) }
    ensures traces { IfOk result (λ subs. received.AllTrace mint.now subs) }
    ensures rows { IfOk result (λ subs. received.AllTurned (layout_of enc) mint.now subs) }
{
    match enc {
        Encoding::Xdr => back_xdr::lower_recv(alloc, mint),
        Encoding::CdrBig => back_cdr::lower_recv(alloc, mint, Order::Big),
        Encoding::CdrLittle => back_cdr::lower_recv(alloc, mint, Order::Little),
        Encoding::Mach => back_mach::lower_recv(alloc, mint),
    }
}

/// The code of the head of an operation's request in a version.
pub(crate) fn lead_of(
    alloc: Global,
    bound: &Bound,
    op: u32,
    minor: u8,
) -> Result<SendCode, NoMemory>
    requires op { op < length bound.now.ops }
    requires minor { IsMinorOver bound.now.back minor }
    ensures means { IfOk result (λ code. Leads (lead bound.now minor op) code) }
    ensures chunks { IfOk result AreChunks }
{
    match bound.back() {
        Back::Xdr => back_xdr::lead_call(alloc, bound, op),
        Back::CdrBig | Back::CdrLittle => back_cdr::lead_call(alloc, bound, op, minor),
        Back::Mach => back_mach::lead_call(alloc, bound, op),
    }
}

/// The code of the head of a reply to an operation with an arm, in a version. Over Mach its id is that of the head that
/// it is run with, which `reply_head` gives.
pub(crate) fn reply_lead_of(
    alloc: Global,
    bound: &Bound,
    op: u32,
    arm: u32,
    minor: u8,
) -> Result<SendCode, NoMemory>
    requires op { op < length bound.now.ops }
    requires arm { HasArm bound.now op arm }
    requires minor { IsMinorOver bound.now.back minor }
    ensures means { IfOk result (λ code. Leads (reply_form bound.now minor op arm) code) }
    ensures chunks { IfOk result AreChunks }
{
    arms_have_ids(bound, op, arm);
    match bound.back() {
        Back::Xdr => back_xdr::lead_reply(alloc, bound, op, arm),
        Back::CdrBig | Back::CdrLittle => back_cdr::lead_reply(alloc, bound, op, arm, minor),
        Back::Mach => back_mach::lead_reply(alloc, bound, op, arm),
    }
}

/// A head with the id of the reply to an operation, for the code of its replies: over Mach the operation tells it.
pub(crate) fn reply_head(bound: &Bound, op: u32, head: &Head) -> Head
    requires { op < length bound.now.ops }
    ensures { result ≡ reply_head bound.now op head.now }
{
    match bound.back() {
        Back::Xdr | Back::CdrBig | Back::CdrLittle => *head,
        Back::Mach => back_mach::reply_head(bound, op, head),
    }
}

/// Puts the operation that states the length of a message, where its head states it.
#[tactic(auto, using(crate::proofs::Wholes::wholes))]
pub(crate) fn put_tail(back: Back, out: &mut SendOps) -> Result<(), NoMemory>
    ensures { OnOk result (code_seen out.new ≡ append (code_seen out.old) (tail back)) }
{
    match back {
        Back::Xdr => Ok(()),
        Back::CdrBig => add(out, back_cdr::size_patch(Back::CdrBig)),
        Back::CdrLittle => add(out, back_cdr::size_patch(Back::CdrLittle)),
        Back::Mach => add(out, back_mach::size_patch()),
    }
}
