//! The code that sends an operation's replies.

ghost use Rattle.std.specs.Prelude.{◌≡◌, ◌<◌, ◌≤◌, ◌==◌, if◌then◌else◌, ℕ, [], length, true, IfOk};
ghost use Rattle.back_cdr.specs.Targets.{IsCdr};
ghost use Rattle.stub_codes.specs.Backs.{reply_form, IsMinorOver};
ghost use Rattle.stub_codes.specs.Distinct.{AreSame};
ghost use Rattle.stub_codes.specs.Lowered.{AreLowered};
ghost use Rattle.stub_codes.specs.Replies.{HasArm, arm_type};
ghost use Rattle.stub_codes.specs.Sending.{Sends};
ghost use Rattle.stub_codes.specs.Stubs.{AreReplying, AreStubs, HasReplies};

use crate::arms::arms_of;
use crate::backs::reply_lead_of;
use crate::bodies::body_of;
use crate::distinct::Distinct;
use crate::earlier::{Earlier, arm_type_of, lead_mark, with_reply};
use crate::lowered::Lowered;
use crate::sending::sending;
use crate::stub::Stubs;
use cast_stub::SendCode;
use kit_base::{Listed, NoMemory};
use kit_shared::Shared;
use pres::Bound;
use std::alloc::Global;
use wire_def::Back;

/// Code made for the replies to an operation with an arm, in a version.
fn made(
    alloc: Global,
    bound: &Bound,
    types: &Distinct,
    low: &Lowered,
    op: u32,
    arm: u32,
    minor: u8,
) -> Result<SendCode, NoMemory>
    requires op { op < length bound.now.ops }
    requires arm { HasArm bound.now op arm }
    requires minor { IsMinorOver bound.now.back minor }
    requires many { length types.now.ids ≡ length bound.now.nodes }
    requires same { AreSame types.now.mint bound.now.nodes types.now.ids }
    requires lowered { AreLowered bound.now.back types.now.mint low.now }
    ensures { IfOk result (λ code.
        Sends bound.now.back (reply_form bound.now minor op arm) (arm_type bound.now op arm) code) }
{
    let lead = reply_lead_of(alloc, bound, op, arm, minor)?;
    let id = arm_type_of(bound, types, op, arm);
    let body = body_of(alloc, &low.sends, &types.mint, id)?;
    sending(alloc, bound.back(), lead, body, low, &types.mint, id)
}

/// The code that sends the replies to an operation with an arm, in a version: that of an earlier operation where it is
/// the same.
fn arm_code(
    alloc: Global,
    bound: &Bound,
    types: &Distinct,
    low: &Lowered,
    stubs: &Stubs,
    earlier: &mut Earlier,
    lead: u8,
    op: u32,
    arm: u32,
    minor: u8,
) -> Result<Shared<SendCode>, NoMemory>
    requires op { op < length bound.now.ops }
    requires arm { HasArm bound.now op arm }
    requires minor { IsMinorOver bound.now.back minor }
    requires many { length types.now.ids ≡ length bound.now.nodes }
    requires same { AreSame types.now.mint bound.now.nodes types.now.ids }
    requires lowered { AreLowered bound.now.back types.now.mint low.now }
    requires few { length stubs.now ≤ length bound.now.ops }
    requires stubs { AreStubs bound.now lead stubs.now }
    requires replying { AreReplying bound.now stubs.now }
    ensures { IfOk result (λ code.
        Sends bound.now.back (reply_form bound.now minor op arm) (arm_type bound.now op arm) code) }
{
    let id = arm_type_of(bound, types, op, arm);
    let mark = lead_mark(bound, op, arm);
    let p = earlier.reply(id, arm, mark);
    match with_reply(bound, types, stubs, lead, p, op, arm, minor) {
        Some(code) => code.share(),
        None => {
            earlier.keep_reply(id, arm, mark, op);
            let code = made(alloc, bound, types, low, op, arm, minor)?;
            Shared::new(alloc, code)
        }
    }
}

/// A list without codes that has room for those of the arms of an operation's reply.
fn room_for(alloc: Global, bound: &Bound, op: u32) -> Result<Listed<Shared<SendCode>>, NoMemory>
    requires { op < length bound.now.ops }
    ensures { IfOk result (λ codes. codes ≡ []) }
{
    Listed::with_room(alloc, arms_of(bound, op).len())
}

/// The code of each arm of an operation's reply in a version, in their order.
pub(crate) fn replies_of(
    alloc: Global,
    bound: &Bound,
    types: &Distinct,
    low: &Lowered,
    stubs: &Stubs,
    earlier: &mut Earlier,
    lead: u8,
    op: u32,
    minor: u8,
) -> Result<Listed<Shared<SendCode>>, NoMemory>
    requires op { op < length bound.now.ops }
    requires minor { IsMinorOver bound.now.back minor }
    requires many { length types.now.ids ≡ length bound.now.nodes }
    requires same { AreSame types.now.mint bound.now.nodes types.now.ids }
    requires lowered { AreLowered bound.now.back types.now.mint low.now }
    requires few { length stubs.now ≤ length bound.now.ops }
    requires stubs { AreStubs bound.now lead stubs.now }
    requires replying { AreReplying bound.now stubs.now }
    ensures each { IfOk result (λ codes. HasReplies bound.now minor op codes) }
    ensures arms { IfOk result (λ codes. (k : ℕ) → k < length codes → HasArm bound.now op k) }
{
    let mut codes = room_for(alloc, bound, op)?;
    for i in 0..arms_of(bound, op).len() {
        match u32::try_from(i) {
            Ok(arm) => codes.push(arm_code(
                alloc, bound, types, low, stubs, earlier, lead, op, arm, minor,
            )?)?,
            Err(_) => return Err(NoMemory),
        }
    }
    Ok(codes)
}

/// The same in version 1.2, where the back end has that.
pub(crate) fn later_of(
    alloc: Global,
    bound: &Bound,
    types: &Distinct,
    low: &Lowered,
    stubs: &Stubs,
    earlier: &mut Earlier,
    lead: u8,
    op: u32,
) -> Result<Listed<Shared<SendCode>>, NoMemory>
    requires op { op < length bound.now.ops }
    requires many { length types.now.ids ≡ length bound.now.nodes }
    requires same { AreSame types.now.mint bound.now.nodes types.now.ids }
    requires lowered { AreLowered bound.now.back types.now.mint low.now }
    requires few { length stubs.now ≤ length bound.now.ops }
    requires stubs { AreStubs bound.now lead stubs.now }
    requires replying { AreReplying bound.now stubs.now }
    ensures each { IfOk result (λ codes. IsCdr bound.now.back → HasReplies bound.now 2 op codes) }
    ensures arms { IfOk result (λ codes. (k : ℕ) → k < length codes → HasArm bound.now op k) }
{
    match bound.back() {
        Back::CdrBig | Back::CdrLittle => {
            replies_of(alloc, bound, types, low, stubs, earlier, lead, op, 2)
        },
        Back::Xdr | Back::Mach => Ok(Listed::new(alloc)),
    }
}

/// The codes of an operation's replies in version 1.0 and in version 1.2: none where no replies are sent.
pub(crate) fn replies_in_versions(
    alloc: Global,
    bound: &Bound,
    types: &Distinct,
    low: &Lowered,
    stubs: &Stubs,
    earlier: &mut Earlier,
    lead: u8,
    op: u32,
    answers: bool,
) -> Result<(Listed<Shared<SendCode>>, Listed<Shared<SendCode>>), NoMemory>
    requires op { op < length bound.now.ops }
    requires many { length types.now.ids ≡ length bound.now.nodes }
    requires same { AreSame types.now.mint bound.now.nodes types.now.ids }
    requires lowered { AreLowered bound.now.back types.now.mint low.now }
    requires few { length stubs.now ≤ length bound.now.ops }
    requires stubs { AreStubs bound.now lead stubs.now }
    requires replying { answers ≡ true → AreReplying bound.now stubs.now }
    ensures arms { IfOk result
        (λ r. (n k : ℕ) → k < length (if n == 0 then r.0 else r.1) → HasArm bound.now op k) }
    ensures each { answers ≡ true → IfOk result (λ r. (n : ℕ) → IsMinorOver bound.now.back n
        → HasReplies bound.now n op (if n == 0 then r.0 else r.1)) }
{
    if !answers {
        return Ok((Listed::new(alloc), Listed::new(alloc)));
    }
    let replies = replies_of(alloc, bound, types, low, stubs, earlier, lead, op, 0)?;
    let later = later_of(alloc, bound, types, low, stubs, earlier, lead, op)?;
    Ok((replies, later))
}
