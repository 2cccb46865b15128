//! Messages as replies.

ghost use Rattle.std.specs.Prelude.{◌≡◌, ◌≢◌, ◌↔◌, ◌<◌, ℕ, pos, length, drop, true, Ok, Err, IfOk, IfErr};
ghost use Rattle.mint.specs.Typed.{IsWellTyped};
ghost use Rattle.mint.specs.Sound.{IsSound};
ghost use Rattle.mint.specs.Values.{Val, seen};
ghost use Rattle.mint.specs.Values as values;
ghost use Rattle.wire_def.specs.declared.fault.FaultKind.{FaultKind};
ghost use Rattle.wire_def.specs.Stops.{Stops};
ghost use Rattle.plain_wire.specs.Answered.{IsValue, IsStop, FirstSpell};
ghost use Rattle.flick_engine.specs.declared.replies.Fate.TheVariants as fates;
ghost use Rattle.flick_engine.specs.Backs.{heard, encoding_by, BeginsReply};
ghost use Rattle.flick_engine.specs.Fates.{is_alone, is_followed, takes_memory};
ghost use Rattle.flick_engine.specs.Received.{IsShort};
ghost use Rattle.flick_engine.specs.Replies.{reply_type, arm_type, HasArm, IsChoice};
ghost use Rattle.flick_engine.specs.RepliesReceived.{answered, Says, AnswersReply, IsExactlyReply, IsTypedCame, TakesMemory, came};

use crate::engine::Engine;
use crate::errors::MessageErr;
use crate::replies::{Fate, Reply};
use kit_base::limits::LONGEST_MESSAGE;
use mint::value::Value;
use plain_wire::{Read, plain_read};
use std::alloc::Global;
use stub_codes::arm_node;
use wire_def::{Outcome, Refusal, ReplyHead};

impl Engine {
    /// Reads a reply to an operation from a message: a value of one of its arms, or a refusal.
    pub fn unmarshal_reply(
        &self,
        alloc: Global,
        op: u32,
        message: &[u8],
    ) -> Result<Reply, MessageErr>
        requires op { op < length self.now.binding.ops }
        ensures read { AnswersReply self.now.binding op message.now result }
        ensures typed { IfOk result (λ r. IsTypedCame (reply_type self.now.binding op) (came r.outcome)) }
        ensures memory { (result ≡ Err MessageErr.NoMemory) → TakesMemory self.now.binding op message.now }
    {
        match self.begin_reply(op, message) {
            Ok(reply) => self.read_reply(alloc, op, &reply, message),
            Err(fault) => Err(fault),
        }
    }

    /// Reads what follows the head of a reply.
    fn read_reply(
        &self,
        alloc: Global,
        op: u32,
        reply: &ReplyHead<'_>,
        message: &[u8],
    ) -> Result<Reply, MessageErr>
        requires op { op < length self.now.binding.ops }
        requires short { IsShort message.now }
        requires begins { BeginsReply self.now.binding op message.now (heard self.now.binding op reply.now) }
        ensures read { AnswersReply self.now.binding op message.now result }
        ensures typed { IfOk result (λ r. IsTypedCame (reply_type self.now.binding op) (came r.outcome)) }
        ensures memory { (result ≡ Err MessageErr.NoMemory)
            → takes_memory (heard self.now.binding op reply.now).fate ≡ true }
    {
        match self.fate(alloc, op, reply.status)? {
            Fate::Arm(arm) => self.read_answer(alloc, op, arm, reply, message),
            Fate::Refused(why) => self.reported_by_refusal(op, why, reply, message),
        }
    }

    /// The head of a reply to an operation. It takes no memory.
    fn begin_reply<'m>(&self, op: u32, message: &'m [u8]) -> Result<ReplyHead<'m>, MessageErr>
        requires op { op < length self.now.binding.ops }
        ensures ok { IfOk result (λ r. IsShort message.now
            × BeginsReply self.now.binding op message.now (heard self.now.binding op r)) }
        ensures err { IfErr result (λ e. IsExactlyReply self.now.binding op message.now (Err e)) }
        ensures memory { result ≢ Err MessageErr.NoMemory }
    {
        if message.len() > LONGEST_MESSAGE {
            return Err(MessageErr::Long);
        }
        match self.read_reply_head(op, message) {
            Ok(reply) => Ok(reply),
            Err(fault) => Err(MessageErr::Head(fault)),
        }
    }

    /// Reads the value of an arm that follows the head of a reply.
    fn read_answer(
        &self,
        alloc: Global,
        op: u32,
        arm: u32,
        reply: &ReplyHead<'_>,
        message: &[u8],
    ) -> Result<Reply, MessageErr>
        requires op { op < length self.now.binding.ops }
        requires says { Says self.now.binding op message.now (heard self.now.binding op reply.now)
            (fates.Arm arm) }
        ensures read { AnswersReply self.now.binding op message.now result }
        ensures typed { IfOk result (λ r. IsTypedCame (reply_type self.now.binding op) (came r.outcome)) }
    {
        self.replies_tell_arms(op);
        let encoding = self.encoding_of(&reply.head);
        let mint = self.bound().mint();
        mint.types_are_sound();
        let id = arm_node(self.bound(), op, arm);
        let read = plain_read(alloc, encoding, mint, id, reply.used, message)?;
        let value = self.reported_by_answer(op, arm, reply, message, read)?;
        let value = Value::arm(alloc, i128::from(arm), value)?;
        Ok(Reply {
            head: reply.head,
            outcome: Outcome::Answer(value),
        })
    }

    /// The value of an arm by the body that was read after the head of a reply. It takes no memory.
    fn reported_by_answer(
        &self,
        op: u32,
        arm: u32,
        reply: &ReplyHead<'_>,
        message: &[u8],
        read: Read,
    ) -> Result<Value, MessageErr>
        // What is answered.
        requires op { op < length self.now.binding.ops }
        requires choice { IsChoice (reply_type self.now.binding op) }
        requires there { HasArm self.now.binding op arm }
        requires sound { IsSound (arm_type self.now.binding op arm) }
        requires says { Says self.now.binding op message.now (heard self.now.binding op reply.now)
            (fates.Arm arm) }
        // What was read.
        requires value { (v : Val) (used : ℕ) → IsValue read v used
            ↔ FirstSpell (encoding_by self.now.binding.back reply.now.head.order)
            (arm_type self.now.binding op arm)
            reply.now.used (drop reply.now.used message.now) v used }
        requires stop { (k : FaultKind) (at : ℕ) → IsStop read k at
            ↔ Stops (encoding_by self.now.binding.back reply.now.head.order)
            (arm_type self.now.binding op arm)
            reply.now.used (drop reply.now.used message.now) k at }
        // What it is.
        ensures ok { IfOk result (λ w. IsExactlyReply self.now.binding op message.now
            (Ok (record { head = reply.now.head; came = answered (values.arm (pos arm) (seen w)) }))) }
        ensures typed { IfOk result (λ w.
            IsWellTyped (reply_type self.now.binding op) (values.arm (pos arm) (seen w))) }
        ensures err { IfErr result (λ e. IsExactlyReply self.now.binding op message.now (Err e)) }
        ensures memory { result ≢ Err MessageErr.NoMemory }
    {
        match read {
            Read::Value(value, used) => {
                let end = reply.used + used;
                if end < message.len() {
                    return Err(MessageErr::Trailing(end));
                }
                Ok(value)
            }
            Read::Stop(fault) => Err(MessageErr::Body(fault)),
        }
    }

    /// A reply that refuses. It takes no memory.
    fn reported_by_refusal(
        &self,
        op: u32,
        why: Refusal,
        reply: &ReplyHead<'_>,
        message: &[u8],
    ) -> Result<Reply, MessageErr>
        requires says { Says self.now.binding op message.now (heard self.now.binding op reply.now)
            (fates.Refused why) }
        ensures read { AnswersReply self.now.binding op message.now result }
        ensures typed { IfOk result (λ r. IsTypedCame (reply_type self.now.binding op) (came r.outcome)) }
        ensures memory { result ≢ Err MessageErr.NoMemory }
    {
        if is_followed(&why, reply.used, message) {
            return Err(MessageErr::Trailing(reply.used));
        }
        Ok(Reply {
            head: reply.head,
            outcome: Outcome::Refused(why),
        })
    }
}

/// Whether nothing may follow a refusal. The members of an exception that the operation does not raise
/// are not looked at.
fn is_alone(why: &Refusal) -> bool
    ensures { result ≡ is_alone why.now }
{
    !matches!(why, Refusal::UserException(_))
}

/// Whether octets follow a refusal that nothing may follow.
fn is_followed(why: &Refusal, used: usize, message: &[u8]) -> bool
    ensures { result ≡ is_followed why.now used message.now }
{
    is_alone(why) && used < message.len()
}
