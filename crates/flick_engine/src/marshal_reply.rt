//! Replies as messages.

ghost use Rattle.std.specs.Prelude.{◌≡◌, ◌<◌, [], false, true, pos, length, OnErr, OnOk, Err, IfNone, IfSome};
ghost use Rattle.kit_base.specs.Limits.{longest_message};
ghost use Rattle.mint.specs.declared.kind.Kind.TheVariants as kind;
ghost use Rattle.mint.specs.Kinds.{in_range};
ghost use Rattle.mint.specs.Typed.{IsWellTyped};
ghost use Rattle.mint.specs.Values.{arm, seen};
ghost use Rattle.raw_buf.specs.Buf.{NoneFell};
ghost use Rattle.flick_engine.specs.Backs.{IsMinorOver};
ghost use Rattle.flick_engine.specs.Costs.{IsAnsweredByCode, IsCoveredAnswer, IsSparingAnswer};
ghost use Rattle.flick_engine.specs.Received.{IsShort};
ghost use Rattle.flick_engine.specs.Replies.{HasArm, arm_type, reply_type, reply_message};

use crate::engine::Engine;
use crate::errors::{MarshalErr, ended};
use mint::value::Value;
use raw_buf::SendBuf;
use wire_def::Head;

impl Engine {
    /// Makes the message of a reply to an operation in a buffer by the stub code of its arm, whatever the
    /// buffer held; where there is none, the buffer is empty. What the buffer spent is kept. The value is an
    /// arm of the operation's reply: 0 is the answer, k the k-th exception.
    pub fn marshal_reply(
        &self,
        op: u32,
        head: &Head,
        value: &Value,
        buf: &mut SendBuf,
    ) -> Result<(), MarshalErr>
        // What is sent.
        requires answers { self.now.answers ≡ true }
        requires op { op < length self.now.binding.ops }
        requires typed { IsWellTyped (reply_type self.now.binding op) (seen value.now) }
        // What `Ok` holds.
        ensures ok { OnOk result (buf.new.done
            ≡ reply_message self.now.binding self.now.minor op head.now (seen value.now)) }
        ensures short { OnOk result
            (IsShort (reply_message self.now.binding self.now.minor op head.now (seen value.now))) }
        ensures cost { OnOk result
            (IsAnsweredByCode self.now.stubs self.now.minor op head.now (seen value.now)
            buf.old.spent buf.new) }
        // What its code does.
        ensures covered { IsCoveredAnswer self.now self.now.minor op head.now (seen value.now) }
        ensures sparing { IsSparingAnswer self.now self.now.minor op head.now (seen value.now) }
        // When it is not made, and what stays.
        ensures err { OnErr result (buf.new.done ≡ []) }
        ensures long { (result ≡ Err MarshalErr.Long)
            → longest_message
            < length (reply_message self.now.binding self.now.minor op head.now (seen value.now)) }
        ensures spent { NoneFell buf.old.spent buf.new.spent }
    {
        self.reply_in_version(op, self.minor(), head, value, buf)
    }

    /// Makes the message of a reply in a version, as `marshal_reply` does in the engine's.
    pub fn reply_in_version(
        &self,
        op: u32,
        minor: u8,
        head: &Head,
        value: &Value,
        buf: &mut SendBuf,
    ) -> Result<(), MarshalErr>
        // What is sent.
        requires answers { self.now.answers ≡ true }
        requires op { op < length self.now.binding.ops }
        requires minor { IsMinorOver self.now.binding.back minor }
        requires typed { IsWellTyped (reply_type self.now.binding op) (seen value.now) }
        // What `Ok` holds.
        ensures ok { OnOk result (buf.new.done
            ≡ reply_message self.now.binding minor op head.now (seen value.now)) }
        ensures short { OnOk result
            (IsShort (reply_message self.now.binding minor op head.now (seen value.now))) }
        ensures cost { OnOk result
            (IsAnsweredByCode self.now.stubs minor op head.now (seen value.now) buf.old.spent buf.new) }
        // What its code does.
        ensures covered { IsCoveredAnswer self.now minor op head.now (seen value.now) }
        ensures sparing { IsSparingAnswer self.now minor op head.now (seen value.now) }
        // When it is not made, and what stays.
        ensures err { OnErr result (buf.new.done ≡ []) }
        ensures long { (result ≡ Err MarshalErr.Long)
            → longest_message < length (reply_message self.now.binding minor op head.now (seen value.now)) }
        ensures spent { NoneFell buf.old.spent buf.new.spent }
    {
        let (arm, inner) = self.reply_arm(op, value);
        ended(self.stubs().reply(op, arm, minor, head, inner, buf))
    }

    /// The arm that the value of a reply is of, and the value in it.
    fn reply_arm<'a>(&self, op: u32, value: &'a Value) -> (u32, &'a Value)
        requires op { op < length self.now.binding.ops }
        requires typed { IsWellTyped (reply_type self.now.binding op) (seen value.now) }
        ensures is { seen value.now ≡ arm (pos result.0) (seen result.1.now) }
        ensures there { HasArm self.now.binding op result.0 }
        ensures typed { IsWellTyped (arm_type self.now.binding op result.0) (seen result.1.now) }
    {
        self.replies_tell_arms(op);
        let Some((n, inner)) = value.as_arm() else {
            unreachable!()
        };
        let Some(arm) = arm_number(&n) else {
            unreachable!()
        };
        (arm, inner)
    }
}

/// The number of an arm, where it is one of 32 bits.
fn arm_number(n: &i128) -> Option<u32>
    ensures some { IfSome result (λ k. n.now ≡ pos k) }
    ensures none { IfNone result (in_range kind.U32 n.now ≡ false) }
{
    match u32::try_from(*n) {
        Ok(arm) => Some(arm),
        Err(_) => None,
    }
}
