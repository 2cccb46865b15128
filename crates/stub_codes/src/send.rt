//! Requests that are sent by the code of their operation, and replies by the code of their arm.

ghost use Rattle.std.specs.Prelude.{◌≡◌, ◌<◌, ◌≤◌, [], length, true, option_map, Some, Err, OnErr, OnOk};
ghost use Rattle.kit_base.specs.Limits.{longest_message};
ghost use Rattle.mint.specs.Typed.{IsWellTyped};
ghost use Rattle.mint.specs.Values.{seen};
ghost use Rattle.raw_buf.specs.Buf.{none, NoneFell};
ghost use Rattle.cast_stub.specs.Meaning.{meaning, cost, AreCovered};
ghost use Rattle.cast_stub.specs.Subs.{sent_steps};
ghost use Rattle.stub_machine.specs.Sending.{paid, IsLong};
ghost use Rattle.stub_codes.specs.Backs.{IsMinorOver};
ghost use Rattle.stub_codes.specs.Messages.{request_type, message};
ghost use Rattle.stub_codes.specs.Replies.{HasArm, arm_type, arm_message};
ghost use Rattle.stub_codes.specs.Stubs.{sent_cost, reply_cost, IsCoveredReply, IsCoveredRequest, IsSparingReply, IsSparingRequest};

use crate::backs::reply_head;
use crate::codes::Codes;
use crate::heads::numbers_are_words;
use cast_stub::SendCode;
use mint::value::Value;
use raw_buf::SendBuf;
use stub_machine::{SendErr, run_send};
use wire_def::Head;

impl Codes {
    /// Makes the message of a request in a buffer by the code of its operation, whatever the buffer held; where there
    /// is none, the buffer is empty. What the buffer spent is kept.
    pub fn send(
        &self,
        op: u32,
        head: &Head,
        value: &Value,
        buf: &mut SendBuf,
    ) -> Result<(), SendErr>
        requires op { op < length self.now.binding.ops }
        requires typed { IsWellTyped (request_type self.now.binding op) (seen value.now) }
        // What `Ok` holds.
        ensures ok { OnOk result
            (buf.new.done ≡ message self.now.binding self.now.minor op head.now (seen value.now)) }
        ensures short { OnOk result
            (length (message self.now.binding self.now.minor op head.now (seen value.now))
            ≤ longest_message) }
        ensures tally { OnOk result
            (option_map (paid none) (sent_cost self.now.stubs op head.now (seen value.now))
            ≡ Some buf.new.tally) }
        ensures spent { OnOk result
            (option_map (paid buf.old.spent) (sent_cost self.now.stubs op head.now (seen value.now))
            ≡ Some buf.new.spent) }
        // What its code does.
        ensures covered { IsCoveredRequest self.now op head.now (seen value.now) }
        ensures sparing { IsSparingRequest self.now op head.now (seen value.now) }
        // When each error comes.
        ensures long { (result ≡ Err SendErr.Long)
            → longest_message
            < length (message self.now.binding self.now.minor op head.now (seen value.now)) }
        // What stays the same.
        ensures err { OnErr result (buf.new.done ≡ []) }
        ensures stands { NoneFell buf.old.spent buf.new.spent }
    {
        numbers_are_words(head);
        run_from_front(&self.stub(op).send, head, value, buf)
    }

    /// Makes the message of a reply with an arm's value, in a version, in a buffer by the code of the arm, whatever the
    /// buffer held; where there is none, the buffer is empty. What the buffer spent is kept.
    pub fn reply(
        &self,
        op: u32,
        arm: u32,
        minor: u8,
        head: &Head,
        value: &Value,
        buf: &mut SendBuf,
    ) -> Result<(), SendErr>
        // What is sent.
        requires answers { self.now.answers ≡ true }
        requires op { op < length self.now.binding.ops }
        requires arm { HasArm self.now.binding op arm }
        requires minor { IsMinorOver self.now.binding.back minor }
        requires typed { IsWellTyped (arm_type self.now.binding op arm) (seen value.now) }
        // What `Ok` holds.
        ensures ok { OnOk result
            (buf.new.done ≡ arm_message self.now.binding minor op arm head.now (seen value.now)) }
        ensures short { OnOk result
            (length (arm_message self.now.binding minor op arm head.now (seen value.now)) ≤ longest_message) }
        ensures tally { OnOk result
            (option_map (paid none) (reply_cost self.now.stubs op arm minor head.now (seen value.now))
            ≡ Some buf.new.tally) }
        ensures spent { OnOk result
            (option_map (paid buf.old.spent)
            (reply_cost self.now.stubs op arm minor head.now (seen value.now))
            ≡ Some buf.new.spent) }
        // What its code does.
        ensures covered { IsCoveredReply self.now op arm minor head.now (seen value.now) }
        ensures sparing { IsSparingReply self.now op arm minor head.now (seen value.now) }
        // When each error comes.
        ensures long { (result ≡ Err SendErr.Long)
            → longest_message < length (arm_message self.now.binding minor op arm head.now (seen value.now)) }
        // What stays the same.
        ensures err { OnErr result (buf.new.done ≡ []) }
        ensures stands { NoneFell buf.old.spent buf.new.spent }
    {
        numbers_are_words(head);
        let sent = reply_head(self.bound(), op, head);
        numbers_are_words(&sent);
        run_from_front(self.reply_code(op, arm, minor), &sent, value, buf)
    }
}

/// Runs a code from the beginning of a buffer, whatever it held; after a refusal the buffer is empty.
fn run_from_front(
    code: &SendCode,
    head: &Head,
    value: &Value,
    buf: &mut SendBuf,
) -> Result<(), SendErr>
    requires { AreCovered (sent_steps code.now head.now (seen value.now)) 0 }
    // What `Ok` holds.
    ensures done { OnOk result (meaning code.now head.now (seen value.now) 0 ≡ Some buf.new.done) }
    ensures short { OnOk result (length buf.new.done ≤ longest_message) }
    ensures tally { OnOk result
        (option_map (paid none) (cost code.now head.now (seen value.now)) ≡ Some buf.new.tally) }
    ensures spent { OnOk result
        (option_map (paid buf.old.spent) (cost code.now head.now (seen value.now)) ≡ Some buf.new.spent) }
    // When it is too long.
    ensures long { (result ≡ Err SendErr.Long) → IsLong 0 (meaning code.now head.now (seen value.now) 0) }
    // What stays the same.
    ensures err { OnErr result (buf.new.done ≡ []) }
    ensures stands { NoneFell buf.old.spent buf.new.spent }
{
    buf.clear();
    let ran = run_send(code, head, value, buf);
    emptied(ran, buf)
}

/// What a run answered; the buffer is emptied where that is not `Ok`.
fn emptied(ran: Result<(), SendErr>, buf: &mut SendBuf) -> Result<(), SendErr>
    ensures same { result ≡ ran }
    ensures ok { OnOk result (buf.new ≡ buf.old) }
    ensures err { OnErr result (buf.new.done ≡ []) }
    ensures spent { buf.new.spent ≡ buf.old.spent }
{
    if ran.is_err() {
        buf.clear();
    }
    ran
}
