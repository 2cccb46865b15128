//! Messages that are answered.

ghost use Rattle.std.specs.Prelude.{◌≡◌, ◌<◌, [], Ok, Some, false, true, length, IfOk, OnErr, OnOk};
ghost use Rattle.kit_base.specs.Limits.{longest_message};
ghost use Rattle.mint.specs.Typed.{IsWellTyped};
ghost use Rattle.mint.specs.Values.{seen};
ghost use Rattle.head_kit.specs.Calls.{IsBelow};
ghost use Rattle.raw_buf.specs.Buf.{NoneFell};
ghost use Rattle.flick_engine.specs.Backs.{Begins};
ghost use Rattle.flick_engine.specs.Costs.{IsServedByCode};
ghost use Rattle.flick_engine.specs.Messages.{request_type};
ghost use Rattle.flick_engine.specs.Received.{IsShort, asked};
ghost use Rattle.flick_engine.specs.Refusals as refusals;
ghost use Rattle.flick_engine.specs.Refusals.{reply_head};
ghost use Rattle.flick_engine.specs.Serving as serving;
ghost use Rattle.flick_engine.specs.Serving.{IsDue, Serves, ServesByCode, ServesCall, AnswersCall, AnswersCallByCode, AnswersAs, AnswersByCode, reply_in};

use crate::engine::Engine;
use crate::errors::{MessageErr, long_alone};
use crate::requests::Request;
use head_kit::{CallHead, CallTarget};
use kit_base::NoMemory;
use kit_base::limits::LONGEST_MESSAGE;
use raw_buf::{RecvView, SendBuf};
use skeleton::Skeleton;
use std::alloc::Global;
use stub_codes::bodies_are_taken;

/// What became of a message that was served.
#[derive(Clone, Copy, Debug, PartialEq, Eq)]
pub enum Served {
    /// The buffer has the reply.
    Reply,
    /// No reply is sent, and the buffer is empty.
    Silent,
}

impl Engine {
    /// Answers a message in a buffer, whatever the buffer held: by the work that is done for the
    /// operation that it names, or by a refusal, or not at all. Where no reply is sent, and where
    /// memory runs out, the buffer is empty. What it spent is kept. Of the view is said where it is
    /// after a request that is answered, and how many tests it then counted.
    pub fn serve<S: Skeleton>(
        &self,
        alloc: Global,
        skeleton: &S,
        view: &mut RecvView<'_>,
        buf: &mut SendBuf,
    ) -> Result<Served, NoMemory>
        requires made_for { S.binding skeleton.now ≡ self.now.binding }
        requires answers { self.now.answers ≡ true }
        requires start { view.old.pos ≡ 0 }
        // What is answered.
        ensures serves { IfOk result (λ s.
            Serves self.now.binding self.now.minor (S.Answers skeleton.now) view.old.octets
            (reply_in s buf.new.done)) }
        ensures silent { (result ≡ Ok Served.Silent) → buf.new.done ≡ [] }
        ensures long { longest_message < length view.old.octets → result ≡ Ok Served.Silent }
        ensures memory { OnErr result (IsDue self.now.binding self.now.minor view.old.octets) }
        ensures err { OnErr result (buf.new.done ≡ []) }
        // What it costs.
        ensures cost { IfOk result (λ s. ServesByCode self.now (S.Answers skeleton.now)
            view.old.octets (reply_in s buf.new.done) buf.old.spent buf.new) }
        ensures spent { NoneFell buf.old.spent buf.new.spent }
        // How it is read.
        ensures code { IfOk result (λ s. s ≡ Served.Reply
            → IsServedByCode self.now view.old view.new) }
    {
        buf.clear();
        match self.serve_message(alloc, skeleton, view.rest(), view, buf) {
            Ok(served) => Ok(served),
            Err(NoMemory) => {
                buf.clear();
                Err(NoMemory)
            }
        }
    }

    /// Answers a message, which a view has, in an empty buffer.
    fn serve_message<S: Skeleton>(
        &self,
        alloc: Global,
        skeleton: &S,
        message: &[u8],
        view: &mut RecvView<'_>,
        buf: &mut SendBuf,
    ) -> Result<Served, NoMemory>
        // Who answers, what is read, and where the answer goes.
        requires made_for { S.binding skeleton.now ≡ self.now.binding }
        requires answers { self.now.answers ≡ true }
        requires start { view.old.pos ≡ 0 }
        requires message { view.old.octets ≡ message.now }
        requires empty { buf.old.done ≡ [] }
        // What is answered, and what it costs.
        ensures serves { IfOk result (λ s.
            Serves self.now.binding self.now.minor (S.Answers skeleton.now) message.now
            (reply_in s buf.new.done)) }
        ensures silent { (result ≡ Ok Served.Silent) → buf.new.done ≡ [] }
        ensures long { longest_message < length message.now → result ≡ Ok Served.Silent }
        ensures memory { OnErr result (IsDue self.now.binding self.now.minor message.now) }
        ensures cost { IfOk result (λ s. ServesByCode self.now (S.Answers skeleton.now)
            message.now (reply_in s buf.new.done) buf.old.spent buf.new) }
        ensures spent { NoneFell buf.old.spent buf.new.spent }
        // How it is read.
        ensures code { IfOk result (λ s. s ≡ Served.Reply
            → IsServedByCode self.now view.old view.new) }
    {
        if message.len() > LONGEST_MESSAGE {
            return Ok(Served::Silent);
        }
        match self.read_head(message) {
            Ok(called) => self.serve_call(alloc, skeleton, &called, message, view, buf),
            Err(fault) => self.answer_fault(fault, message, buf),
        }
    }

    /// Answers a message that begins with the head of a call, if a reply is wanted and there is one.
    fn serve_call<S: Skeleton>(
        &self,
        alloc: Global,
        skeleton: &S,
        called: &CallHead,
        message: &[u8],
        view: &mut RecvView<'_>,
        buf: &mut SendBuf,
    ) -> Result<Served, NoMemory>
        // Who answers, and what is called.
        requires made_for { S.binding skeleton.now ≡ self.now.binding }
        requires answers { self.now.answers ≡ true }
        requires short { IsShort message.now }
        requires begins { Begins self.now.binding message.now called.now }
        requires below { IsBelow (length self.now.binding.ops) called.now.naming }
        // What is read, and where the answer goes.
        requires start { view.old.pos ≡ 0 }
        requires message { view.old.octets ≡ message.now }
        requires empty { buf.old.done ≡ [] }
        // What is answered, and what it costs.
        ensures serves { IfOk result (λ s.
            ServesCall self.now.binding (S.Answers skeleton.now) message.now called.now
            (reply_in s buf.new.done)) }
        ensures silent { (result ≡ Ok Served.Silent) → buf.new.done ≡ [] }
        ensures passed { serving.is_answered self.now.binding called.now ≡ false → result ≡ Ok Served.Silent }
        ensures memory { OnErr result (serving.is_answered self.now.binding called.now ≡ true) }
        ensures cost { IfOk result (λ s. ServesByCode self.now (S.Answers skeleton.now)
            message.now (reply_in s buf.new.done) buf.old.spent buf.new) }
        ensures spent { NoneFell buf.old.spent buf.new.spent }
        // How it is read.
        ensures code { IfOk result (λ s. s ≡ Served.Reply
            → IsServedByCode self.now view.old view.new) }
    {
        if !self.is_answered(called) {
            return Ok(Served::Silent);
        }
        self.answer_call(alloc, skeleton, called, message, view, buf)?;
        Ok(Served::Reply)
    }

    /// Answers a call by a reply.
    fn answer_call<S: Skeleton>(
        &self,
        alloc: Global,
        skeleton: &S,
        called: &CallHead,
        message: &[u8],
        view: &mut RecvView<'_>,
        buf: &mut SendBuf,
    ) -> Result<(), NoMemory>
        // Who answers, and what is called.
        requires made_for { S.binding skeleton.now ≡ self.now.binding }
        requires answers { self.now.answers ≡ true }
        requires short { IsShort message.now }
        requires begins { Begins self.now.binding message.now called.now }
        requires below { IsBelow (length self.now.binding.ops) called.now.naming }
        // What is read, and where the answer goes.
        requires start { view.old.pos ≡ 0 }
        requires message { view.old.octets ≡ message.now }
        requires empty { buf.old.done ≡ [] }
        // What is answered, and what it costs.
        ensures answers { OnOk result
            (AnswersCall self.now.binding (S.Answers skeleton.now) message.now called.now
            (Some buf.new.done)) }
        ensures cost { OnOk result
            (AnswersCallByCode self.now (S.Answers skeleton.now) message.now called.now
            (Some buf.new.done) buf.old.spent buf.new) }
        ensures spent { NoneFell buf.old.spent buf.new.spent }
        // How it is read.
        ensures code { OnOk result (IsServedByCode self.now view.old view.new) }
    {
        match called.naming {
            CallTarget::NoInterface => {
                self.refuse_call(alloc, MessageErr::NoInterface, called, message, buf)
            }
            CallTarget::NoOperation => {
                self.refuse_call(alloc, MessageErr::NoOperation, called, message, buf)
            }
            CallTarget::Operation(op) => match self.read_body(alloc, op, called, message, view) {
                Ok(request) => {
                    self.answer_request(alloc, skeleton, &request, called, message, buf)
                }
                Err(fault) => self.refuse_call(alloc, fault, called, message, buf),
            },
        }
    }

    /// Answers a request by a reply in its version: that of the work, or a refusal where it would be too long.
    fn answer_request<S: Skeleton>(
        &self,
        alloc: Global,
        skeleton: &S,
        request: &Request,
        called: &CallHead,
        message: &[u8],
        buf: &mut SendBuf,
    ) -> Result<(), NoMemory>
        // Who answers, and what is asked.
        requires made_for { S.binding skeleton.now ≡ self.now.binding }
        requires answers { self.now.answers ≡ true }
        requires begins { Begins self.now.binding message.now called.now }
        requires op { request.now.op < length self.now.binding.ops }
        requires typed { IsWellTyped (request_type self.now.binding request.now.op) (seen request.now.value) }
        // What is answered, and what it costs.
        ensures answers { OnOk result
            (AnswersAs self.now.binding called.now.minor (S.Answers skeleton.now) message.now
            (reply_head self.now.binding.back called.now.head) (Ok (asked request.now)) (Some buf.new.done)) }
        ensures cost { OnOk result
            (AnswersByCode self.now called.now.minor (S.Answers skeleton.now) message.now
            (reply_head self.now.binding.back called.now.head) (asked request.now)
            (Some buf.new.done) buf.old.spent buf.new) }
        ensures spent { NoneFell buf.old.spent buf.new.spent }
    {
        bodies_are_taken();
        let head = self.reply_head(&called.head);
        let reply = skeleton.call(alloc, request.op, &request.value)?;
        match self.reply_in_version(request.op, called.minor, &head, &reply, buf) {
            Ok(()) => Ok(()),
            Err(why) => {
                long_alone(why)?;
                let why = self.long_reply(alloc)?;
                self.refuse(&why, called, message, buf)
            }
        }
    }
}
