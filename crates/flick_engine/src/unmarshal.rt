//! Messages as requests.

ghost use Rattle.std.specs.Prelude.{◌≡◌, ◌≢◌, ◌↔◌, ◌<◌, ◌≤◌, ◌+◌, ◌-◌, ℕ, length, drop, Ok, Err, IfOk, IfErr};
ghost use Rattle.mint.specs.Typed.{IsWellTyped};
ghost use Rattle.mint.specs.Values.{Val, seen};
ghost use Rattle.wire_def.specs.declared.fault.FaultKind.{FaultKind};
ghost use Rattle.wire_def.specs.Stops.{Stops};
ghost use Rattle.plain_wire.specs.Answered.{IsValue, IsStop, FirstSpell};
ghost use Rattle.flick_engine.specs.Costs.{after_head, IsReadByCode};
ghost use Rattle.flick_engine.specs.Messages.{request_type};
ghost use Rattle.flick_engine.specs.Received.{Answers, CallsOperation, IsExactly, Names};

use crate::engine::Engine;
use crate::errors::MessageErr;
use crate::requests::Request;
use head_kit::{CallHead, CallTarget};
use kit_base::limits::LONGEST_MESSAGE;
use plain_wire::Read;
use raw_buf::RecvView;
use std::alloc::Global;
use stub_codes::bodies_are_taken;

impl Engine {
    /// Reads the request of a message. Of the view is said where it is after a request whose body is laid out
    /// as the back end sends, and how many tests it then counted.
    pub fn unmarshal(&self, alloc: Global, view: &mut RecvView<'_>) -> Result<Request, MessageErr>
        requires start { view.old.pos ≡ 0 }
        ensures read { Answers self.now.binding view.old.octets result }
        ensures memory { (result ≡ Err MessageErr.NoMemory)
            → CallsOperation self.now.binding view.old.octets }
        ensures op { IfOk result (λ r. r.op < length self.now.binding.ops) }
        ensures typed { IfOk result (λ r. IsWellTyped (request_type self.now.binding r.op) (seen r.value)) }
        ensures code { IfOk result (λ r.
            IsReadByCode self.now r.op (seen r.value) view.old view.new) }
    {
        self.read_message(alloc, view.rest(), view)
    }

    /// Reads the request of a message from its octets, which a view has.
    fn read_message(
        &self,
        alloc: Global,
        message: &[u8],
        view: &mut RecvView<'_>,
    ) -> Result<Request, MessageErr>
        requires start { view.old.pos ≡ 0 }
        requires message { view.old.octets ≡ message.now }
        ensures read { Answers self.now.binding message.now result }
        ensures memory { (result ≡ Err MessageErr.NoMemory) → CallsOperation self.now.binding message.now }
        ensures op { IfOk result (λ r. r.op < length self.now.binding.ops) }
        ensures typed { IfOk result (λ r. IsWellTyped (request_type self.now.binding r.op) (seen r.value)) }
        ensures code { IfOk result (λ r.
            IsReadByCode self.now r.op (seen r.value) view.old view.new) }
    {
        match self.begin(message) {
            Ok((called, op)) => self.read_body(alloc, op, &called, message, view),
            Err(fault) => Err(fault),
        }
    }

    /// The operation that a message calls, and what its head says. It takes no memory.
    fn begin(&self, message: &[u8]) -> Result<(CallHead, u32), MessageErr>
        ensures ok { IfOk result (λ r. Names self.now.binding message.now r.0 (CallTarget.Operation r.1)) }
        ensures op { IfOk result (λ r. r.1 < length self.now.binding.ops) }
        ensures err { IfErr result (λ e. IsExactly self.now.binding message.now (Err e)) }
        ensures memory { result ≢ Err MessageErr.NoMemory }
    {
        if message.len() > LONGEST_MESSAGE {
            return Err(MessageErr::Long);
        }
        match self.read_head(message) {
            Ok(called) => match called.naming {
                CallTarget::Operation(op) => Ok((called, op)),
                CallTarget::NoInterface => Err(MessageErr::NoInterface),
                CallTarget::NoOperation => Err(MessageErr::NoOperation),
            },
            Err(fault) => Err(MessageErr::Head(fault)),
        }
    }

    /// Reads the request of a message that calls this operation by the operation's stub code; where that gives
    /// none, the plain walk finds the fault.
    pub(crate) fn read_body(
        &self,
        alloc: Global,
        op: u32,
        called: &CallHead,
        message: &[u8],
        view: &mut RecvView<'_>,
    ) -> Result<Request, MessageErr>
        // What is called.
        requires op { op < length self.now.binding.ops }
        requires names { Names self.now.binding message.now called.now (CallTarget.Operation op) }
        // What is read.
        requires start { view.old.pos ≡ 0 }
        requires message { view.old.octets ≡ message.now }
        // What it is.
        ensures read { Answers self.now.binding message.now result }
        ensures op { IfOk result (λ r. r.op < length self.now.binding.ops) }
        ensures typed { IfOk result (λ r. IsWellTyped (request_type self.now.binding r.op) (seen r.value)) }
        ensures code { IfOk result (λ r.
            IsReadByCode self.now r.op (seen r.value) view.old view.new) }
    {
        bodies_are_taken();
        pass_head(called.used, view);
        let stubs = self.stubs();
        let _stub = stubs.stub(op);
        let read = stubs.read(alloc, op, called.encoding, message, view)?;
        self.reported_by_body(op, called, message, read)
    }

    /// The request of a message whose body was read so. It takes no memory.
    fn reported_by_body(
        &self,
        op: u32,
        called: &CallHead,
        message: &[u8],
        read: Read,
    ) -> Result<Request, MessageErr>
        // What is called.
        requires op { op < length self.now.binding.ops }
        requires names { Names self.now.binding message.now called.now (CallTarget.Operation op) }
        // What was read.
        requires value { (v : Val) (used : ℕ) → IsValue read v used
            ↔ FirstSpell called.now.encoding (request_type self.now.binding op) called.now.used
            (drop called.now.used message.now) v used }
        requires stop { (k : FaultKind) (at : ℕ) → IsStop read k at
            ↔ Stops called.now.encoding (request_type self.now.binding op) called.now.used
            (drop called.now.used message.now) k at }
        // What it is.
        ensures read { Answers self.now.binding message.now result }
        ensures op { IfOk result (λ r. r.op < length self.now.binding.ops) }
        ensures typed { IfOk result (λ r. IsWellTyped (request_type self.now.binding r.op) (seen r.value)) }
        ensures whole { IfOk result (λ r. (r.op ≡ op)
            × IsValue read (seen r.value) (length message.now - called.now.used)) }
        ensures memory { result ≢ Err MessageErr.NoMemory }
    {
        match read {
            Read::Value(value, used) => {
                let end = called.used + used;
                if end < message.len() {
                    return Err(MessageErr::Trailing(end));
                }
                Ok(Request {
                    op,
                    head: called.head,
                    value,
                })
            }
            Read::Stop(fault) => Err(MessageErr::Body(fault)),
        }
    }
}

/// Passes the head of a call, whose octets are there.
fn pass_head(used: usize, view: &mut RecvView<'_>)
    requires start { view.old.pos ≡ 0 }
    requires within { used ≤ length view.old.octets }
    ensures { view.new ≡ after_head used view.old }
{
    if !view.need(used) {
        unreachable!()
    }
    view.take(used);
}
