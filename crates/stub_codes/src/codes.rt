//! A binding with the code of each of its operations.

ghost use Rattle.std.specs.Prelude.{◌≡◌, ◌<◌, length, true, IfOk, Some, option_map, slice_get};
ghost use Rattle.stub_codes.specs.Backs.{encoding, lead, reply_form, IsMinorOver, Takes};
ghost use Rattle.stub_codes.specs.Messages.{request_type};
ghost use Rattle.stub_codes.specs.Receiving.{Receives};
ghost use Rattle.stub_codes.specs.Replies.{HasArm, arm_type};
ghost use Rattle.stub_codes.specs.Sending.{Sends};
ghost use Rattle.stub_codes.specs.Stubs.{IsCoded, IsStub, reply_code_at};

use crate::backs::encoding_of;
use crate::compile::stubs_of;
use crate::stub::{Stub, Stubs};
use cast_stub::{RecvCode, SendCode};
use kit_base::NoMemory;
use pres::Bound;
use std::alloc::Global;
use std::marker::Model;
use wire_def::Encoding;

/// The operations of a unit over a back end, each with the code that sends its requests, the code that receives them,
/// and, where replies are sent, the codes that send its replies.
#[derive(Drop)]
pub struct Codes {
    bound: Bound,
    minor: u8,
    answers: bool,
    stubs: Stubs,
}

impl Model for Codes {
    ghost use Rattle.stub_codes.specs.Stubs.{Coded, IsCoded};
    ghost use Rattle.std.specs.Coded.{codes};
    ghost use Rattle.aoi.specs.Stored.{coded_shape, coded_members};
    ghost use Rattle.cast_stub.specs.contracts.send.SendOp as s;
    ghost use Rattle.cast_stub.specs.contracts.recv.RecvOp as r;

    ghost Value = { Coded };

    ghost coded = { Prim.hlevel (codes, coded_shape, coded_members, s.the_row.coded, r.the_row.coded) };

    ghost view = { λ c. record { binding = c.bound; minor = c.minor; answers = c.answers; stubs = c.stubs } };

    ghost invariant = { λ c.
        IsCoded (record { binding = c.bound; minor = c.minor; answers = c.answers; stubs = c.stubs }) };
}

impl Codes {
    /// The code of each operation of what is bound, whose messages are sent in a version, by its minor number, with
    /// those of replies where replies are sent. The nodes are lowered once.
    pub fn compile(alloc: Global, bound: Bound, minor: u8, answers: bool) -> Result<Codes, NoMemory>
        requires { IsMinorOver bound.back minor }
        ensures binding { IfOk result (λ c. c.binding ≡ bound) }
        ensures minor { IfOk result (λ c. c.minor ≡ minor) }
        ensures answers { IfOk result (λ c. c.answers ≡ answers) }
        ensures coded { IfOk result IsCoded }
    {
        let stubs = stubs_of(alloc, &bound, minor, answers)?;
        Ok(Codes {
            bound,
            minor,
            answers,
            stubs,
        })
    }

    /// What is bound.
    pub fn bound(&self) -> &Bound
        ensures { result.now ≡ self.now.binding }
    {
        &self.bound
    }

    /// The version of the messages that are sent, by its minor number.
    pub fn minor(&self) -> u8
        ensures value { result ≡ self.now.minor }
        ensures is { IsMinorOver self.now.binding.back result }
    {
        self.minor
    }

    /// There is one code for each operation, and each is what is promised of its operation. It does nothing.
    pub fn codes_match_operations(&self)
        ensures { IsCoded self.now }
    {
        let _stubs = &self.stubs;
    }

    /// The code of an operation.
    pub fn stub(&self, op: u32) -> &Stub
        requires { op < length self.now.binding.ops }
        ensures found { slice_get self.now.stubs op ≡ Some result.now }
        ensures is { IsStub self.now.binding self.now.minor op result.now }
    {
        match self.stubs.get(op as usize) {
            Some(stub) => stub,
            None => unreachable!(),
        }
    }

    /// The code that sends an operation's requests.
    pub fn send_code(&self, op: u32) -> &SendCode
        requires { op < length self.now.binding.ops }
        ensures found { option_map (λ s. s.send) (slice_get self.now.stubs op) ≡ Some result.now }
        ensures sends { Sends self.now.binding.back (lead self.now.binding self.now.minor op)
            (request_type self.now.binding op) result.now }
    {
        &self.stub(op).send
    }

    /// The code that sends the replies to an operation with an arm, in a version: over Mach with the id of the head that
    /// it is run with.
    pub fn reply_code(&self, op: u32, arm: u32, minor: u8) -> &SendCode
        requires answers { self.now.answers ≡ true }
        requires op { op < length self.now.binding.ops }
        requires arm { HasArm self.now.binding op arm }
        requires minor { IsMinorOver self.now.binding.back minor }
        ensures found { reply_code_at self.now.stubs op arm minor ≡ Some result.now }
        ensures sends { Sends self.now.binding.back (reply_form self.now.binding minor op arm)
            (arm_type self.now.binding op arm) result.now }
    {
        self.codes_match_operations();
        match self.stub(op).replies_in(minor).get(arm as usize) {
            Some(code) => code.get(),
            None => unreachable!(),
        }
    }

    /// The code that receives what goes into an operation, laid out as it is sent.
    pub fn recv_code(&self, op: u32) -> &RecvCode
        requires { op < length self.now.binding.ops }
        ensures found { option_map (λ s. s.recv) (slice_get self.now.stubs op) ≡ Some result.now }
        ensures receives { Receives (encoding self.now.binding.back)
            (request_type self.now.binding op) result.now }
    {
        self.stub(op).recv.get()
    }

    /// The code that receives what goes into an operation, laid out in one of the ways that the back end takes.
    pub fn recv_code_over(&self, op: u32, enc: Encoding) -> &RecvCode
        requires op { op < length self.now.binding.ops }
        requires takes { Takes self.now.binding.back enc }
        ensures receives { Receives enc (request_type self.now.binding op) result.now }
        ensures own { (enc ≡ encoding self.now.binding.back)
            → option_map (λ s. s.recv) (slice_get self.now.stubs op) ≡ Some result.now }
    {
        let stub = self.stub(op);
        if enc == encoding_of(self.bound.back()) {
            return stub.recv.get();
        }
        match &stub.other {
            Some(code) => code.get(),
            None => unreachable!(),
        }
    }
}
