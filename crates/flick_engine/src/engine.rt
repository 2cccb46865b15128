//! An engine.

ghost use Rattle.std.specs.Prelude.{◌≡◌, ◌<◌, length, true, IfOk, Some, option_map, slice_get};
ghost use Rattle.stub_codes.specs.Receiving.{Receives};
ghost use Rattle.stub_codes.specs.Sending.{Sends};
ghost use Rattle.stub_codes.specs.Stubs.{IsCoded, reply_code_at};
ghost use Rattle.flick_engine.specs.Backs.{encoding, IsMinorOver, lead, reply_form};
ghost use Rattle.flick_engine.specs.Messages.{request_type};
ghost use Rattle.back_cdr.specs.Names.{AreNamesOver};
ghost use Rattle.flick_engine.specs.Replies.{HasArm, arm_type};

use back_cdr::Names;
use cast_stub::{RecvCode, SendCode};
use kit_base::NoMemory;
use pres::Bound;
use std::alloc::Global;
use std::marker::Model;
use stub_codes::Codes;

/// The operations of a unit over a back end, each with its stub code, ready to make messages and to read them.
#[derive(Drop)]
pub struct Engine {
    stubs: Codes,
    names: Names,
}

impl Model for Engine {
    ghost use Rattle.stub_codes.specs.Stubs.{Coded};
    ghost use Rattle.back_cdr.specs.Names.{AreNamesOver};
    ghost use Rattle.std.specs.Coded.{codes};
    ghost use Rattle.aoi.specs.Stored.{coded_shape, coded_members};
    ghost use Rattle.cast_stub.specs.contracts.send.SendOp as s;
    ghost use Rattle.cast_stub.specs.contracts.recv.RecvOp as r;

    ghost Value = { Coded };

    ghost coded = { Prim.hlevel (codes, coded_shape, coded_members, s.the_row.coded, r.the_row.coded) };

    ghost view = { λ e. e.stubs };

    ghost invariant = { λ e. AreNamesOver e.stubs.binding.back e.stubs.binding.unit.interfaces e.names };
}

impl Engine {
    /// An engine for what is bound, with the stub code of each operation, and the names by which requests find
    /// them. Over CDR it sends version 1.0 of GIOP. Time and memory are linear in the code that comes out.
    pub fn compile(alloc: Global, bound: Bound) -> Result<Engine, NoMemory>
        ensures binding { IfOk result (λ e. e.binding ≡ bound) }
        ensures minor { IfOk result (λ e. e.minor ≡ 0) }
        ensures answers { IfOk result (λ e. e.answers ≡ true) }
        ensures coded { IfOk result IsCoded }
    {
        Engine::compile_minor(alloc, bound, 0)
    }

    /// The same for messages of a version, by its minor number: 0, or over CDR also 2. Messages of each version are
    /// received.
    pub fn compile_minor(alloc: Global, bound: Bound, minor: u8) -> Result<Engine, NoMemory>
        requires { IsMinorOver bound.back minor }
        ensures binding { IfOk result (λ e. e.binding ≡ bound) }
        ensures minor { IfOk result (λ e. e.minor ≡ minor) }
        ensures answers { IfOk result (λ e. e.answers ≡ true) }
        ensures coded { IfOk result IsCoded }
    {
        Engine::compile_with(alloc, bound, minor, true)
    }

    /// The same, with the codes of replies only where replies are sent.
    pub fn compile_with(
        alloc: Global,
        bound: Bound,
        minor: u8,
        answers: bool,
    ) -> Result<Engine, NoMemory>
        requires { IsMinorOver bound.back minor }
        ensures binding { IfOk result (λ e. e.binding ≡ bound) }
        ensures minor { IfOk result (λ e. e.minor ≡ minor) }
        ensures answers { IfOk result (λ e. e.answers ≡ answers) }
        ensures coded { IfOk result IsCoded }
    {
        let names = Names::of(alloc, &bound)?;
        Ok(Engine {
            stubs: Codes::compile(alloc, bound, minor, answers)?,
            names,
        })
    }

    /// What is bound.
    pub fn bound(&self) -> &Bound
        ensures value { result.now ≡ self.now.binding }
    {
        self.stubs.bound()
    }

    /// There is one code for each operation, and each is what is promised of its operation: the code that sends
    /// means exactly the octets of the message, ensures the room for all that it appends, and checks the buffer at
    /// most once a region; the code that receives gives a value exactly where octets spell one. It does nothing.
    pub fn codes_match_operations(&self)
        ensures { IsCoded self.now }
    {
        self.stubs.codes_match_operations();
    }

    /// The code that sends an operation's requests.
    pub fn send_code(&self, op: u32) -> &SendCode
        requires { op < length self.now.binding.ops }
        ensures found { option_map (λ s. s.send) (slice_get self.now.stubs op) ≡ Some result.now }
        ensures sends { Sends self.now.binding.back (lead self.now.binding self.now.minor op)
            (request_type self.now.binding op) result.now }
    {
        self.stubs.send_code(op)
    }

    /// The code that receives what goes into an operation, laid out as it is sent.
    pub fn recv_code(&self, op: u32) -> &RecvCode
        requires { op < length self.now.binding.ops }
        ensures found { option_map (λ s. s.recv) (slice_get self.now.stubs op) ≡ Some result.now }
        ensures receives { Receives (encoding self.now.binding.back)
            (request_type self.now.binding op) result.now }
    {
        self.stubs.recv_code(op)
    }

    /// The code that sends an operation's replies with an arm in a version: arm 0 is the answer, k the k-th exception.
    /// Over Mach it puts the id of the head that it is run with.
    pub fn reply_code(&self, op: u32, arm: u32, minor: u8) -> &SendCode
        requires answers { self.now.answers ≡ true }
        requires op { op < length self.now.binding.ops }
        requires arm { HasArm self.now.binding op arm }
        requires minor { IsMinorOver self.now.binding.back minor }
        ensures found { reply_code_at self.now.stubs op arm minor ≡ Some result.now }
        ensures sends { Sends self.now.binding.back (reply_form self.now.binding minor op arm)
            (arm_type self.now.binding op arm) result.now }
    {
        self.stubs.reply_code(op, arm, minor)
    }

    /// The version of the messages that are sent, by its minor number.
    pub(crate) fn minor(&self) -> u8
        ensures value { result ≡ self.now.minor }
        ensures is { IsMinorOver self.now.binding.back result }
    {
        self.stubs.minor()
    }

    /// The names by which requests find operations.
    pub(crate) fn names(&self) -> &Names
        ensures { AreNamesOver self.now.binding.back self.now.binding.unit.interfaces result.now }
    {
        &self.names
    }

    /// The stub code of each operation.
    pub(crate) fn stubs(&self) -> &Codes
        ensures { result.now ≡ self.now }
    {
        &self.stubs
    }
}
