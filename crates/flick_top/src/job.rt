//! What answers the items of the input.

ghost use Rattle.std.specs.Prelude.{◌≡◌, true, codes, IfOk, OnOk};
ghost use Rattle.raw_buf.specs.Buf.{NoneFell};
ghost use Rattle.stub_codes.specs.Stubs.{IsCoded};
ghost use Rattle.flick_lines.specs.Sent.{SendsTo};
ghost use Rattle.flick_top.specs.Answer.{reads_stream, written_of, Answering, IsAnswering, IsVerbAnswer, IsWrittenFor, SendsFor};
ghost use Rattle.flick_top.specs.Task.{engine_in};
ghost use Rattle.flick_top.specs.Turn.{CanReply};

use crate::answered::{Answered, as_answer, with_end};
use crate::piped::piped;
use flick_bridge::Bridge;
use flick_engine::Engine;
use flick_lines::{Verb, copied};
use flick_serve::Server;
use json_shape::Scratch;
use kit_base::{NoMemory, Octets};
use raw_buf::SendBuf;
use std::alloc::Global;

/// What answers the items of the input.
#[derive(Drop)]
pub enum Job {
    /// What a verb makes of each line, over an engine.
    Over(Verb, Engine),
    /// The message of each line, as raw octets.
    Pipe(Engine),
    /// The record of each message of a raw stream.
    Unpipe(Engine),
    /// The replies of a server.
    Serve(Server),
    /// The messages of a bridge.
    Bridge(Bridge),
}

impl Job {
    /// The answer to the octets of a line. The scratch is for reading.
    pub fn answer(
        &self,
        alloc: Global,
        text: &[u8],
        scratch: &mut Scratch,
        buf: &mut SendBuf,
    ) -> Result<Answered, NoMemory>
        requires replies { CanReply self.now }
        ensures value { IfOk result (λ a. IsWrittenFor self.now text.now a.octets a.refused) }
        ensures sends { OnOk result (SendsFor self.now text.now buf.old buf.new) }
        ensures spent { NoneFell buf.old.spent buf.new.spent }
    {
        match self {
            Job::Over(verb, engine) => answered_by(alloc, *verb, engine, text, scratch, buf),
            Job::Pipe(engine) => piped(alloc, engine, text, scratch, buf),
            Job::Unpipe(engine) => {
                answered_by(alloc, Verb::Unmarshal, engine, text, scratch, buf)
            }
            Job::Serve(server) => {
                let reply = server.answer(alloc, text, buf)?;
                with_end(reply)
            }
            Job::Bridge(bridge) => {
                let message = bridge.answer(alloc, text)?;
                with_end(message)
            }
        }
    }

    /// The answer to a line that is too long.
    pub fn too_long(&self, alloc: Global) -> Result<Answered, NoMemory>
        ensures { IfOk result (λ a. (a.octets ≡ written_of self.now (codes "! long")) × (a.refused ≡ true)) }
    {
        match self {
            Job::Pipe(_) => Ok(Answered {
                octets: Octets::new(alloc),
                refused: true,
            }),
            Job::Over(_, _) | Job::Unpipe(_) | Job::Serve(_) | Job::Bridge(_) => {
                let line = copied(alloc, b"! long\n")?;
                Ok(as_answer(line))
            }
        }
    }

    /// The engine.
    pub fn engine(&self) -> &Engine
        ensures { result.now ≡ engine_in self.now }
    {
        match self {
            Job::Over(_, engine) | Job::Pipe(engine) | Job::Unpipe(engine) => engine,
            Job::Serve(server) => server.engine(),
            Job::Bridge(bridge) => bridge.engine(),
        }
    }

    /// Whether the input is a raw stream.
    pub fn reads_stream(&self) -> bool
        ensures { result ≡ reads_stream self.now }
    {
        match self {
            Job::Over(_, _) => false,
            Job::Pipe(_) => false,
            Job::Unpipe(_) => true,
            Job::Serve(_) => false,
            Job::Bridge(_) => false,
        }
    }

    /// Each item has an answer. It does nothing.
    pub fn items_are_answered(&self)
        ensures { (f : Answering) × IsAnswering self.now f }
    {
        match self {
            Job::Over(_, engine) => flick_lines::lines_are_answered(engine),
            Job::Pipe(engine) => flick_lines::lines_are_answered(engine),
            Job::Unpipe(engine) => flick_lines::lines_are_answered(engine),
            Job::Serve(server) => {
                flick_lines::lines_are_answered(server.engine());
                server.lines_are_answered()
            }
            Job::Bridge(bridge) => {
                flick_lines::lines_are_answered(bridge.engine());
                bridge.lines_are_answered()
            }
        }
    }

    /// Each code of the engine is that of its operation. It does nothing.
    pub fn codes_match_operations(&self)
        ensures { IsCoded (engine_in self.now) }
    {
        match self {
            Job::Over(_, engine) | Job::Pipe(engine) | Job::Unpipe(engine) => {
                engine.codes_match_operations()
            }
            Job::Serve(server) => server.engine().codes_match_operations(),
            Job::Bridge(bridge) => bridge.engine().codes_match_operations(),
        }
    }

    /// The engine.
    pub fn into_engine(self) -> Engine
        ensures { result ≡ engine_in self }
    {
        match self {
            Job::Over(_, engine) | Job::Pipe(engine) | Job::Unpipe(engine) => engine,
            Job::Serve(server) => server.into_engine(),
            Job::Bridge(bridge) => bridge.into_engine(),
        }
    }
}

/// The answer of a verb to the octets of a line.
fn answered_by(
    alloc: Global,
    verb: Verb,
    engine: &Engine,
    text: &[u8],
    scratch: &mut Scratch,
    buf: &mut SendBuf,
) -> Result<Answered, NoMemory>
    requires answers { (verb ≡ Verb.Reply) → engine.now.answers ≡ true }
    ensures value { IfOk result (λ a. IsVerbAnswer verb engine.now text.now a.octets a.refused) }
    ensures sends { OnOk result (SendsTo verb engine.now text.now buf.old buf.new) }
    ensures spent { NoneFell buf.old.spent buf.new.spent }
{
    let answer = flick_lines::answer(alloc, verb, engine, text, scratch, buf)?;
    with_end(answer)
}
