//! A server.

ghost use Rattle.std.specs.Prelude.{◌≡◌, ℕ, true, List, Result, IfErr, IfOk, OnOk, Ok};
ghost use Rattle.hex.specs.Hex.{decode_of};
ghost use Rattle.raw_buf.specs.Buf.{NoneFell};
ghost use Rattle.skeleton.specs.TableSkeleton.{answer_at};
ghost use Rattle.flick_serve.specs.Given.{Given, FileGives};
ghost use Rattle.flick_serve.specs.Served.{AgreesWith, IsOfMessage, IsServed};
ghost use Rattle.flick_serve.specs.Spent.{IsMessagePaid, IsServePaid};

use crate::given::{WrongLine, replies_in};
use flick_engine::{Engine, Served};
use flick_lines::{copied, digits};
use hex::FromHexError;
use kit_base::{NoMemory, Octets};
use raw_buf::{RecvView, SendBuf};
use skeleton::{Replies, TableSkeleton};
use std::alloc::Global;
use std::marker::Model;

/// The line of a file of replies that is wrong, and the engine that the file was read for.
#[derive(Drop)]
pub struct WrongReplies {
    /// The first line that gives no reply.
    pub line: WrongLine,
    /// The engine.
    pub engine: Engine,
}

/// An engine, and the replies that a file gives for its operations.
#[derive(Drop)]
pub struct Server {
    engine: Engine,
    text: Octets,
    replies: Replies,
}

impl Model for Server {
    ghost use Rattle.std.specs.Coded.{codes};
    ghost use Rattle.aoi.specs.Stored.{coded_shape, coded_members};
    ghost use Rattle.cast_stub.specs.contracts.send.SendOp as s;
    ghost use Rattle.cast_stub.specs.contracts.recv.RecvOp as r;
    ghost use Rattle.flick_serve.specs.Served.{IsServing, Serving};

    ghost Value = { Serving };

    ghost coded = { Prim.hlevel (codes, coded_shape, coded_members, s.the_row.coded, r.the_row.coded) };

    ghost view = { λ s. record { coded = s.engine; text = s.text } };

    ghost invariant = { λ s. IsServing (record { coded = s.engine; text = s.text }) s.replies };
}

impl Server {
    /// A server with the replies that a text gives for the operations of an engine, or the first line
    /// that is wrong, with the engine.
    pub fn new(
        alloc: Global,
        engine: Engine,
        text: Octets,
    ) -> Result<Result<Server, WrongReplies>, NoMemory>
        requires answers { engine.answers ≡ true }
        ensures is { IfOk result (λ r. IfOk r (λ s. s ≡ record { coded = engine; text = text })) }
        ensures engine { IfOk result (λ r. IfErr r (λ wrong. wrong.engine ≡ engine)) }
        ensures gives { IfOk result (λ r.
            (x : Result Given ℕ) × FileGives engine.binding text x × AgreesWith r x) }
    {
        match replies_in(alloc, &engine, text.as_slice())? {
            Ok(replies) => Ok(Ok(Server {
                engine,
                text,
                replies,
            })),
            Err(line) => Ok(Err(WrongReplies { line, engine })),
        }
    }

    /// The engine.
    pub fn engine(&self) -> &Engine
        ensures { result.now ≡ self.now.coded }
    {
        &self.engine
    }

    /// The engine, without the replies.
    pub fn into_engine(self) -> Engine
        ensures { result ≡ self.coded }
    {
        self.engine
    }

    /// The answer of `serve` to a line, without its line feed. The reply is made in the buffer.
    pub fn answer(&self, alloc: Global, line: &[u8], buf: &mut SendBuf) -> Result<Octets, NoMemory>
        ensures value { IfOk result
            (λ o. IsServed self.now.coded.binding self.now.coded.minor self.now.text line.now o) }
        ensures paid { OnOk result (IsServePaid self.now line.now buf.old buf.new) }
        ensures spent { NoneFell buf.old.spent buf.new.spent }
    {
        let kept = TableSkeleton::new(self.engine.bound(), &self.replies);
        of_line(alloc, &self.engine, &kept, line, buf)
    }

    /// Each line has an answer. It does nothing.
    pub fn lines_are_answered(&self)
        ensures { (line : List ℕ) → (a : List ℕ)
            × IsServed self.now.coded.binding self.now.coded.minor self.now.text line a }
    {
        self.engine.bound().mint().types_are_sound();
    }
}

/// The answer to a line as the digits of a message.
fn of_line(
    alloc: Global,
    engine: &Engine,
    kept: &TableSkeleton<'_>,
    line: &[u8],
    buf: &mut SendBuf,
) -> Result<Octets, NoMemory>
    requires made_for { kept.now.binding ≡ engine.now.binding }
    requires answers { engine.now.answers ≡ true }
    ensures value { IfOk result (λ o.
        IsOfMessage engine.now.binding engine.now.minor (answer_at kept.now) (decode_of line.now) o) }
    ensures paid { OnOk result
        (IsMessagePaid engine.now (answer_at kept.now) (decode_of line.now) buf.old buf.new) }
    ensures spent { NoneFell buf.old.spent buf.new.spent }
{
    match kit_digits::decode(alloc, line) {
        Ok(message) => of_message(alloc, engine, kept, message.as_slice(), buf),
        Err(FromHexError::OutOfMemory) => Err(NoMemory),
        Err(_) => copied(alloc, b"! hex"),
    }
}

/// The answer to a message.
fn of_message(
    alloc: Global,
    engine: &Engine,
    kept: &TableSkeleton<'_>,
    message: &[u8],
    buf: &mut SendBuf,
) -> Result<Octets, NoMemory>
    requires made_for { kept.now.binding ≡ engine.now.binding }
    requires answers { engine.now.answers ≡ true }
    ensures value { IfOk result (λ o.
        IsOfMessage engine.now.binding engine.now.minor (answer_at kept.now) (Ok message.now) o) }
    ensures paid { OnOk result
        (IsMessagePaid engine.now (answer_at kept.now) (Ok message.now) buf.old buf.new) }
    ensures spent { NoneFell buf.old.spent buf.new.spent }
{
    let mut view = RecvView::new(message);
    let served = engine.serve(alloc, kept, &mut view, buf)?;
    match served {
        Served::Reply => digits(alloc, buf.octets()),
        Served::Silent => copied(alloc, b"-"),
    }
}
