//! A bridge.

ghost use Rattle.std.specs.Prelude.{◌≡◌, ℕ, List, IfOk, Ok};
ghost use Rattle.pres.specs.Bindings.{IsBinding};
ghost use Rattle.flick_bridge.specs.Bridged.{IsBridging, IsBridged, IsOfMessage};

use crate::ends::BothEnds;
use flick_engine::Engine;
use flick_lines::{copied, digits, record_of};
use gateway::{Gateway, PassErr};
use hex::FromHexError;
use kit_base::{NoMemory, Octets};
use std::alloc::Global;
use std::marker::Model;

/// Two engines of one unit: the messages of requests under one are answered by those of the same requests under the
/// other.
#[derive(Drop)]
pub struct Bridge {
    from: Engine,
    to: Engine,
}

impl Model for Bridge {
    ghost use Rattle.std.specs.Coded.{codes};
    ghost use Rattle.aoi.specs.Stored.{coded_shape, coded_members};
    ghost use Rattle.cast_stub.specs.contracts.send.SendOp as s;
    ghost use Rattle.cast_stub.specs.contracts.recv.RecvOp as r;
    ghost use Rattle.flick_bridge.specs.Bridged.{Bridging, IsBridging};

    ghost Value = { Bridging };

    ghost coded = { Prim.hlevel (codes, coded_shape, coded_members, s.the_row.coded, r.the_row.coded) };

    ghost view = { λ b. record { from = b.from; to = b.to } };

    ghost invariant = { λ b. IsBridging (record { from = b.from; to = b.to }) };
}

impl Bridge {
    /// A bridge from the messages of one engine to those of another engine of the same unit.
    pub fn new(from: Engine, to: Engine) -> Bridge
        requires { from.binding.unit ≡ to.binding.unit }
        ensures { result ≡ record { from = from; to = to } }
    {
        it_is_bound(&from);
        it_is_bound(&to);
        Bridge { from, to }
    }

    /// The engine of the messages that are read.
    pub fn engine(&self) -> &Engine
        ensures { result.now ≡ self.now.from }
    {
        &self.from
    }

    /// The engine of the messages that are read, without the other.
    pub fn into_engine(self) -> Engine
        ensures { result ≡ self.from }
    {
        self.from
    }

    /// The answer of `bridge` to a line, without its line feed.
    pub fn answer(&self, alloc: Global, line: &[u8]) -> Result<Octets, NoMemory>
        ensures { IfOk result (λ o. IsBridged self.now line.now o) }
    {
        match kit_digits::decode(alloc, line) {
            Ok(message) => self.of_message(alloc, message.as_slice()),
            Err(FromHexError::OutOfMemory) => Err(NoMemory),
            Err(_) => copied(alloc, b"! hex"),
        }
    }

    /// The two engines, as the ends of a gateway.
    fn ends(&self) -> BothEnds<'_>
        ensures value { result ≡ self.now }
        ensures stands { IsBridging self.now }
    {
        BothEnds::new(&self.from, &self.to)
    }

    /// The answer to a message.
    fn of_message(&self, alloc: Global, message: &[u8]) -> Result<Octets, NoMemory>
        ensures { IfOk result (λ o. IsOfMessage self.now (Ok message.now) o) }
    {
        let gateway = Gateway::new(self.ends());
        match gateway.pass(alloc, message) {
            Ok(passed) => digits(alloc, passed.as_slice()),
            Err(PassErr::Read(_)) => record_of(alloc, self.engine(), message),
            Err(PassErr::Pair) => copied(alloc, b"! pair"),
            Err(PassErr::Long) => copied(alloc, b"! long"),
            Err(PassErr::NoMemory) => Err(NoMemory),
        }
    }

    /// Each line has an answer. It does nothing.
    pub fn lines_are_answered(&self)
        ensures { (line : List ℕ) → (a : List ℕ) × IsBridged self.now line a }
    {
        self.from.bound().mint().types_are_sound();
    }
}

/// What an engine has is a binding. It does nothing.
fn it_is_bound(engine: &Engine)
    ensures { IsBinding engine.now.binding }
{
    let _ops = engine.bound().ops();
}
