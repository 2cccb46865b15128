//! The two engines of a bridge, as the ends of a gateway.

ghost use Rattle.std.specs.Prelude.{◌≡◌, ◌≢◌, IfOk, OnOk};
ghost use Rattle.flick_bridge.specs.Bridged.{IsBridging, asks, declines, paired, told};
ghost use Rattle.flick_bridge.specs.Once.{one};

use crate::heads::{head_at, number_in};
use flick_engine::{Engine, MarshalErr, MessageErr, Request};
use gateway::{Asked, Ends, WriteErr};
use kit_base::{NoMemory, Octets};
use mint::value::Value;
use pres_pairs::pair_of;
use raw_buf::{RecvView, SendBuf};
use std::alloc::Global;
use std::marker::Model;
use wire_def::Head;

/// Two engines of one unit: the one by which messages are read, and the one by which they are written.
#[derive(Drop)]
pub(crate) struct BothEnds<'a> {
    from: &'a Engine,
    to: &'a Engine,
}

impl<'a> Model for BothEnds<'a> {
    ghost use Rattle.std.specs.Coded.{codes};
    ghost use Rattle.aoi.specs.Stored.{coded_shape, coded_members};
    ghost use Rattle.cast_stub.specs.contracts.send.SendOp as s;
    ghost use Rattle.cast_stub.specs.contracts.recv.RecvOp as r;
    ghost use Rattle.flick_bridge.specs.Bridged.{Bridging, IsBridging};

    ghost Value = { Bridging };

    ghost coded = { Prim.hlevel (codes, coded_shape, coded_members, s.the_row.coded, r.the_row.coded) };

    ghost view = { λ e. record { from = e.from.now; to = e.to.now } };

    ghost invariant = { λ e. IsBridging (record { from = e.from.now; to = e.to.now }) };
}

impl<'a> BothEnds<'a> {
    /// Two engines of one unit.
    pub(crate) fn new(from: &'a Engine, to: &'a Engine) -> BothEnds<'a>
        requires { IsBridging (record { from = from.now; to = to.now }) }
        ensures { result ≡ record { from = from.now; to = to.now } }
    {
        BothEnds { from, to }
    }
}

impl<'a> Ends for BothEnds<'a> {
    type Refused = MessageErr;

    ghost Asks = { asks };

    ghost Declines = { declines };

    ghost paired = { paired };

    ghost told = { told };

    ghost one = { one };

    fn read(&self, alloc: Global, octets: &[u8]) -> Result<Asked<MessageErr>, NoMemory> {
        let mut view = RecvView::new(octets);
        match self.from.unmarshal(alloc, &mut view) {
            Ok(request) => {
                let Request { op, head, value } = request;
                Ok(Asked::Request(op, head, value))
            }
            Err(refusal) => Ok(Asked::Refused(unless_memory(refusal)?)),
        }
    }

    fn pair(&self, op: u32, head: &Head) -> Option<(u32, Head)> {
        let from = self.from.bound();
        let to = self.to.bound();
        let other = pair_of(from, to, op)?;
        Some((other, head_at(to, other, number_in(from.back(), head))))
    }

    fn write(
        &self,
        alloc: Global,
        op: u32,
        head: &Head,
        value: &Value,
    ) -> Result<Octets, WriteErr> {
        let Ok(mut buf) = SendBuf::new(alloc) else {
            return Err(WriteErr::NoMemory);
        };
        match self.to.marshal(op, head, value, &mut buf) {
            Ok(()) => match Octets::from_slice(alloc, buf.octets()) {
                Ok(message) => Ok(message),
                Err(NoMemory) => Err(WriteErr::NoMemory),
            },
            Err(why) => Err(unwritten(why)),
        }
    }
}

/// Why a request is not written, by why its message was not made.
fn unwritten(why: MarshalErr) -> WriteErr
    ensures long { why ≡ MarshalErr.Long → result ≡ WriteErr.Long }
    ensures memory { why ≡ MarshalErr.NoMemory → result ≡ WriteErr.NoMemory }
{
    match why {
        MarshalErr::Long => WriteErr::Long,
        MarshalErr::NoMemory => WriteErr::NoMemory,
    }
}

/// A refusal that is not for want of memory.
fn unless_memory(refusal: MessageErr) -> Result<MessageErr, NoMemory>
    ensures same { IfOk result (λ e. e ≡ refusal) }
    ensures memory { OnOk result (refusal ≢ MessageErr.NoMemory) }
{
    match refusal {
        MessageErr::Long
        | MessageErr::Head(_)
        | MessageErr::NoInterface
        | MessageErr::NoOperation
        | MessageErr::Body(_)
        | MessageErr::Trailing(_) => Ok(refusal),
        MessageErr::NoMemory => Err(NoMemory),
    }
}
