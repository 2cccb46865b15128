//! Requests that are received by the code of their operation.

ghost use Rattle.std.specs.Prelude.{◌≡◌, ◌<◌, ◌≤◌, length, drop, IfOk};
ghost use Rattle.kit_base.specs.Limits.{longest_message};
ghost use Rattle.mint.specs.Types.{type_at};
ghost use Rattle.wire_def.specs.Grammar.{AreOctets};
ghost use Rattle.wire_def.specs.Places.{IsPlace};
ghost use Rattle.cast_stub.specs.Got.{got_by};
ghost use Rattle.stub_receiver.specs.Ran.{place_of, IsGot, IsSpelled};
ghost use Rattle.stub_codes.specs.Backs.{encoding, Takes};
ghost use Rattle.stub_codes.specs.Messages.{request_type};
ghost use Rattle.stub_codes.specs.Receiving.{Receives};
ghost use Rattle.stub_codes.specs.Stubs.{IsGivenBy};

use crate::codes::Codes;
use crate::compile::request_of;
use cast_stub::RecvCode;
use kit_base::NoMemory;
use mint::table::{Mint, NodeId};
use raw_buf::RecvView;
use std::alloc::Global;
use stub_receiver::{Got, run_recv};
use wire_def::Encoding;

impl Codes {
    /// Receives what goes into an operation, laid out so from the view's place on, by the operation's code. It gives
    /// the value that the next octets spell, and passes them; `Not` where none spell one.
    pub fn receive(
        &self,
        alloc: Global,
        op: u32,
        enc: Encoding,
        view: &mut RecvView<'_>,
    ) -> Result<Got, NoMemory>
        // What is received.
        requires op { op < length self.now.binding.ops }
        requires takes { Takes self.now.binding.back enc }
        requires place { IsPlace enc view.old.pos }
        requires short { length view.old.octets ≤ longest_message }
        // What it gives.
        ensures spelled { IfOk result
            (λ got. IsSpelled enc (request_type self.now.binding op) got view.old view.new) }
        ensures given { (enc ≡ encoding self.now.binding.back) → IfOk result
            (λ got. IsGivenBy self.now.stubs op (request_type self.now.binding op) got view.old view.new) }
        // What stays the same.
        ensures octets { view.new.octets ≡ view.old.octets }
    {
        let code = self.recv_code_over(op, enc);
        let bound = self.bound();
        received(alloc, code, bound.mint(), request_of(bound, op), enc, view)
    }
}

/// Receives a value of a node by its code.
fn received(
    alloc: Global,
    code: &RecvCode,
    mint: &Mint,
    id: NodeId,
    _enc: Encoding,
    view: &mut RecvView<'_>,
) -> Result<Got, NoMemory>
    requires receives { Receives _enc (type_at mint.now id) code.now }
    requires place { IsPlace _enc view.old.pos }
    requires short { length view.old.octets ≤ longest_message }
    ensures spelled { IfOk result (λ got. IsSpelled _enc (type_at mint.now id) got view.old view.new) }
    ensures given { IfOk result
        (λ got. IsGot got view.new (got_by code.now (type_at mint.now id) (place_of view.old))) }
    ensures octets { view.new.octets ≡ view.old.octets }
{
    let _rest = rest_of(view);
    run_recv(alloc, code, mint, id, view)
}

/// The octets that are left. The place is within the message.
fn rest_of<'a>(view: &RecvView<'a>) -> &'a [u8]
    ensures octets { AreOctets (drop view.now.pos view.now.octets) }
    ensures within { view.now.pos ≤ length view.now.octets }
{
    let _pos = view.pos();
    octets_of(view.rest())
}

/// The same octets, of which each is below 256.
fn octets_of(octets: &[u8]) -> &[u8]
    ensures same { result.now ≡ octets.now }
    ensures octets { AreOctets result.now }
{
    &octets[0..]
}
