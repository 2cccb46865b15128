//! Requests that are read: by the code of their operation, and what they are not by the plain walk.

ghost use Rattle.std.specs.Prelude.{◌≡◌, ◌↔◌, ◌+◌, ◌<◌, ◌≤◌, ℕ, length, drop, IfOk};
ghost use Rattle.kit_base.specs.Limits.{longest_message};
ghost use Rattle.mint.specs.Values.{Val};
ghost use Rattle.wire_def.specs.declared.fault.FaultKind.{FaultKind};
ghost use Rattle.wire_def.specs.Places.{IsPlace};
ghost use Rattle.wire_def.specs.Stops.{Stops};
ghost use Rattle.plain_wire.specs.Answered.{FirstSpell, IsStop, IsValue};
ghost use Rattle.stub_codes.specs.Backs.{encoding, Takes};
ghost use Rattle.stub_codes.specs.Messages.{request_type};
ghost use Rattle.stub_codes.specs.Stubs.{IsReportedBy};

use crate::codes::Codes;
use crate::compile::request_of;
use kit_base::NoMemory;
use plain_wire::{Read, plain_read};
use raw_buf::RecvView;
use std::alloc::Global;
use stub_receiver::Got;
use wire_def::Encoding;

impl Codes {
    /// Reads what goes into an operation, laid out so from the view's place on. The operation's code gives the value;
    /// where it gives none, the plain walk over the message finds the first fault.
    pub fn read(
        &self,
        alloc: Global,
        op: u32,
        enc: Encoding,
        message: &[u8],
        view: &mut RecvView<'_>,
    ) -> Result<Read, NoMemory>
        requires op { op < length self.now.binding.ops }
        requires takes { Takes self.now.binding.back enc }
        requires message { view.old.octets ≡ message.now }
        requires place { IsPlace enc view.old.pos }
        requires short { length message.now ≤ longest_message }
        // What the message is from there on.
        ensures value { IfOk result (λ r. (v : Val) (used : ℕ) → IsValue r v used
            ↔ FirstSpell enc (request_type self.now.binding op) view.old.pos
            (drop view.old.pos message.now) v used) }
        ensures stop { IfOk result (λ r. (k : FaultKind) (at : ℕ) → IsStop r k at
            ↔ Stops enc (request_type self.now.binding op) view.old.pos
            (drop view.old.pos message.now) k at) }
        // Where the view then is.
        ensures passed { IfOk result (λ r. (v : Val) (used : ℕ) → IsValue r v used
            → view.new.pos ≡ view.old.pos + used) }
        ensures reported { (enc ≡ encoding self.now.binding.back)
            → IfOk result (λ r. (v : Val) (used : ℕ) → IsValue r v used
            → IsReportedBy self.now.stubs op (request_type self.now.binding op) v view.old view.new) }
        ensures octets { view.new.octets ≡ view.old.octets }
    {
        let at = view.pos();
        match self.receive(alloc, op, enc, view)? {
            Got::Value(value) => Ok(Read::Value(value, view.pos() - at)),
            Got::Not => {
                let bound = self.bound();
                plain_read(alloc, enc, bound.mint(), request_of(bound, op), at, message)
            }
        }
    }
}
