//! Requests as messages.

ghost use Rattle.std.specs.Prelude.{◌≡◌, ◌<◌, ◌≤◌, [], length, OnErr, OnOk, Err};
ghost use Rattle.kit_base.specs.Limits.{longest_message};
ghost use Rattle.mint.specs.Typed.{IsWellTyped};
ghost use Rattle.mint.specs.Values.{seen};
ghost use Rattle.raw_buf.specs.Buf.{NoneFell};
ghost use Rattle.stub_codes.specs.Stubs.{IsCoveredRequest, IsSparingRequest};
ghost use Rattle.flick_engine.specs.Costs.{IsSentByCode};
ghost use Rattle.flick_engine.specs.Messages.{request_type, message};

use crate::engine::Engine;
use crate::errors::{MarshalErr, ended};
use mint::value::Value;
use raw_buf::SendBuf;
use wire_def::Head;

impl Engine {
    /// Makes the message of a request in a buffer by the stub code of its operation, whatever the buffer held;
    /// where there is none, the buffer is empty. What the buffer spent is kept.
    pub fn marshal(
        &self,
        op: u32,
        head: &Head,
        value: &Value,
        buf: &mut SendBuf,
    ) -> Result<(), MarshalErr>
        requires op { op < length self.now.binding.ops }
        requires typed { IsWellTyped (request_type self.now.binding op) (seen value.now) }
        // What `Ok` holds.
        ensures ok { OnOk result
            (buf.new.done ≡ message self.now.binding self.now.minor op head.now (seen value.now)) }
        ensures short { OnOk result
            (length (message self.now.binding self.now.minor op head.now (seen value.now))
            ≤ longest_message) }
        ensures cost { OnOk result
            (IsSentByCode self.now.stubs op head.now (seen value.now) buf.old.spent buf.new) }
        // What its code does.
        ensures covered { IsCoveredRequest self.now op head.now (seen value.now) }
        ensures sparing { IsSparingRequest self.now op head.now (seen value.now) }
        // When each error comes.
        ensures long { (result ≡ Err MarshalErr.Long)
            → longest_message
            < length (message self.now.binding self.now.minor op head.now (seen value.now)) }
        // What stays the same.
        ensures err { OnErr result (buf.new.done ≡ []) }
        ensures spent { NoneFell buf.old.spent buf.new.spent }
    {
        ended(self.stubs().send(op, head, value, buf))
    }
}
