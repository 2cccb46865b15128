//! What differs from one back end to another, from the crate of each.

ghost use Rattle.std.specs.Prelude.{◌≡◌, ◌<◌, length, IfOk, IfErr};
ghost use Rattle.head_kit.specs.Calls.{IsBelow};
ghost use Rattle.back_cdr.specs.Targets.{IsCdr};
ghost use Rattle.flick_engine.specs.Backs.{Begins, Stops, encoding_by, heard, BeginsReply, ReplyStops};

use crate::engine::Engine;
use crate::reply_leads::reply_id;
use back_mach::routines::routine_of;
use head_arms::exceptions_of;
use head_kit::CallHead;
use wire_def::{Back, Encoding, Head, HeadErr, Order, ReplyHead};

impl Engine {
    /// Reads the head of a call from the first octets of a message.
    pub(crate) fn read_head(&self, message: &[u8]) -> Result<CallHead, HeadErr>
        ensures begins { IfOk result (λ c. Begins self.now.binding message.now c) }
        ensures below { IfOk result (λ c. IsBelow (length self.now.binding.ops) c.naming) }
        ensures stops { IfErr result (λ e. Stops self.now.binding.back message.now e) }
    {
        match self.bound().back() {
            Back::Xdr => back_xdr::read_called(self.bound(), message),
            Back::CdrBig | Back::CdrLittle => self.read_named(message),
            Back::Mach => back_mach::read_called(self.bound(), message),
        }
    }

    /// Reads the head of a request over CDR from the first octets of a message. What it names is picked among the
    /// names that the engine keeps.
    fn read_named(&self, message: &[u8]) -> Result<CallHead, HeadErr>
        requires cdr { IsCdr self.now.binding.back }
        ensures begins { IfOk result (λ c. Begins self.now.binding message.now c) }
        ensures below { IfOk result (λ c. IsBelow (length self.now.binding.ops) c.naming) }
        ensures stops { IfErr result (λ e. Stops self.now.binding.back message.now e) }
    {
        self.names().read_called(self.bound(), message)
    }

    /// Reads the head of a reply to an operation from the first octets of a message.
    pub(crate) fn read_reply_head<'m>(
        &self,
        op: u32,
        message: &'m [u8],
    ) -> Result<ReplyHead<'m>, HeadErr>
        requires op { op < length self.now.binding.ops }
        ensures begins { IfOk result (λ r.
            BeginsReply self.now.binding op message.now (heard self.now.binding op r)) }
        ensures stops { IfErr result (λ e. ReplyStops self.now.binding op message.now e) }
    {
        match self.bound().back() {
            Back::Xdr => {
                let arms = exceptions_of(self.bound(), op);
                back_xdr::read_reply(message, arms)
            }
            Back::CdrBig | Back::CdrLittle => giop_head::read_reply(message),
            Back::Mach => {
                let id = reply_id(routine_of(self.bound(), op).id);
                let arms = exceptions_of(self.bound(), op);
                back_mach::read_reply(message, id, arms)
            }
        }
    }

    /// How the body of a message is laid out, by its head.
    pub(crate) fn encoding_of(&self, head: &Head) -> Encoding
        ensures { result ≡ encoding_by self.now.binding.back head.now.order }
    {
        match self.bound().back() {
            Back::Xdr => back_xdr::ENCODING,
            Back::CdrBig | Back::CdrLittle => match head.order {
                Order::Big => Encoding::CdrBig,
                Order::Little => Encoding::CdrLittle,
            },
            Back::Mach => back_mach::ENCODING,
        }
    }
}
