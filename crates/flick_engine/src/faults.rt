//! Messages that are not calls, and calls that want no reply.

ghost use Rattle.std.specs.Prelude.{◌≡◌, ℕ, List, [], Ok, Some, map, true, IfOk, OnErr};
ghost use Rattle.std.specs.List.{list_any};
ghost use Rattle.std.specs.Str.{bytes_eq};
ghost use Rattle.aoi.specs.Plain.{PlainInterface, plain_interface};
ghost use Rattle.raw_buf.specs.Buf.{NoneFell};
ghost use Rattle.giop_head.specs.declared.header.HeadKind.TheVariants.{Requests};
ghost use Rattle.giop_head.specs.Heads.{StopsWith};
ghost use Rattle.flick_engine.specs.Backs.{Stops};
ghost use Rattle.flick_engine.specs.Refusals as refusals;
ghost use Rattle.flick_engine.specs.Refusals.{AnswersFault, AnswersOther, addressing_answer, has_object, onc_answer};
ghost use Rattle.flick_engine.specs.Serving as serving;
ghost use Rattle.flick_engine.specs.Serving.{reply_in};

use crate::engine::Engine;
use crate::reply_leads::{put_locate_reply, put_message_error};
use crate::serve::Served;
use aoi::Interface;
use demux::WordName;
use giop_head::GiopCall;
use head_kit::{CallHead, CallTarget};
use kit_base::NoMemory;
use raw_buf::SendBuf;
use wire_def::{Back, Head, HeadErr, Order, Refusal};

/// The version of the protocol of ONC calls.
const PROTOCOL: u32 = 2;

/// The head of the reply to a call with this transaction.
fn onc_head(id: u32) -> Head
    ensures { result.id ≡ id }
{
    Head {
        id,
        remote: 0,
        local: 0,
        wants: true,
        order: Order::Big,
    }
}

/// Whether a fault is that of another version of the protocol.
fn is_version(fault: HeadErr) -> bool
    ensures { result ≡ refusals.is_version fault }
{
    matches!(fault, HeadErr::Version)
}

/// Whether a fault is that of a message of another type.
fn is_type(fault: HeadErr) -> bool
    ensures { result ≡ refusals.is_type fault }
{
    matches!(fault, HeadErr::Type_)
}

/// Answers a message whose head is not that of an ONC call: another version of the protocol is refused.
fn answer_onc(fault: HeadErr, message: &[u8], buf: &mut SendBuf) -> Result<Served, NoMemory>
    requires { buf.old.done ≡ [] }
    ensures serves { IfOk result (λ s. reply_in s buf.new.done ≡ onc_answer message.now fault) }
    ensures silent { (result ≡ Ok Served.Silent) → buf.new.done ≡ [] }
    ensures memory { OnErr result (refusals.is_version fault ≡ true) }
    ensures spent { NoneFell buf.old.spent buf.new.spent }
{
    if !is_version(fault) {
        return Ok(Served::Silent);
    }
    let transaction = WordName::new(message).word(0);
    let why = Refusal::RpcMismatch(PROTOCOL, PROTOCOL);
    back_xdr::put_refusal(&why, &onc_head(transaction), buf)?;
    Ok(Served::Reply)
}

/// Whether a type of GIOP messages asks for nothing: Reply, CancelRequest, LocateReply, CloseConnection, MessageError.
fn asks_nothing(message_type: u8) -> bool
    ensures { result ≡ refusals.asks_nothing message_type }
{
    message_type == 1
        || message_type == 2
        || message_type == 4
        || message_type == 5
        || message_type == 6
}

/// Whether a message is of such a type, by its eighth octet.
fn has_such_type(message: &[u8]) -> bool
    ensures { result ≡ refusals.has_such_type message.now }
{
    message.len() > 7 && asks_nothing(message[7])
}

/// Whether a message that is not a call is passed over.
fn is_passed_over(message: &[u8], fault: HeadErr) -> bool
    ensures { result ≡ refusals.is_passed_over message.now fault }
{
    is_type(fault) && has_such_type(message)
}

/// Whether one of the interfaces has the key as its name.
fn has_name(interfaces: &[Interface], key: &[u8]) -> bool
    ensures { result
        ≡ list_any (λ (i : PlainInterface). bytes_eq i.name key.now) (map plain_interface interfaces.now) }
{
    for i in interfaces {
        if i.name.as_slice() == key {
            return true;
        }
    }
    false
}

/// Answers a request whose object is named otherwise than by a key, in an empty buffer: the client is to name it so.
fn answer_addressing(order: Order, head: &Head, buf: &mut SendBuf) -> Result<Served, NoMemory>
    requires { buf.old.done ≡ [] }
    ensures serves { IfOk result (λ s. reply_in s buf.new.done ≡ addressing_answer order head.now) }
    ensures silent { (result ≡ Ok Served.Silent) → buf.new.done ≡ [] }
    ensures memory { OnErr result (head.now.wants ≡ true) }
    ensures spent { NoneFell buf.old.spent buf.new.spent }
{
    if !head.wants {
        return Ok(Served::Silent);
    }
    let reply = Head {
        id: head.id,
        remote: 0,
        local: 0,
        wants: true,
        order,
    };
    giop_head::put_addressing(&reply, buf)?;
    Ok(Served::Reply)
}

impl Engine {
    /// Whether an operation has a reply.
    fn has_reply(&self, op: u32) -> bool
        ensures { result ≡ serving.has_reply self.now.binding op }
    {
        match self.bound().ops().get(op as usize) {
            Some(operation) => operation.has_reply,
            None => true,
        }
    }

    /// Whether what a call names has a reply, where it is an operation.
    fn names_reply(&self, naming: &CallTarget) -> bool
        ensures { result ≡ serving.names_reply self.now.binding naming.now }
    {
        match naming {
            CallTarget::Operation(op) => self.has_reply(*op),
            CallTarget::NoInterface => true,
            CallTarget::NoOperation => true,
        }
    }

    /// Whether a call wants a reply.
    fn wants_reply(&self, head: &Head) -> bool
        ensures { result ≡ refusals.wants_reply self.now.binding.back head.now }
    {
        match self.bound().back() {
            Back::Xdr => head.wants,
            Back::CdrBig => head.wants,
            Back::CdrLittle => head.wants,
            Back::Mach => head.local != 0,
        }
    }

    /// Whether a call is answered.
    pub(crate) fn is_answered(&self, called: &CallHead) -> bool
        ensures { result ≡ serving.is_answered self.now.binding called.now }
    {
        self.wants_reply(&called.head) && self.names_reply(&called.naming)
    }

    /// Whether an object has the key.
    fn has_object(&self, key: &[u8]) -> bool
        ensures { result ≡ has_object self.now.binding key.now }
    {
        has_name(self.bound().unit().interfaces().as_slice(), key)
    }

    /// Answers a GIOP message that is not a request by a key, in an empty buffer.
    fn answer_giop(
        &self,
        order: Order,
        fault: HeadErr,
        message: &[u8],
        buf: &mut SendBuf,
    ) -> Result<Served, NoMemory>
        requires stops { StopsWith Requests message.now fault }
        requires empty { buf.old.done ≡ [] }
        ensures serves { IfOk result (λ s.
            AnswersOther self.now.minor order self.now.binding message.now (reply_in s buf.new.done)) }
        ensures silent { (result ≡ Ok Served.Silent) → buf.new.done ≡ [] }
        ensures memory { OnErr result ((x : List ℕ)
            × AnswersOther self.now.minor order self.now.binding message.now (Some x)) }
        ensures spent { NoneFell buf.old.spent buf.new.spent }
    {
        match giop_head::read_call(message) {
            Ok(GiopCall::Locate { id, key, minor }) => {
                put_locate_reply(minor, order, id, self.has_object(key), buf)?;
                Ok(Served::Reply)
            }
            Ok(GiopCall::Addressing { head }) => answer_addressing(order, &head, buf),
            Ok(GiopCall::Request { .. }) => unreachable!(),
            Err(fault) => {
                if is_passed_over(message, fault) {
                    return Ok(Served::Silent);
                }
                put_message_error(self.minor(), order, buf)?;
                Ok(Served::Reply)
            }
        }
    }

    /// Answers a message whose head is not one of a call, in an empty buffer.
    pub(crate) fn answer_fault(
        &self,
        fault: HeadErr,
        message: &[u8],
        buf: &mut SendBuf,
    ) -> Result<Served, NoMemory>
        requires stops { Stops self.now.binding.back message.now fault }
        requires empty { buf.old.done ≡ [] }
        ensures serves { IfOk result (λ s.
            AnswersFault self.now.binding.back self.now.minor self.now.binding message.now fault
            (reply_in s buf.new.done)) }
        ensures silent { (result ≡ Ok Served.Silent) → buf.new.done ≡ [] }
        ensures memory { OnErr result ((x : List ℕ)
            × AnswersFault self.now.binding.back self.now.minor self.now.binding message.now fault (Some x)) }
        ensures spent { NoneFell buf.old.spent buf.new.spent }
    {
        match self.bound().back() {
            Back::Xdr => answer_onc(fault, message, buf),
            Back::CdrBig => self.answer_giop(Order::Big, fault, message, buf),
            Back::CdrLittle => self.answer_giop(Order::Little, fault, message, buf),
            Back::Mach => Ok(Served::Silent),
        }
    }
}
