//! Calls that are refused.

ghost use Rattle.std.specs.Prelude.{◌≡◌, ◌≢◌, [], Err, Some, map, IfOk, OnErr, OnOk};
ghost use Rattle.aoi.specs.Plain.{plain_interface};
ghost use Rattle.raw_buf.specs.Buf.{NoneFell};
ghost use Rattle.back_cdr.specs.Targets as targets;
ghost use Rattle.back_cdr.specs.Targets.{IsCdr};
ghost use Rattle.wire_def.specs.declared.outcome.Refusal.TheVariants.{SystemException};
ghost use Rattle.flick_engine.specs.Backs.{Begins};
ghost use Rattle.flick_engine.specs.Received.{Answers, ReadCall};
ghost use Rattle.flick_engine.specs.Refusals as refusals;
ghost use Rattle.flick_engine.specs.Refusals.{IsOwnOver, NoInterfaceOver, RefusesOver, marshal_id, range, versions};
ghost use Rattle.flick_engine.specs.Serving.{IsRefused, RefusesCall};

use crate::engine::Engine;
use crate::errors::MessageErr;
use aoi::Interface;
use head_kit::CallHead;
use kit_base::{NoMemory, Octets};
use raw_buf::SendBuf;
use std::alloc::Global;
use stub_codes::bodies_are_taken;
use wire_def::{Back, Head, Order, Refusal};

/// All was done of what a call asks for (CORBA's completion status COMPLETED_YES).
const DONE: u32 = 0;

/// Nothing of it was done (COMPLETED_NO).
const UNDONE: u32 = 1;

/// No routine has the id of a request (MIG_BAD_ID of Mach's interface generator).
const BAD_ID: i32 = -303;

/// The parameters of a request are others (MIG_BAD_ARGUMENTS).
const BAD_ARGUMENTS: i32 = -304;

/// A range of versions with one more.
fn widened(version: u32, range: Option<(u32, u32)>) -> (u32, u32)
    ensures { result ≡ refusals.widened version range }
{
    match range {
        Some((low, high)) => (low.min(version), high.max(version)),
        None => (version, version),
    }
}

/// The least and the greatest version of a program.
fn range_of(program: u32, interfaces: &[Interface]) -> Option<(u32, u32)>
    ensures { result ≡ range (versions program (map plain_interface interfaces.now)) }
{
    let Some((i, others)) = interfaces.split_first() else {
        return None;
    };
    let range = range_of(program, others);
    if i.program == program {
        Some(widened(i.version, range))
    } else {
        range
    }
}

/// Why a version of a program is refused, where those that are there have a range.
fn no_version(range: Option<(u32, u32)>) -> Refusal
    ensures { result ≡ refusals.no_version range }
{
    match range {
        Some((low, high)) => Refusal::ProgMismatch(low, high),
        None => Refusal::ProgUnavail,
    }
}

/// A system exception with a repository id, whose minor number is 0.
fn system(alloc: Global, id: &[u8], completion: u32) -> Result<Refusal, NoMemory>
    ensures { IfOk result (λ why. why ≡ SystemException id.now 0 completion) }
{
    let id = Octets::from_slice(alloc, id)?;
    Ok(Refusal::SystemException(id, 0, completion))
}

/// The system exception of values that could not be read, or sent.
fn marshal(alloc: Global, completion: u32) -> Result<Refusal, NoMemory>
    ensures { IfOk result (λ why. why ≡ SystemException marshal_id 0 completion) }
{
    let id = b"IDL:omg.org/CORBA/MARSHAL:1.0";
    system(alloc, id.as_slice(), completion)
}

/// The order of the messages that a back end sends.
fn order_of(back: Back) -> Order
    ensures { result ≡ targets.order_of back }
{
    match back {
        Back::CdrLittle => Order::Little,
        Back::Xdr | Back::CdrBig | Back::Mach => Order::Big,
    }
}

impl Engine {
    /// The head of the reply to a call.
    pub(crate) fn reply_head(&self, head: &Head) -> Head
        ensures { result ≡ refusals.reply_head self.now.binding.back head.now }
    {
        Head {
            id: head.id,
            remote: head.local,
            local: 0,
            wants: true,
            order: order_of(self.bound().back()),
        }
    }

    /// Why a call of no interface is refused.
    fn no_interface(
        &self,
        alloc: Global,
        called: &CallHead,
        message: &[u8],
    ) -> Result<Refusal, NoMemory>
        requires { Begins self.now.binding message.now called.now }
        ensures value { IfOk result (λ why.
            NoInterfaceOver self.now.binding.back self.now.binding message.now why) }
        ensures own { IfOk result (λ why. IsOwnOver self.now.binding.back why) }
        ensures memory { OnErr result (IsCdr self.now.binding.back) }
    {
        match self.bound().back() {
            Back::Xdr => {
                let Ok(call) = back_xdr::read_call(message) else {
                    unreachable!()
                };
                let interfaces = self.bound().unit().interfaces();
                Ok(no_version(range_of(call.program, interfaces.as_slice())))
            }
            Back::CdrBig | Back::CdrLittle => {
                let id = b"IDL:omg.org/CORBA/OBJECT_NOT_EXIST:1.0";
                system(alloc, id.as_slice(), UNDONE)
            }
            Back::Mach => Ok(Refusal::RetCode(BAD_ID)),
        }
    }

    /// Why a call of no operation is refused.
    fn no_operation(&self, alloc: Global) -> Result<Refusal, NoMemory>
        ensures value { IfOk result (λ why. why ≡ refusals.no_operation self.now.binding.back) }
        ensures own { IfOk result (λ why. IsOwnOver self.now.binding.back why) }
        ensures memory { OnErr result (IsCdr self.now.binding.back) }
    {
        match self.bound().back() {
            Back::Xdr => Ok(Refusal::ProcUnavail),
            Back::CdrBig | Back::CdrLittle => {
                let id = b"IDL:omg.org/CORBA/BAD_OPERATION:1.0";
                system(alloc, id.as_slice(), UNDONE)
            }
            Back::Mach => Ok(Refusal::RetCode(BAD_ID)),
        }
    }

    /// Why a call is refused whose body is wrong.
    fn bad_body(&self, alloc: Global) -> Result<Refusal, NoMemory>
        ensures value { IfOk result (λ why. why ≡ refusals.bad_body self.now.binding.back) }
        ensures own { IfOk result (λ why. IsOwnOver self.now.binding.back why) }
        ensures memory { OnErr result (IsCdr self.now.binding.back) }
    {
        match self.bound().back() {
            Back::Xdr => Ok(Refusal::GarbageArgs),
            Back::CdrBig | Back::CdrLittle => marshal(alloc, UNDONE),
            Back::Mach => Ok(Refusal::RetCode(BAD_ARGUMENTS)),
        }
    }

    /// Why a call is refused whose reply would be too long.
    pub(crate) fn long_reply(&self, alloc: Global) -> Result<Refusal, NoMemory>
        ensures value { IfOk result (λ why. why ≡ refusals.long_reply self.now.binding.back) }
        ensures own { IfOk result (λ why. IsOwnOver self.now.binding.back why) }
        ensures memory { OnErr result (IsCdr self.now.binding.back) }
    {
        match self.bound().back() {
            Back::Xdr => Ok(Refusal::SystemErr),
            Back::CdrBig | Back::CdrLittle => marshal(alloc, DONE),
            Back::Mach => Ok(Refusal::RetCode(BAD_ARGUMENTS)),
        }
    }

    /// Why a call is refused, by the fault of its message.
    fn why(
        &self,
        alloc: Global,
        fault: MessageErr,
        called: &CallHead,
        message: &[u8],
    ) -> Result<Refusal, NoMemory>
        requires begins { Begins self.now.binding message.now called.now }
        requires is { Answers self.now.binding message.now (Err fault) }
        ensures value { IfOk result (λ why. IsRefused self.now.binding message.now fault why) }
        ensures own { IfOk result (λ why. IsOwnOver self.now.binding.back why) }
        ensures there { IfOk result (λ why. ReadCall self.now.binding message.now (Err fault)) }
        ensures memory { OnErr result (fault ≢ MessageErr.NoMemory → IsCdr self.now.binding.back) }
    {
        match fault {
            MessageErr::NoInterface => self.no_interface(alloc, called, message),
            MessageErr::NoOperation => self.no_operation(alloc),
            MessageErr::Long => self.bad_body(alloc),
            MessageErr::Head(_) => self.bad_body(alloc),
            MessageErr::Body(_) => self.bad_body(alloc),
            MessageErr::Trailing(_) => self.bad_body(alloc),
            MessageErr::NoMemory => Err(NoMemory),
        }
    }

    /// Puts the reply that refuses the call of a message, in its version, into an empty buffer.
    pub(crate) fn refuse(
        &self,
        why: &Refusal,
        called: &CallHead,
        message: &[u8],
        buf: &mut SendBuf,
    ) -> Result<(), NoMemory>
        requires begins { Begins self.now.binding message.now called.now }
        requires own { IsOwnOver self.now.binding.back why.now }
        requires empty { buf.old.done ≡ [] }
        ensures ok { OnOk result (RefusesOver self.now.binding.back called.now.minor message.now
            (refusals.reply_head self.now.binding.back called.now.head) why.now (Some buf.new.done)) }
        ensures spent { NoneFell buf.old.spent buf.new.spent }
    {
        bodies_are_taken();
        let head = self.reply_head(&called.head);
        match self.bound().back() {
            Back::Xdr => back_xdr::put_refusal(why, &head, buf),
            Back::CdrBig => giop_head::put_refusal(why, &head, called.minor, buf),
            Back::CdrLittle => giop_head::put_refusal(why, &head, called.minor, buf),
            Back::Mach => {
                let Ok(call) = back_mach::read_call(message) else {
                    unreachable!()
                };
                back_mach::put_refusal(why, &head, call.id, buf)
            }
        }
    }

    /// Puts the reply to a call whose message has a fault into an empty buffer.
    pub(crate) fn refuse_call(
        &self,
        alloc: Global,
        fault: MessageErr,
        called: &CallHead,
        message: &[u8],
        buf: &mut SendBuf,
    ) -> Result<(), NoMemory>
        requires begins { Begins self.now.binding message.now called.now }
        requires is { Answers self.now.binding message.now (Err fault) }
        requires empty { buf.old.done ≡ [] }
        ensures ok { OnOk result (RefusesCall self.now.binding called.now.minor message.now
            (refusals.reply_head self.now.binding.back called.now.head) fault (Some buf.new.done)) }
        ensures there { OnOk result (ReadCall self.now.binding message.now (Err fault)) }
        ensures spent { NoneFell buf.old.spent buf.new.spent }
    {
        let why = self.why(alloc, fault, called, message)?;
        self.refuse(&why, called, message, buf)
    }
}
