//! The table of a reply.

ghost use Rattle.std.specs.Prelude.{◌≡◌, ◌≤◌, ◌<◌, Some, None, IfOk, length};
ghost use Rattle.flick_octets.specs.Laid.{laid};

use crate::body::{Body, LEVELS};
use crate::called::{Part, place_of};
use crate::exceptions::raise_of;
use crate::sayings::place_path;
use crate::sheet::{Sheet, Told};
use crate::stops::{Stop, Why};
use crate::table::{Table, table_of, table_of_long};
use crate::texts::owned;
use crate::{giop, mach, onc_reply};
use back_mach::routines::routine_of;
use head_arms::exceptions_of;
use kit_base::NoMemory;
use kit_base::limits::LONGEST_MESSAGE;
use mint::node::{Node, arm_of};
use mint::table::NodeId;
use pres::Bound;
use std::alloc::Global;
use wire_def::{Back, Encoding, HeadErr, Order, ReplyHead, Status};

/// How far a Mach reply's id is above that of its request.
const REPLY: u32 = 100;

/// What is looked for in a reply's head: so many exceptions, over Mach with an id.
#[derive(Clone, Copy)]
struct Asked {
    arms: u32,
    id: u32,
}

/// The table of a message as a reply to an operation.
pub fn tell_reply(alloc: Global, bound: &Bound, op: u32, message: &[u8]) -> Result<Table, NoMemory>
    requires { op < length bound.now.ops }
    ensures laid { IfOk result (λ t. laid 0 t.entries.items ≡ Some t.end) }
    ensures within { IfOk result (λ t. t.end ≤ length message.now) }
    ensures whole { IfOk result (λ t. t.stop ≡ None → t.end ≡ length message.now) }
{
    if message.len() > LONGEST_MESSAGE {
        return table_of_long(alloc, message);
    }
    let asked = asked_of(bound, op);
    let mut sheet = Sheet::new(alloc, message, message.len());
    let told = tell_head(&mut sheet, bound.back(), asked);
    let place = place_of(&sheet, told)?;
    let stop = match read_head(bound.back(), asked, message) {
        Err(fault) => Some(Stop::new(Why::Head(fault), place)),
        Ok(reply) => tell_fate(bound, op, &reply, &mut sheet, message)?,
    };
    table_of(sheet, Some(op), stop, message)
}

/// What the head of a reply to an operation has.
fn asked_of(bound: &Bound, op: u32) -> Asked
    requires { op < length bound.now.ops }
{
    Asked {
        arms: exceptions_of(bound, op),
        id: match bound.back() {
            Back::Mach => routine_of(bound, op).id.wrapping_add(REPLY),
            _ => 0,
        },
    }
}

/// The head of a reply.
fn read_head<'m>(back: Back, asked: Asked, message: &'m [u8]) -> Result<ReplyHead<'m>, HeadErr> {
    match back {
        Back::Xdr => back_xdr::read_reply(message, asked.arms),
        Back::CdrBig | Back::CdrLittle => giop_head::read_reply(message),
        Back::Mach => back_mach::read_reply(message, asked.id, asked.arms),
    }
}

/// The fields of the head, up to its first fault.
fn tell_head(sheet: &mut Sheet<'_>, back: Back, asked: Asked) -> Told {
    match back {
        Back::Xdr => onc_reply::tell_reply_head(sheet, asked.arms),
        Back::CdrBig | Back::CdrLittle => giop::tell_reply_head(sheet),
        Back::Mach => mach::tell_reply_head(sheet, asked.id, asked.arms),
    }
}

/// What follows the head of a reply.
#[derive(Clone, Copy)]
enum Fate {
    /// A value of this arm.
    Arm(u32),
    /// Nothing.
    Refused,
    /// The members of an exception that the operation does not raise, which are not looked at.
    Unknown,
}

/// What follows the head of a reply to an operation, by its status.
fn fate_of(bound: &Bound, op: u32, status: &Status<'_>) -> Fate {
    match status {
        Status::Answer => Fate::Arm(0),
        Status::Raised(arm) => Fate::Arm(*arm),
        Status::User(id) => match raise_of(bound, op, *id) {
            Some(arm) => Fate::Arm(arm),
            None => Fate::Unknown,
        },
        _ => Fate::Refused,
    }
}

/// The octets after the head of a reply. The first fault, where there is one.
fn tell_fate(
    bound: &Bound,
    op: u32,
    reply: &ReplyHead<'_>,
    sheet: &mut Sheet<'_>,
    message: &[u8],
) -> Result<Option<Stop>, NoMemory> {
    match fate_of(bound, op, &reply.status) {
        Fate::Arm(arm) => tell_answer(bound, op, arm, reply, sheet, message),
        Fate::Unknown => Ok(None),
        Fate::Refused => Ok(Stop::trailing(reply.used, message)),
    }
}

/// The node of an arm of an operation's reply.
fn arm_node(bound: &Bound, op: u32, arm: u32) -> Option<NodeId> {
    let operation = bound.ops().get(op as usize)?;
    match bound.mint().node(operation.reply)? {
        Node::Choice(_, arms, other) => arm_of(arms, *other, &i128::from(arm)),
        _ => None,
    }
}

/// The same of a reply with a value of an arm.
fn tell_answer(
    bound: &Bound,
    op: u32,
    arm: u32,
    reply: &ReplyHead<'_>,
    sheet: &mut Sheet<'_>,
    message: &[u8],
) -> Result<Option<Stop>, NoMemory> {
    let Some(id) = arm_node(bound, op, arm) else {
        return Ok(None);
    };
    let encoding = encoding_of(bound.back(), reply.head.order);
    let body = Body::new(sheet.alloc(), bound, encoding, message)?;
    let part = match arm {
        0 => Part::Results,
        _ => Part::Members,
    };
    body.tell_all(sheet, part, id, reply.used)
}

/// How the body of a reply is laid out.
fn encoding_of(back: Back, order: Order) -> Encoding {
    match back {
        Back::Xdr => Encoding::Xdr,
        Back::CdrBig | Back::CdrLittle => match order {
            Order::Big => Encoding::CdrBig,
            Order::Little => Encoding::CdrLittle,
        },
        Back::Mach => Encoding::Mach,
    }
}

impl Body<'_> {
    /// The result, and the parameters that come out.
    pub(crate) fn tell_results(&self, sheet: &mut Sheet<'_>, id: NodeId) -> Told {
        let Some((Node::Group(ids), _)) = self.bound.part(id) else {
            return Err(sheet.fault());
        };
        for (i, id) in ids.as_slice().iter().enumerate() {
            let path = result_path(sheet.alloc(), i)?;
            self.tell(sheet, *id, LEVELS, path.as_str())?;
        }
        Ok(())
    }
}

/// The path of the result, or of a parameter that comes out.
fn result_path(alloc: Global, i: usize) -> Result<String, NoMemory> {
    match i.checked_sub(1) {
        Some(i) => place_path(alloc, "outs", i),
        None => owned(alloc, "result"),
    }
}
