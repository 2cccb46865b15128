//! The table of a request.

ghost use Rattle.std.specs.Prelude.{◌≡◌, ◌≤◌, Some, None, IfOk, length};
ghost use Rattle.flick_octets.specs.Laid.{laid};

use crate::body::{Body, LEVELS};
use crate::sheet::{Halt, Sheet, Told};
use crate::stops::{Stop, Why};
use crate::table::{Table, end_of, table_of, table_of_long};
use crate::{giop, mach, onc};
use head_kit::{CallHead, CallTarget};
use kit_base::NoMemory;
use kit_base::limits::LONGEST_MESSAGE;
use mint::table::NodeId;
use plain_wire::{Read, plain_read};
use pres::Bound;
use std::alloc::Global;
use wire_def::{Back, HeadErr};

/// The table of a message as a request.
pub fn tell_request(alloc: Global, bound: &Bound, message: &[u8]) -> Result<Table, NoMemory>
    ensures laid { IfOk result (λ t. laid 0 t.entries.items ≡ Some t.end) }
    ensures within { IfOk result (λ t. t.end ≤ length message.now) }
    ensures whole { IfOk result (λ t. t.stop ≡ None → t.end ≡ length message.now) }
{
    if message.len() > LONGEST_MESSAGE {
        return table_of_long(alloc, message);
    }
    let mut sheet = Sheet::new(alloc, message, message.len());
    let told = tell_head(&mut sheet, bound.back());
    let place = place_of(&sheet, told)?;
    let (op, stop) = match read_called(bound, message) {
        Err(fault) => (None, Some(Stop::new(Why::Head(fault), place))),
        Ok(called) => tell_called(bound, &called, &mut sheet, message)?,
    };
    table_of(sheet, op, stop, message)
}

/// What the head of a message names.
fn read_called(bound: &Bound, message: &[u8]) -> Result<CallHead, HeadErr> {
    match bound.back() {
        Back::Xdr => back_xdr::read_called(bound, message),
        Back::CdrBig | Back::CdrLittle => back_cdr::read_called(bound, message),
        Back::Mach => back_mach::read_called(bound, message),
    }
}

/// The fields of the head, up to its first fault.
fn tell_head(sheet: &mut Sheet<'_>, back: Back) -> Told {
    match back {
        Back::Xdr => onc::tell_call_head(sheet),
        Back::CdrBig | Back::CdrLittle => giop::tell_call_head(sheet),
        Back::Mach => mach::tell_header(sheet, None),
    }
}

/// Where the telling of a part ended, or its fault is.
pub(crate) fn place_of(sheet: &Sheet<'_>, told: Told) -> Result<usize, NoMemory> {
    match told {
        Ok(()) => Ok(sheet.end()),
        Err(Halt::At(place)) => Ok(place),
        Err(Halt::NoMemory) => Err(NoMemory),
    }
}

/// The octets after the head of a request: the operation that it names, and the first fault, where there are such.
fn tell_called(
    bound: &Bound,
    called: &CallHead,
    sheet: &mut Sheet<'_>,
    message: &[u8],
) -> Result<(Option<u32>, Option<Stop>), NoMemory> {
    match called.naming {
        CallTarget::Operation(op) => tell_arguments(bound, called, op, sheet, message),
        CallTarget::NoInterface => Ok((None, Some(Stop::new(Why::Interface, called.used)))),
        CallTarget::NoOperation => Ok((None, Some(Stop::new(Why::Operation, called.used)))),
    }
}

/// The same of a request to an operation.
fn tell_arguments(
    bound: &Bound,
    called: &CallHead,
    op: u32,
    sheet: &mut Sheet<'_>,
    message: &[u8],
) -> Result<(Option<u32>, Option<Stop>), NoMemory> {
    let Some(operation) = bound.ops().get(op as usize) else {
        return Ok((None, None));
    };
    let body = Body::new(sheet.alloc(), bound, called.encoding, message)?;
    let stop = body.tell_all(sheet, Part::Arguments, operation.request, called.used)?;
    Ok((Some(op), stop))
}

/// What a body is.
#[derive(Clone, Copy)]
pub(crate) enum Part {
    /// The arguments of a request.
    Arguments,
    /// The result of a reply, and what comes out.
    Results,
    /// The members of an exception.
    Members,
}

impl Body<'_> {
    /// The octets of a body, a value of a node from a place on. Its first fault, where there is one.
    pub(crate) fn tell_all(
        &self,
        sheet: &mut Sheet<'_>,
        part: Part,
        id: NodeId,
        place: usize,
    ) -> Result<Option<Stop>, NoMemory> {
        let stop = self.stop(sheet.alloc(), id, place)?;
        sheet.set_limit(end_of(&stop, self.message));
        let told = match part {
            Part::Arguments => self.tell(sheet, id, LEVELS, "args"),
            Part::Results => self.tell_results(sheet, id),
            Part::Members => self.tell(sheet, id, LEVELS, "members"),
        };
        match told {
            Err(Halt::NoMemory) => Err(NoMemory),
            _ => Ok(stop),
        }
    }

    /// The first fault of the body of a node from a place on, where there is one.
    fn stop(&self, alloc: Global, id: NodeId, place: usize) -> Result<Option<Stop>, NoMemory> {
        let mint = self.bound.mint();
        let total = self.message.len();
        if id as usize >= mint.len() || place > total || total > LONGEST_MESSAGE {
            return Ok(None);
        }
        match plain_read(alloc, self.encoding, mint, id, place, self.message)? {
            Read::Value(_, used) => Ok(Stop::trailing(place.saturating_add(used), self.message)),
            Read::Stop(fault) => Ok(Some(Stop::new(Why::Body(fault.kind), fault.at))),
        }
    }
}
