//! Code that sends.

ghost use Rattle.std.specs.Prelude.{◌≡◌, IfOk};
ghost use Rattle.cast_stub.specs.Subs.{deepest};
ghost use Rattle.cast_stub.specs.declared.send.SendOp.TheVariants.{Switch};

use crate::put::{Path, Puts};
use kit_base::{Boxed, Listed, NoMemory};
use mint::keyed::Keyed;
use std::alloc::Global;
use wire_def::Order;

/// Operations, in order.
pub type SendOps = Listed<SendOp>;

/// The bodies of a switch, each with its number.
pub type SendCases = Keyed<SendOps>;

/// The body of every number that a switch has no body for, if there is one.
pub type SendLast = Option<Boxed<SendOps>>;

/// Codes that call one another by their places.
pub type SendSubs = Listed<SendOps>;

/// Operations, and the codes that their calls name.
#[derive(Drop)]
pub struct SendCode {
    /// The operations, in order.
    pub ops: SendOps,
    /// The codes that calls name by their places.
    pub subs: SendSubs,
}

/// An operation that sends.
#[derive(Drop)]
pub enum SendOp {
    /// So many octets are ensured.
    Ensure(u32),
    /// As many octets are ensured as a length times a factor, plus a summand: path, factor,
    /// summand.
    EnsureRow(Path, u32, u32),
    /// Zeros up to a multiple.
    Align(u32),
    /// So many octets, each stored by a put.
    Chunk(u32, Puts),
    /// The image of a row.
    RowCopy(Path),
    /// The image of a row, the octets of each number in the other order.
    RowSwap(Path),
    /// Each number of a row in four octets.
    RowWide(Path, Order),
    /// The body for each element, which is its current value.
    Each(Path, SendOps),
    /// The body of the arm's number, or else the last one, on the arm's value.
    Switch(Path, Boxed<SendCases>, SendLast),
    /// The body on the value, where there is one.
    Some(Path, SendOps),
    /// The code of a number, on the value at a path.
    Call(u32, Path),
    /// Four octets at a place of the message: the length so far, less a number.
    Patch(u32, u32, Order),
}

impl SendOp {
    /// A switch over the part at a path: the bodies of numbers, and that of every other, if there is one.
    pub fn switch(
        alloc: Global,
        path: Path,
        cases: SendCases,
        last: Option<SendOps>,
    ) -> Result<SendOp, NoMemory>
        ensures { IfOk result (λ op. op ≡ Switch path cases last) }
    {
        let last = match last {
            Some(body) => Some(Boxed::new(alloc, body)?),
            None => None,
        };
        Ok(SendOp::Switch(path, Boxed::new(alloc, cases)?, last))
    }
}

/// The calls of codes that may stand within one another, at most.
pub fn deepest_call() -> u32
    ensures { result ≡ deepest }
{
    4096
}
