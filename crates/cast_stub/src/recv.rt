//! Code that receives.

ghost use Rattle.std.specs.Prelude.{◌≡◌, IfOk};
ghost use Rattle.cast_stub.specs.declared.recv.RecvOp.TheVariants.{Switch};

use crate::put::Path;
use kit_base::{Boxed, Listed, NoMemory, Octets};
use mint::keyed::Keyed;
use std::alloc::Global;
use wire_def::Order;

/// Operations, in order.
pub type RecvOps = Listed<RecvOp>;

/// The bodies of a switch, each with its number.
pub type RecvCases = Keyed<RecvOps>;

/// The body of every number that a switch has no body for, if there is one.
pub type RecvLast = Option<Boxed<RecvOps>>;

/// Codes that call one another by their places.
pub type RecvSubs = Listed<RecvOps>;

/// The gets of a take.
pub type Gets = Listed<Get>;

/// Operations, and the codes that their calls name.
#[derive(Drop)]
pub struct RecvCode {
    /// The operations, in order.
    pub ops: RecvOps,
    /// The codes that calls name by their places.
    pub subs: RecvSubs,
}

/// What is read at an offset.
#[derive(Drop)]
pub enum Get {
    /// A number, which must be in range: offset, path, width and order.
    Num(u32, Path, u32, Order),
    /// The tag of an arm: offset, path, width and order.
    Tag(u32, Path, u32, Order),
    /// Whether a value is there: offset, path, width and order.
    Flag(u32, Path, u32, Order),
    /// A length; the number read is the length times a factor, plus a summand: offset, path,
    /// factor, summand, width and order.
    Count(u32, Path, u32, u32, u32, Order),
    /// These octets: offset and octets.
    Const(u32, Octets),
}

/// An operation that receives.
#[derive(Drop)]
pub enum RecvOp {
    /// A test that so many octets follow.
    Need(u32),
    /// A test that as many octets follow as a length times a factor, plus a summand: path, factor,
    /// summand.
    NeedRow(Path, u32, u32),
    /// Octets up to a multiple, whatever they are.
    SkipAny(u32),
    /// Octets up to a multiple, which are 0.
    SkipZero(u32),
    /// What is read at offsets, and then so many octets are passed.
    Take(u32, Gets),
    /// A Mach descriptor in either form, which gives a length: path, name, size and factor.
    Desc(Path, u32, u32, u32),
    /// The numbers of a row.
    Row(Path, Order),
    /// The numbers of a row, each in four octets.
    RowWide(Path, Order),
    /// The body for each element, which is its current value.
    Each(Path, RecvOps),
    /// The body of the arm's number, or else the last one, on the arm's value.
    Switch(Path, Boxed<RecvCases>, RecvLast),
    /// The body on the value, where there is one.
    Some(Path, RecvOps),
    /// The code of a number, on the value at a path.
    Call(u32, Path),
}

impl RecvOp {
    /// A switch over the part at a path: the bodies of numbers, and that of every other, if there is one.
    pub fn switch(
        alloc: Global,
        path: Path,
        cases: RecvCases,
        last: Option<RecvOps>,
    ) -> Result<RecvOp, NoMemory>
        ensures { IfOk result (λ op. op ≡ Switch path cases last) }
    {
        let last = match last {
            Some(body) => Some(Boxed::new(alloc, body)?),
            None => None,
        };
        Ok(RecvOp::Switch(path, Boxed::new(alloc, cases)?, last))
    }
}
