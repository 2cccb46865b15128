//! What is stored at an offset of a chunk.

ghost use Rattle.std.specs.Prelude.{◌≡◌};
ghost use Rattle.cast_stub.specs.Puts.{head_number};

use crate::Constant;
use kit_base::Listed;
use wire_def::{Head, Order};

/// The numbers of fields, through groups; without one, the current value itself.
pub type Path = Listed<u32>;

/// The puts of a chunk.
pub type Puts = Listed<Put>;

/// A number of a message's head.
#[derive(Clone, Copy, Debug, PartialEq, Eq)]
pub enum HeadField {
    /// The transaction id, or request id.
    Id,
    /// The remote port of a Mach message.
    Remote,
    /// The local port of a Mach message.
    Local,
}

impl HeadField {
    /// The number that a head has there.
    pub fn of(self, head: &Head) -> u32
        ensures { result ≡ head_number self head.now }
    {
        match self {
            HeadField::Id => head.id,
            HeadField::Remote => head.remote,
            HeadField::Local => head.local,
        }
    }
}

/// Octets of a chunk, from an offset on.
#[derive(Drop)]
pub enum Put {
    /// A number, in two's complement: its offset, path, width and order.
    Num(u32, Path, u32, Order),
    /// The tag of an arm: offset, path, width and order.
    Tag(u32, Path, u32, Order),
    /// 1 where a value is there, else 0: offset, path, width and order.
    Flag(u32, Path, u32, Order),
    /// A length times a factor, plus a summand: offset, path, factor, summand, width and order.
    Count(u32, Path, u32, u32, u32, Order),
    /// A short Mach descriptor, whose number is a length times a factor: offset, path, name, size
    /// and factor.
    Short(u32, Path, u32, u32, u32),
    /// These octets: offset and octets.
    Const(u32, Constant),
    /// A number of the head: offset, which, width and order.
    Head(u32, HeadField, u32, Order),
}
