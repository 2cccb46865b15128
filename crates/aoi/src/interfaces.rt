//! Interfaces and their operations. What operations have in common is kept once.

use crate::{Fields, FullName, RaiseFields, Ty};
use kit_base::{Listed, Name};
use kit_shared::Shared;

/// An exception, with the id that stands for it in a message.
#[derive(Debug, Drop)]
pub struct Raise {
    /// Its name.
    pub name: Shared<FullName>,
    /// The repository id that messages have for it.
    pub id: Shared<FullName>,
    /// Its members, as those of a struct.
    pub members: Shared<RaiseFields>,
}

/// The exceptions that an operation raises.
pub type Raises = Listed<Raise>;

/// An operation. An inout parameter is in `ins` and in `outs`.
#[derive(Debug, Drop)]
pub struct Operation {
    /// Its name.
    pub name: Shared<Name>,
    /// The number of its procedure in an ONC program.
    pub proc_no: u32,
    /// The message id of its request, counted from `base` of its interface, and below `slots`.
    pub slot: u32,
    /// The parameters that go in, in order.
    pub ins: Shared<Fields>,
    /// The parameters that come out, in order.
    pub outs: Shared<Fields>,
    /// The type of what it returns, or `Void`.
    pub result: Shared<Ty>,
    /// The exceptions that it raises, at most 4,095.
    pub raises: Shared<Raises>,
    /// Whether no reply is sent.
    pub oneway: bool,
}

/// Operations, in order.
pub type Operations = Listed<Operation>;

/// An interface. The requests of its operations have message ids from `base` up, below `base` plus
/// `slots`.
#[derive(Debug, Drop)]
pub struct Interface {
    /// Its name, which no other interface of the unit has.
    pub name: Shared<Name>,
    /// The number of its ONC program.
    pub program: u32,
    /// The number of its version of that program.
    pub version: u32,
    /// The least message id of a request.
    pub base: u32,
    /// How many message ids there are for requests.
    pub slots: u32,
    /// Its operations, in order, at most 256.
    pub ops: Operations,
}

/// Interfaces, in order.
pub type Interfaces = Listed<Interface>;
