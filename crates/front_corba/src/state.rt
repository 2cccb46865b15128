//! What a file offers so far.

ghost use Rattle.std.specs.Prelude.{◌≡◌, []};
ghost use Rattle.front_corba.specs.Held.{held};
ghost use Rattle.front_corba.specs.State.{start};

use crate::named::Offers;
use aoi::Operation;
use corba_shapes::Shapes;
use indexmap::IndexSet;
use kit_base::{Listed, Name};
use kit_shared::Shared;
use std::alloc::Global;

/// An operation of an interface.
#[derive(Drop)]
pub(crate) struct Offer {
    /// The interface in which it is declared, by its number among those of the file.
    pub(crate) home: u32,
    /// The operation.
    pub(crate) operation: Operation,
}

/// An interface.
#[derive(Drop)]
pub(crate) struct Offering {
    /// Its full name.
    pub(crate) name: Shared<Name>,
    /// Its operations: those of its bases, and then its own.
    pub(crate) ops: Offers,
}

/// What an interface has of its bases so far.
#[derive(Drop)]
pub(crate) struct Heir {
    /// The bases, by their numbers.
    pub(crate) numbers: IndexSet<u32>,
    /// Its operations.
    pub(crate) ops: Offers,
}

/// What a file offers so far.
#[derive(Drop)]
pub(crate) struct Resolver {
    /// The names, types and exceptions.
    pub(crate) shapes: Shapes,
    /// The interfaces.
    pub(crate) interfaces: Listed<Offering>,
}

impl Heir {
    /// An interface without bases.
    pub(crate) fn new(alloc: Global) -> Heir
        ensures numbers { result.numbers.keys ≡ [] }
        ensures ops { result.ops ≡ [] }
    {
        Heir {
            numbers: IndexSet::new(alloc),
            ops: Offers::new(alloc),
        }
    }
}

impl Resolver {
    /// Nothing, before the first declaration.
    pub(crate) fn new(alloc: Global) -> Resolver
        ensures { held result ≡ start }
    {
        Resolver {
            shapes: Shapes::new(alloc),
            interfaces: Listed::new(alloc),
        }
    }
}
