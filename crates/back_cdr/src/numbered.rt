//! Names that are found, each with its number.

ghost use Rattle.std.specs.Prelude.{◌≡◌, ◌+◌, length, map, IfOk};
ghost use Rattle.aoi.specs.Plain.{plain_operation};
ghost use Rattle.back_cdr.specs.Offered.{names_of, number_in, operation_in};

use aoi::Operation;
use demux::{Demux, WordName};
use head_kit::CallTarget;
use kit_base::NoMemory;
use kit_shared::SharedNames;
use std::alloc::Global;
use std::marker::Model;

/// Names in order, numbered from the first of them on: of the operations of an interface, or the repository
/// ids of the exceptions of an operation.
#[derive(Drop)]
pub(crate) struct Numbered {
    first: u32,
    names: Demux,
}

impl Model for Numbered {
    ghost use Rattle.std.specs.Prelude.{◌+◌, ◌<◌, ◌^◌, length};
    ghost use Rattle.back_cdr.specs.Offered.{Offered};

    ghost Value = { Offered };

    ghost view = { λ n. record { first = n.first; names = n.names } };

    ghost invariant = { λ n. n.first + length n.names < 2 ^ 32 };
}

/// The number after so many others.
fn number_after(first: u32, many: usize) -> Result<u32, NoMemory>
    ensures { IfOk result (λ n. n ≡ first + many) }
{
    match u32::try_from(many) {
        Ok(many) => match first.checked_add(many) {
            Some(n) => Ok(n),
            None => Err(NoMemory),
        },
        Err(_) => Err(NoMemory),
    }
}

/// Names that are to be found.
pub(crate) fn demux_of(alloc: Global, names: SharedNames) -> Result<Demux, NoMemory>
    ensures { IfOk result (λ d. d ≡ names) }
{
    if names.len() > 4_294_967_295 {
        return Err(NoMemory);
    }
    Demux::new(alloc, names)
}

/// The names of operations.
fn words_of(alloc: Global, ops: &[Operation]) -> Result<SharedNames, NoMemory>
    ensures { IfOk result (λ w. w ≡ names_of (map plain_operation ops.now)) }
{
    let mut words = SharedNames::new(alloc);
    for op in ops {
        words.push(op.name.share()?)?;
    }
    Ok(words)
}

impl Numbered {
    /// Names, of which the first has this number.
    pub(crate) fn of(alloc: Global, first: u32, names: SharedNames) -> Result<Numbered, NoMemory>
        ensures { IfOk result (λ n. n ≡ record { first = first; names = names }) }
    {
        number_after(first, names.len())?;
        Ok(Numbered {
            first,
            names: demux_of(alloc, names)?,
        })
    }

    /// The operations of an interface, of which the first has this number, and the number after them.
    pub(crate) fn new(
        alloc: Global,
        first: u32,
        ops: &[Operation],
    ) -> Result<(Numbered, u32), NoMemory>
        ensures value { IfOk result (λ n. n.0
            ≡ record { first = first; names = names_of (map plain_operation ops.now) }) }
        ensures next { IfOk result (λ n. n.1 ≡ first + length (map plain_operation ops.now)) }
    {
        let next = number_after(first, ops.len())?;
        let numbered = Numbered::of(alloc, first, words_of(alloc, ops)?)?;
        Ok((numbered, next))
    }

    /// The number of the first such name.
    pub(crate) fn number(&self, name: &[u8]) -> Option<u32>
        ensures { result ≡ number_in self.now name.now }
    {
        match self.names.pick(&mut WordName::new(name)) {
            Some(place) => Some(self.first + place),
            None => None,
        }
    }

    /// The operation of a name.
    pub(crate) fn find(&self, name: &[u8]) -> CallTarget
        ensures { result ≡ operation_in self.now name.now }
    {
        match self.number(name) {
            Some(op) => CallTarget::Operation(op),
            None => CallTarget::NoOperation,
        }
    }
}
