//! The names by which requests over CDR find operations, and replies exceptions.

ghost use Rattle.std.specs.Prelude.{◌≡◌, ◌++◌, length, map, IfErr, IfOk, OnOk};
ghost use Rattle.aoi.specs.Plain.{plain_interface, plain_operation};
ghost use Rattle.wire_def.specs.Lone.{IsPlain};
ghost use Rattle.head_kit.specs.Calls.{IsBelow};
ghost use Rattle.giop_head.specs.declared.header.HeadKind.TheVariants.{Requests};
ghost use Rattle.giop_head.specs.Header.{IsMinor};
ghost use Rattle.giop_head.specs.Heads.{StopsWith};
ghost use Rattle.giop_head.specs.Reported.{request_seen};
ghost use Rattle.back_cdr.specs.Names.{AreNames, AreNamesOver, found, raise_of};
ghost use Rattle.back_cdr.specs.Offered.{ids_of, raised_by};
ghost use Rattle.back_cdr.specs.Seeking.{Calls, named};
ghost use Rattle.back_cdr.specs.Targets.{IsCdr};

use crate::listing::Listing;
use crate::numbered::{Numbered, demux_of};
use crate::seek::laid;
use crate::targets::operations_are_targets;
use aoi::{FullNames, Interface, Operation, Raise};
use demux::{Demux, WordName};
use giop_head::{GiopRequest, read_request};
use head_kit::{CallHead, CallTarget};
use kit_base::{Listed, NoMemory};
use kit_shared::SharedNames;
use pres::Bound;
use std::alloc::Global;
use wire_def::{Back, HeadErr};

/// The names of interfaces, in their order the operations of each, and in the order of all operations the
/// exceptions of each.
#[derive(Drop)]
pub struct Names {
    interfaces: Demux,
    offered: Listed<Numbered>,
    raised: Listed<Listing>,
}

/// The repository ids of exceptions.
fn words_of(alloc: Global, raises: &[Raise]) -> Result<FullNames, NoMemory>
    ensures { IfOk result (λ w. w ≡ ids_of raises.now) }
{
    let mut words = FullNames::new(alloc);
    for raise in raises {
        words.push(raise.id.share()?)?;
    }
    Ok(words)
}

/// Appends the exceptions of each of these operations.
fn append_raised(
    alloc: Global,
    ops: &[Operation],
    raised: &mut Listed<Listing>,
) -> Result<(), NoMemory>
    ensures { OnOk result (raised.new ≡ raised.old ++ map raised_by (map plain_operation ops.now)) }
{
    for op in ops {
        let ids = words_of(alloc, op.raises.as_slice())?;
        raised.push(Listing::of(alloc, ids)?)?;
    }
    Ok(())
}

impl Names {
    /// The names of interfaces and of their operations, and the exceptions of these.
    fn new(alloc: Global, interfaces: &[Interface]) -> Result<Names, NoMemory>
        ensures { IfOk result (AreNames (map plain_interface interfaces.now)) }
    {
        let mut words = SharedNames::new(alloc);
        let mut offered = Listed::new(alloc);
        let mut raised = Listed::new(alloc);
        let mut first = 0;
        for i in interfaces {
            words.push(i.name.share()?)?;
            let (numbered, next) = Numbered::new(alloc, first, i.ops.as_slice())?;
            offered.push(numbered)?;
            append_raised(alloc, i.ops.as_slice(), &mut raised)?;
            first = next;
        }
        Ok(Names {
            interfaces: demux_of(alloc, words)?,
            offered,
            raised,
        })
    }

    /// The names of what is bound, where its messages have names.
    pub fn of(alloc: Global, bound: &Bound) -> Result<Names, NoMemory>
        ensures { IfOk result (AreNamesOver bound.now.back bound.now.unit.interfaces) }
    {
        match bound.back() {
            Back::CdrBig | Back::CdrLittle => {
                Names::new(alloc, bound.unit().interfaces().as_slice())
            }
            Back::Xdr | Back::Mach => Names::new(alloc, &[]),
        }
    }

    /// The operation of a key and a name.
    fn find(&self, key: &[u8], name: &[u8]) -> CallTarget
        ensures { result ≡ found self.now key.now name.now }
    {
        let Some(place) = self.interfaces.pick(&mut WordName::new(key)) else {
            return CallTarget::NoInterface;
        };
        match self.offered.get(place as usize) {
            Some(numbered) => numbered.find(name),
            None => CallTarget::NoInterface,
        }
    }

    /// The operation that a request names.
    fn named(&self, bound: &Bound, request: &GiopRequest<'_>) -> CallTarget
        requires cdr { IsCdr bound.now.back }
        requires names { AreNamesOver bound.now.back bound.now.unit.interfaces self.now }
        ensures value { result ≡ named bound.now (request_seen request.now) }
        ensures below { IsBelow (length bound.now.ops) result }
    {
        operations_are_targets(bound);
        self.find(request.key, request.name)
    }

    /// Reads the head of a request from the first octets of a message, as `read_called` does. What it names is
    /// picked among the names.
    pub fn read_called(&self, bound: &Bound, message: &[u8]) -> Result<CallHead, HeadErr>
        requires cdr { IsCdr bound.now.back }
        requires names { AreNamesOver bound.now.back bound.now.unit.interfaces self.now }
        ensures begins { IfOk result (λ c. Calls bound.now message.now c) }
        ensures below { IfOk result (λ c. IsBelow (length bound.now.ops) c.naming) }
        ensures plain { IfOk result (λ c. IsPlain c.encoding) }
        ensures minor { IfOk result (λ c. IsMinor c.minor) }
        ensures stops { IfErr result (λ e. StopsWith Requests message.now e) }
    {
        match read_request(message) {
            Ok(request) => Ok(CallHead {
                naming: self.named(bound, &request),
                head: request.head,
                encoding: laid(request.head.order),
                used: request.used,
                minor: request.minor,
            }),
            Err(fault) => Err(fault),
        }
    }

    /// The number of the first exception of an operation with a repository id, from 1.
    pub fn raise(&self, op: u32, id: &[u8]) -> Option<u32>
        ensures { result ≡ raise_of self.now op id.now }
    {
        match self.raised.get(op as usize) {
            Some(listing) => listing.number(id),
            None => None,
        }
    }
}
