//! A table of replies.

ghost use Rattle.std.specs.Prelude.{◌≡◌, ◌<◌, None, Some, length, replicate, slice_set, is_err, is_some, IfNone, IfOk, IfSome, OnErr, OnOk};
ghost use Rattle.skeleton.specs.TableSkeleton.{kept_in};

use kit_base::{Listed, NoMemory};
use mint::value::Value;
use std::alloc::Global;
use std::marker::Model;

/// An operation has a reply already.
#[derive(Clone, Copy, Debug, PartialEq, Eq)]
pub struct Twice;

/// Replies to some of the operations of a binding, by their numbers.
#[derive(Drop)]
pub struct Replies {
    places: Listed<Option<Value>>,
}

impl Model for Replies {
    ghost use Rattle.std.specs.Coded.{codes};
    ghost use Rattle.mint.specs.contracts.value.Value as value;
    ghost use Rattle.skeleton.specs.TableSkeleton.{Places};

    ghost Value = { Places };

    ghost coded = { Prim.hlevel (codes, value.the_row.coded) };

    ghost view = { λ r. r.places };
}

/// `many` places, each without a reply.
fn empty_places(alloc: Global, many: usize) -> Result<Listed<Option<Value>>, NoMemory>
    ensures { IfOk result (λ places. places ≡ replicate many None) }
{
    let mut places = Listed::new(alloc);
    for _ in 0..many {
        places.push(None)?;
    }
    Ok(places)
}

impl Replies {
    /// A table for `many` operations, none of which has a reply.
    pub fn new(alloc: Global, many: usize) -> Result<Replies, NoMemory>
        ensures { IfOk result (λ r. r ≡ replicate many None) }
    {
        let places = empty_places(alloc, many)?;
        Ok(Replies { places })
    }

    /// The reply to an operation, if there is one.
    pub fn get(&self, op: u32) -> Option<&Value>
        requires { op < length self.now }
        ensures some { IfSome result (λ v. kept_in self.now op ≡ Some v.now) }
        ensures none { IfNone result (kept_in self.now op ≡ None) }
    {
        match self.places.get(op as usize) {
            Some(Some(reply)) => Some(reply),
            _ => None,
        }
    }

    /// Whether there is a reply to an operation.
    pub fn has(&self, op: u32) -> bool
        requires { op < length self.now }
        ensures { result ≡ is_some (kept_in self.now op) }
    {
        self.get(op).is_some()
    }

    /// Keeps a reply to an operation that has none. It takes no memory.
    pub fn put(&mut self, op: u32, reply: Value) -> Result<(), Twice>
        requires { op < length self.old }
        ensures ok { OnOk result (self.new ≡ slice_set self.old op (Some reply)) }
        ensures err { OnErr result (self.new ≡ self.old) }
        ensures twice { is_err result ≡ is_some (kept_in self.old op) }
    {
        if self.has(op) {
            return Err(Twice);
        }
        let mut place = Some(reply);
        self.places.exchange(op as usize, &mut place);
        Ok(())
    }
}
