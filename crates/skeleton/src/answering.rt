//! Answers from a table of replies.

ghost use Rattle.std.specs.Prelude.{◌≡◌, ◌<◌, None, Some, length, IfNone, IfSome};
ghost use Rattle.mint.specs.Types.{type_at};
ghost use Rattle.skeleton.specs.Exchanges.{reply_type};
ghost use Rattle.skeleton.specs.TableSkeleton.{answer_at, reply_at, IsKept};

use crate::table::Replies;
use crate::work::Skeleton;
use kit_base::NoMemory;
use mint::blank_value::blank;
use mint::copying::copy_value;
use mint::table::NodeId;
use mint::value::Value;
use pres::Bound;
use std::alloc::Global;
use std::marker::Model;

/// The replies of a table to the operations of a binding: a kept one to some, the blank one to the
/// others. They are given whatever the request.
#[derive(Drop)]
pub struct TableSkeleton<'a> {
    bound: &'a Bound,
    replies: &'a Replies,
}

impl<'a> Model for TableSkeleton<'a> {
    ghost use Rattle.std.specs.Coded.{codes};
    ghost use Rattle.aoi.specs.Stored.{coded_shape, coded_members};
    ghost use Rattle.mint.specs.contracts.value.Value as value;
    ghost use Rattle.skeleton.specs.TableSkeleton.{IsKept, TableSkeleton as Table};

    ghost Value = { Table };

    ghost coded = { Prim.hlevel (codes, coded_shape, coded_members, value.the_row.coded) };

    ghost view = { λ k. record { binding = k.bound.now; replies = k.replies.now } };

    ghost invariant = { λ k. IsKept (record { binding = k.bound.now; replies = k.replies.now }) };
}

impl<'a> TableSkeleton<'a> {
    /// The replies of a table that has a place for each operation, and fits them.
    pub fn new(bound: &'a Bound, replies: &'a Replies) -> TableSkeleton<'a>
        requires { IsKept (record { binding = bound.now; replies = replies.now }) }
        ensures { result ≡ record { binding = bound.now; replies = replies.now } }
    {
        TableSkeleton { bound, replies }
    }

    /// The reply that is kept for an operation.
    fn kept(&self, op: u32) -> Option<&Value>
        requires { op < length self.now.binding.ops }
        ensures some { IfSome result (λ v. reply_at self.now op ≡ Some v.now) }
        ensures none { IfNone result (reply_at self.now op ≡ None) }
    {
        self.replies.get(op)
    }

    /// The node of the type of an operation's reply.
    fn reply(&self, op: u32) -> NodeId
        requires { op < length self.now.binding.ops }
        ensures node { result < length self.now.binding.nodes }
        ensures type_ { type_at self.now.binding.nodes result ≡ reply_type self.now.binding op }
    {
        match self.bound.ops().get(op as usize) {
            Some(operation) => operation.reply,
            None => unreachable!(),
        }
    }
}

impl<'a> Skeleton for TableSkeleton<'a> {
    ghost binding = { λ k. k.binding };

    ghost Answers = { λ k op request v. v ≡ answer_at k op };

    fn call(&self, alloc: Global, op: u32, _request: &Value) -> Result<Value, NoMemory> {
        match self.kept(op) {
            Some(reply) => copy_value(alloc, reply),
            None => blank(alloc, self.bound.mint(), self.reply(op)),
        }
    }
}
