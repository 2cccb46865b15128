//! The code that receives the values of each node.

ghost use Rattle.std.specs.Prelude.{◌≡◌, length, IfOk};
ghost use Rattle.giop_head.specs.Items.{laid};
ghost use Rattle.cast_stub.specs.Layouts.{layout_of};
ghost use Rattle.cast_stub.specs.Traces.{AllTrace, AllTurned};
ghost use Rattle.stub_lower.specs.RecvLowered.{CallsReceive, CodesReceive};

use crate::seek::laid;
use cast_stub::RecvSubs;
use kit_base::NoMemory;
use mint::table::Mint;
use std::alloc::Global;
use wire_def::Order;

/// The codes that receive the nodes of a table over CDR in an order, each at its node's place.
pub fn lower_recv(alloc: Global, mint: &Mint, order: Order) -> Result<RecvSubs, NoMemory>
    ensures many { IfOk result (λ subs. length subs ≡ length mint.now) }
    ensures sound { IfOk result (λ subs. CodesReceive (laid order) mint.now subs) }
    ensures called { IfOk result (λ subs. CallsReceive (laid order) mint.now subs) }
    ensures traces { IfOk result (λ subs. AllTrace mint.now subs) }
    ensures rows { IfOk result (λ subs. AllTurned (layout_of (laid order)) mint.now subs) }
{
    stub_lower::lower_recv(alloc, laid(order), mint)
}
