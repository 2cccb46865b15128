//! The code that receives the values of each node.

ghost use Rattle.std.specs.Prelude.{◌≡◌, length, IfOk};
ghost use Rattle.wire_def.specs.declared.encoding.Encoding.TheVariants.{Mach};
ghost use Rattle.cast_stub.specs.Layouts.{layout_of};
ghost use Rattle.cast_stub.specs.Traces.{AllTrace, AllTurned};
ghost use Rattle.stub_lower.specs.RecvLowered.{CallsReceive, CodesReceive};

use cast_stub::RecvSubs;
use kit_base::NoMemory;
use mint::table::Mint;
use std::alloc::Global;
use wire_def::Encoding;

/// The codes that receive the nodes of a table over the encoding of Mach, each at its node's place.
pub fn lower_recv(alloc: Global, mint: &Mint) -> Result<RecvSubs, NoMemory>
    ensures many { IfOk result (λ subs. length subs ≡ length mint.now) }
    ensures sound { IfOk result (λ subs. CodesReceive Mach mint.now subs) }
    ensures called { IfOk result (λ subs. CallsReceive Mach mint.now subs) }
    ensures traces { IfOk result (λ subs. AllTrace mint.now subs) }
    ensures rows { IfOk result (λ subs. AllTurned (layout_of Mach) mint.now subs) }
{
    stub_lower::lower_recv(alloc, Encoding::Mach, mint)
}
