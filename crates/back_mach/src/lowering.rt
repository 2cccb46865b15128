//! The code that sends the values of each node.

ghost use Rattle.std.specs.Prelude.{◌≡◌, length, IfOk};
ghost use Rattle.wire_def.specs.declared.encoding.Encoding.TheVariants.{Mach};
ghost use Rattle.cast_stub.specs.Follows.{AllFollow};
ghost use Rattle.cast_stub.specs.Layouts.{layout_of};
ghost use Rattle.cast_stub.specs.Rowless.{HaveNoRow};
ghost use Rattle.cast_stub.specs.Turned.{AllTurned};
ghost use Rattle.stub_lower.specs.Lowered.{CodesSend};

use cast_stub::SendSubs;
use kit_base::NoMemory;
use mint::table::Mint;
use std::alloc::Global;
use stub_lower::lower;
use wire_def::Encoding;

/// The codes that send the nodes of a table over the encoding of Mach, each at its node's place.
pub fn lower_send(alloc: Global, mint: &Mint) -> Result<SendSubs, NoMemory>
    ensures many { IfOk result (λ subs. length subs ≡ length mint.now) }
    ensures means { IfOk result (λ subs. CodesSend Mach mint.now subs) }
    ensures follows { IfOk result (λ subs. AllFollow mint.now subs) }
    ensures rows { IfOk result (λ subs. AllTurned (layout_of Mach) mint.now subs) }
    ensures no_row { IfOk result HaveNoRow }
{
    lower(alloc, Encoding::Mach, mint)
}
