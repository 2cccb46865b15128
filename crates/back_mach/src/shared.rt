//! What the heads of requests and of replies have in common.

ghost use Rattle.std.specs.Prelude.{◌≡◌};
ghost use Rattle.back_mach.specs.Reported;

use wire_def::{Head, Order};

/// The fields that back ends share: such a head has the two ports alone.
pub(crate) fn shared_head(remote: u32, local: u32) -> Head
    ensures { result ≡ Reported.shared_head remote local }
{
    Head {
        id: 0,
        remote,
        local,
        wants: true,
        order: Order::Big,
    }
}
