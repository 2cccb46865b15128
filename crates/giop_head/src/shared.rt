//! What the heads of calls and of replies have in common.

ghost use Rattle.std.specs.Prelude.{◌≡◌};
ghost use Rattle.giop_head.specs.Reported;

use wire_def::{Head, Order};

/// The fields that back ends share: such a head has no ports.
pub(crate) fn shared_head(id: u32, wants: bool, order: Order) -> Head
    ensures { result ≡ Reported.shared_head id wants order }
{
    Head {
        id,
        remote: 0,
        local: 0,
        wants,
        order,
    }
}
