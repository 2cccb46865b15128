//! What the heads of calls and of replies have in common.

ghost use Rattle.std.specs.Prelude.{◌≡◌};
ghost use Rattle.back_xdr.specs.Reported;

use wire_def::{Head, Order};

/// The fields that back ends share: such a head has the transaction alone.
pub(crate) fn shared_head(xid: u32) -> Head
    ensures { result ≡ Reported.shared_head xid }
{
    Head {
        id: xid,
        remote: 0,
        local: 0,
        wants: true,
        order: Order::Big,
    }
}
