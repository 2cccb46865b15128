//! How the numbers of a message over an encoding are stored.
ghost use Rattle.std.specs.Prelude.{◌≡◌};
ghost use Rattle.mint.specs.Types.{number};
ghost use Rattle.cast_stub.specs.Layouts.{order_of, scalar_width};

use mint::kind::Kind;
use wire_def::{Encoding, Order};

/// Which octet of a number comes first.
pub fn order_of(enc: Encoding) -> Order
    ensures { result ≡ order_of enc }
{
    match enc {
        Encoding::Xdr | Encoding::CdrBig => Order::Big,
        Encoding::CdrLittle | Encoding::Mach => Order::Little,
    }
}

/// The octets of a number of a kind.
pub fn width_of(enc: Encoding, kind: Kind) -> u32
    ensures { result ≡ scalar_width enc (number kind) }
{
    match (kind, enc) {
        (Kind::I64 | Kind::U64, _) => 8,
        (Kind::I32 | Kind::U32, _) | (_, Encoding::Xdr) | (Kind::Bool, Encoding::Mach) => 4,
        (Kind::I16 | Kind::U16, _) => 2,
        _ => 1,
    }
}
