//! The order of the fields of a struct in JSON, which is that of their keys, where the table of their names keeps none.

ghost use Rattle.std.specs.Prelude.{◌≡◌, Some, IfOk};
ghost use Rattle.pres.specs.KeyOrder.{key_order};

use crate::errors::Halt;
use pres::FieldTable;
use std::alloc::Global;

/// The places of names in the order of their keys, made anew, where the names are few and their keys different.
pub(crate) fn order_of(alloc: Global, names: &FieldTable) -> Result<Vec<u8>, Halt>
    ensures { IfOk result (λ o. key_order names.now ≡ Some o.items) }
{
    match names.make_order(alloc)? {
        Some(order) => Ok(order),
        None => Err(Halt::Fallback),
    }
}
