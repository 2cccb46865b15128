//! Copies of values.

ghost use Rattle.std.specs.Prelude.{◌≡◌, IfOk};
ghost use Rattle.mint.specs.Values.{seen, all_seen};

use crate::value::{Value, Values};
use kit_base::NoMemory;
use std::alloc::Global;

/// A copy of a value. It calls itself as deep as the value has levels. A value that fits a node has
/// at most as many levels as the node's type, so at most 32.
#[cycle(copy)]
pub fn copy_value(alloc: Global, value: &Value) -> Result<Value, NoMemory>
    ensures { IfOk result (λ v. seen v ≡ seen value.now) }
{
    match value {
        Value::Void => Ok(Value::Void),
        Value::Num(n) => Ok(Value::Num(*n)),
        Value::Row(row) => Ok(Value::Row(row.copy(alloc)?)),
        Value::Group(values) => Ok(Value::Group(copy_values(alloc, values)?)),
        Value::Items(values) => Ok(Value::Items(copy_values(alloc, values)?)),
        Value::Arm(n, inner) => Value::arm(alloc, *n, copy_value(alloc, inner)?),
        Value::Opt(None) => Ok(Value::Opt(None)),
        Value::Opt(Some(inner)) => Value::present(alloc, copy_value(alloc, inner)?),
    }
}

#[cycle(copy)]
fn copy_values(alloc: Global, values: &Values) -> Result<Values, NoMemory>
    ensures { IfOk result (λ vs. all_seen vs ≡ all_seen values.now) }
{
    let mut copies = Values::new(alloc);
    for value in values.as_slice() {
        copies.push(copy_value(alloc, value)?)?;
    }
    Ok(copies)
}
