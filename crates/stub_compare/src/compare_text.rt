//! Numbers that are put after one another.

ghost use Rattle.std.specs.Prelude.{◌≡◌, ◌+◌, ◌∷◌, pos, int_lt, unsigned_abs, ◌<◌, ◌^◌, OnOk, if◌then◌else◌};
ghost use Rattle.stub_compare.specs.CompareText.{digits_text, field_text, integer_text, order_text, path_text};
ghost use Rattle.stub_compare.specs.CompareTold.{IsPut};

use cast_stub::{HeadField, Path};
use kit_base::{Listed, NoMemory};
use wire_def::Order;

/// What is left of code, as one list of numbers.
pub(crate) type Numbers = Listed<u32>;

/// Puts a number.
pub(crate) fn put_number(out: &mut Numbers, n: u32) -> Result<(), NoMemory>
    ensures { OnOk result (IsPut out.old (λ rest. n ∷ rest) out.new) }
{
    out.push(n)
}

/// Puts the number of a field.
fn put_field(out: &mut Numbers, n: u32) -> Result<(), NoMemory>
    ensures { OnOk result (IsPut out.old (λ rest. 1 ∷ (n ∷ rest)) out.new) }
{
    put_number(out, 1)?;
    put_number(out, n)
}

/// Puts a path.
pub(crate) fn put_path(out: &mut Numbers, path: &Path) -> Result<(), NoMemory>
    ensures { OnOk result (IsPut out.old (path_text path.now) out.new) }
{
    for field in path.as_slice() {
        put_field(out, *field)?;
    }
    put_number(out, 0)
}

/// Puts a number and a path.
pub(crate) fn put_over(out: &mut Numbers, n: u32, path: &Path) -> Result<(), NoMemory>
    ensures { OnOk result (IsPut out.old (λ rest. n ∷ path_text path.now rest) out.new) }
{
    put_number(out, n)?;
    put_path(out, path)
}

/// An order as a number.
pub(crate) fn order_number(order: Order) -> u32
    ensures { result ≡ order_text order }
{
    match order {
        Order::Big => 0,
        Order::Little => 1,
    }
}

/// A field of a head as a number.
pub(crate) fn field_number(field: HeadField) -> u32
    ensures { result ≡ field_text field }
{
    match field {
        HeadField::Id => 0,
        HeadField::Remote => 1,
        HeadField::Local => 2,
    }
}

/// Puts a number below 2^128 as four of 32 bits.
fn put_digits(out: &mut Numbers, n: u128) -> Result<(), NoMemory>
    ensures { OnOk result (IsPut out.old (digits_text n) out.new) }
{
    let second = n / 4294967296;
    let third = second / 4294967296;
    put_number(out, (n % 4294967296) as u32)?;
    put_number(out, (second % 4294967296) as u32)?;
    put_number(out, (third % 4294967296) as u32)?;
    put_number(out, (third / 4294967296) as u32)
}

/// 1 for a number below 0, else 0.
fn sign(n: &i128) -> u32
    ensures { result ≡ (if int_lt n.now (pos 0) then 1 else 0) }
{
    if *n < 0 { 1 } else { 0 }
}

/// Puts a number with its sign.
pub(crate) fn put_integer(out: &mut Numbers, n: &i128) -> Result<(), NoMemory>
    ensures { OnOk result (IsPut out.old (integer_text n.now) out.new) }
{
    put_number(out, sign(n))?;
    put_digits(out, n.unsigned_abs())
}
