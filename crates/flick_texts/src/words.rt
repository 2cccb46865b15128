//! Octets and numbers of a text.

ghost use Rattle.std.specs.Prelude.{◌++◌, OnOk, decimal};
ghost use Rattle.std.specs.Fmt.{signed_decimal};
ghost use Rattle.stub_print.specs.Putting.{IsPut};
ghost use Rattle.flick_texts.specs.TypeText.{numbered};

use aoi::FullName;
use itoa::Buffer;
use kit_base::{NoMemory, Octets};

/// Puts octets.
pub(crate) fn put(out: &mut Octets, octets: &[u8]) -> Result<(), NoMemory>
    ensures { OnOk result (IsPut out.old (λ rest. octets.now ++ rest) out.new) }
{
    out.append(octets)
}

/// Puts a full name.
pub(crate) fn put_name(out: &mut Octets, name: &FullName) -> Result<(), NoMemory>
    ensures { OnOk result (IsPut out.old (λ rest. name.now ++ rest) out.new) }
{
    let (prefix, own) = name.parts();
    put(out, prefix)?;
    put(out, own)
}

/// Puts a number.
fn put_number(out: &mut Octets, n: u64) -> Result<(), NoMemory>
    ensures { OnOk result (IsPut out.old (λ rest. decimal n ++ rest) out.new) }
{
    put(out, Buffer::new().format(n).as_bytes())
}

/// Puts octets, and a number after them.
pub(crate) fn put_numbered(out: &mut Octets, octets: &[u8], n: u64) -> Result<(), NoMemory>
    ensures { OnOk result (IsPut out.old (numbered octets.now n) out.new) }
{
    put(out, octets)?;
    put_number(out, n)
}

/// Puts a number with its sign.
pub(crate) fn put_signed(out: &mut Octets, n: &i128) -> Result<(), NoMemory>
    ensures { OnOk result (IsPut out.old (λ rest. signed_decimal n.now ++ rest) out.new) }
{
    put(out, Buffer::new().format(*n).as_bytes())
}
