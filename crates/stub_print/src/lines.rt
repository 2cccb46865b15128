//! Lines that operations of both directions have.

ghost use Rattle.std.specs.Prelude.{◌∷◌, [], codes, OnOk};
ghost use Rattle.stub_print.specs.Putting.{IsPut};
ghost use Rattle.stub_print.specs.Words.{ended, integer, line, numeral, order_word, path_word};

use crate::words::{end_line, put_first, put_integer, put_number, put_order, put_path, put_word};
use cast_stub::Path;
use kit_base::{NoMemory, Octets};
use wire_def::Order;

/// Puts a line of one word.
pub(crate) fn put_alone(out: &mut Octets, word: &[u8]) -> Result<(), NoMemory>
    ensures { OnOk result (IsPut out.old (line word.now []) out.new) }
{
    put_first(out, word)?;
    end_line(out)
}

/// Puts the line that ends a block.
pub(crate) fn put_end(out: &mut Octets) -> Result<(), NoMemory>
    ensures { OnOk result (IsPut out.old ended out.new) }
{
    put_alone(out, b"end")
}

/// Puts a line of a word and what it is about: a name, or another word.
pub(crate) fn put_named(out: &mut Octets, word: &[u8], name: &[u8]) -> Result<(), NoMemory>
    ensures { OnOk result (IsPut out.old (line word.now (name.now ∷ [])) out.new) }
{
    put_first(out, word)?;
    put_word(out, name)?;
    end_line(out)
}

/// Puts a line of a word and a number.
pub(crate) fn put_counted(out: &mut Octets, word: &[u8], n: u64) -> Result<(), NoMemory>
    ensures { OnOk result (IsPut out.old (line word.now (numeral n ∷ [])) out.new) }
{
    put_first(out, word)?;
    put_number(out, n)?;
    end_line(out)
}

/// Puts the line before the body of a number.
pub(crate) fn put_case(out: &mut Octets, n: &i128) -> Result<(), NoMemory>
    ensures { OnOk result (IsPut out.old (line (codes "case") (integer n.now ∷ [])) out.new) }
{
    put_first(out, b"case")?;
    put_integer(out, n)?;
    end_line(out)
}

/// Puts a line of a word and a path.
pub(crate) fn put_over(out: &mut Octets, word: &[u8], path: &Path) -> Result<(), NoMemory>
    ensures { OnOk result (IsPut out.old (line word.now (path_word path.now ∷ [])) out.new) }
{
    put_first(out, word)?;
    put_path(out, path)?;
    end_line(out)
}

/// Puts a line of a word, a path and an order.
pub(crate) fn put_ordered(
    out: &mut Octets,
    word: &[u8],
    path: &Path,
    order: Order,
) -> Result<(), NoMemory>
    ensures { OnOk result
        (IsPut out.old (line word.now (path_word path.now ∷ order_word order ∷ [])) out.new) }
{
    put_first(out, word)?;
    put_path(out, path)?;
    put_order(out, order)?;
    end_line(out)
}

/// Puts a line of a word, a path, a factor and a summand.
pub(crate) fn put_room(
    out: &mut Octets,
    word: &[u8],
    path: &Path,
    unit: u32,
    extra: u32,
) -> Result<(), NoMemory>
    ensures { OnOk result
        (IsPut out.old (line word.now (path_word path.now ∷ numeral unit ∷ numeral extra ∷ [])) out.new) }
{
    put_first(out, word)?;
    put_path(out, path)?;
    put_number(out, u64::from(unit))?;
    put_number(out, u64::from(extra))?;
    end_line(out)
}

/// Puts the line of a call.
pub(crate) fn put_call(out: &mut Octets, k: u32, path: &Path) -> Result<(), NoMemory>
    ensures { OnOk result
        (IsPut out.old (line (codes "call") (numeral k ∷ path_word path.now ∷ [])) out.new) }
{
    put_first(out, b"call")?;
    put_number(out, u64::from(k))?;
    put_path(out, path)?;
    end_line(out)
}
