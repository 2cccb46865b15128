//! The lines of puts, and those that gets have too.

ghost use Rattle.std.specs.Prelude.{◌++◌, ◌∷◌, [], codes, OnOk, ◌≡◌};
ghost use Rattle.stub_print.specs.Putting.{IsPut};
ghost use Rattle.stub_print.specs.SendText.{field_word, put_words, puts_text};
ghost use Rattle.stub_print.specs.Words.{hex, line, numeral, order_word, path_word, spaced, words};

use crate::words::{
    end_line, put_first, put_hex, put_number, put_order, put_path, put_pieces, put_word,
};
use cast_stub::{Constant, HeadField, Path, Put, Puts};
use kit_base::{NoMemory, Octets};
use wire_def::Order;

/// Begins the line of a put or get: its offset, and what is there.
pub(crate) fn put_offset(out: &mut Octets, off: u32, what: &[u8]) -> Result<(), NoMemory>
    ensures { OnOk result
        (IsPut out.old (λ rest. codes "at" ++ spaced (numeral off) (spaced what.now rest)) out.new) }
{
    put_first(out, b"at")?;
    put_number(out, u64::from(off))?;
    put_word(out, what)
}

/// Ends a line by a width and an order.
pub(crate) fn put_layout(out: &mut Octets, width: u32, order: Order) -> Result<(), NoMemory>
    ensures { OnOk result (IsPut out.old (words (numeral width ∷ order_word order ∷ [])) out.new) }
{
    put_number(out, u64::from(width))?;
    put_order(out, order)?;
    end_line(out)
}

/// Puts the line of one number of a value.
pub(crate) fn put_scalar(
    out: &mut Octets,
    off: u32,
    what: &[u8],
    path: &Path,
    width: u32,
    order: Order,
) -> Result<(), NoMemory>
    ensures { OnOk result (IsPut out.old (line (codes "at")
        (numeral off ∷ what.now ∷ path_word path.now ∷ numeral width ∷ order_word order ∷ [])) out.new) }
{
    put_offset(out, off, what)?;
    put_path(out, path)?;
    put_layout(out, width, order)
}

/// Puts the line of a length.
pub(crate) fn put_length(
    out: &mut Octets,
    off: u32,
    path: &Path,
    factor: u32,
    summand: u32,
    width: u32,
    order: Order,
) -> Result<(), NoMemory>
    ensures { OnOk result (IsPut out.old (line (codes "at") (numeral off ∷ codes "count" ∷ path_word path.now
        ∷ numeral factor ∷ numeral summand ∷ numeral width ∷ order_word order ∷ [])) out.new) }
{
    put_offset(out, off, b"count")?;
    put_path(out, path)?;
    put_number(out, u64::from(factor))?;
    put_number(out, u64::from(summand))?;
    put_layout(out, width, order)
}

/// Puts the line of fixed octets.
pub(crate) fn put_fixed(out: &mut Octets, off: u32, octets: &Octets) -> Result<(), NoMemory>
    ensures { OnOk result
        (IsPut out.old (line (codes "at") (numeral off ∷ codes "const" ∷ hex octets.now ∷ [])) out.new) }
{
    put_offset(out, off, b"const")?;
    put_hex(out, octets.as_slice())?;
    end_line(out)
}

/// Puts the line of a constant.
fn put_constant(out: &mut Octets, off: u32, octets: &Constant) -> Result<(), NoMemory>
    ensures { OnOk result
        (IsPut out.old (line (codes "at") (numeral off ∷ codes "const" ∷ hex octets.now ∷ [])) out.new) }
{
    put_offset(out, off, b"const")?;
    let (front, piece, rest) = octets.pieces();
    put_pieces(out, front, piece, rest)?;
    end_line(out)
}

/// Puts three numbers and the end of their line.
pub(crate) fn put_three(out: &mut Octets, a: u32, b: u32, c: u32) -> Result<(), NoMemory>
    ensures { OnOk result
        (IsPut out.old (words (numeral a ∷ numeral b ∷ numeral c ∷ [])) out.new) }
{
    put_number(out, u64::from(a))?;
    put_number(out, u64::from(b))?;
    put_number(out, u64::from(c))?;
    end_line(out)
}

fn field_word(field: HeadField) -> &'static [u8]
    ensures { result.now ≡ field_word field }
{
    match field {
        HeadField::Id => b"id",
        HeadField::Remote => b"remote",
        HeadField::Local => b"local",
    }
}

/// Puts the line of a short Mach descriptor.
fn put_short(
    out: &mut Octets,
    off: u32,
    path: &Path,
    name: u32,
    size: u32,
    factor: u32,
) -> Result<(), NoMemory>
    ensures { OnOk result (IsPut out.old (line (codes "at") (numeral off ∷ codes "short" ∷ path_word path.now
        ∷ numeral name ∷ numeral size ∷ numeral factor ∷ [])) out.new) }
{
    put_offset(out, off, b"short")?;
    put_path(out, path)?;
    put_three(out, name, size, factor)
}

/// Puts the line of a number of the head.
fn put_head(
    out: &mut Octets,
    off: u32,
    field: HeadField,
    width: u32,
    order: Order,
) -> Result<(), NoMemory>
    ensures { OnOk result (IsPut out.old (line (codes "at")
        (numeral off ∷ codes "head" ∷ field_word field ∷ numeral width ∷ order_word order ∷ [])) out.new) }
{
    put_offset(out, off, b"head")?;
    put_word(out, field_word(field))?;
    put_layout(out, width, order)
}

/// Puts the line of a put.
fn put_put(out: &mut Octets, put: &Put) -> Result<(), NoMemory>
    ensures { OnOk result (IsPut out.old (line (codes "at") (put_words put.now)) out.new) }
{
    match put {
        Put::Num(off, path, width, order) => put_scalar(out, *off, b"num", path, *width, *order),
        Put::Tag(off, path, width, order) => put_scalar(out, *off, b"tag", path, *width, *order),
        Put::Flag(off, path, width, order) => put_scalar(out, *off, b"flag", path, *width, *order),
        Put::Count(off, path, factor, summand, width, order) => {
            put_length(out, *off, path, *factor, *summand, *width, *order)
        }
        Put::Short(off, path, name, size, factor) => {
            put_short(out, *off, path, *name, *size, *factor)
        }
        Put::Const(off, octets) => put_constant(out, *off, octets),
        Put::Head(off, field, width, order) => put_head(out, *off, *field, *width, *order),
    }
}

/// Puts the lines of puts.
pub(crate) fn put_puts(out: &mut Octets, puts: &Puts) -> Result<(), NoMemory>
    ensures { OnOk result (IsPut out.old (puts_text puts.now) out.new) }
{
    for put in puts.as_slice() {
        put_put(out, put)?;
    }
    Ok(())
}
