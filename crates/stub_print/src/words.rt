//! The words of a line.

ghost use Rattle.std.specs.Prelude.{◌≡◌, ◌++◌, ◌<◌, [], OnOk};
ghost use Rattle.stub_print.specs.Putting.{IsPut};
ghost use Rattle.stub_print.specs.Words.{hex, hex_digit, integer, numeral, order_word, path_word, points, spaced, words};

use cast_stub::Path;
use itoa::Buffer;
use kit_base::{NoMemory, Octets};
use wire_def::Order;

/// Puts the first word of a line.
pub(crate) fn put_first(out: &mut Octets, word: &[u8]) -> Result<(), NoMemory>
    ensures { OnOk result (IsPut out.old (λ rest. word.now ++ rest) out.new) }
{
    out.append(word)
}

/// Puts a word after a space.
pub(crate) fn put_word(out: &mut Octets, word: &[u8]) -> Result<(), NoMemory>
    ensures { OnOk result (IsPut out.old (spaced word.now) out.new) }
{
    out.push(b' ')?;
    out.append(word)
}

/// Ends a line.
pub(crate) fn end_line(out: &mut Octets) -> Result<(), NoMemory>
    ensures { OnOk result (IsPut out.old (words []) out.new) }
{
    out.push(b'\n')
}

/// Puts a number.
pub(crate) fn put_number(out: &mut Octets, n: u64) -> Result<(), NoMemory>
    ensures { OnOk result (IsPut out.old (spaced (numeral n)) out.new) }
{
    out.push(b' ')?;
    put_digits(out, n)
}

/// Puts the digits of a number.
fn put_digits(out: &mut Octets, n: u64) -> Result<(), NoMemory>
    ensures { OnOk result (out.new ≡ out.old ++ numeral n) }
{
    out.append(Buffer::new().format(n).as_bytes())
}

/// Puts a number with its sign.
pub(crate) fn put_integer(out: &mut Octets, n: &i128) -> Result<(), NoMemory>
    ensures { OnOk result (IsPut out.old (spaced (integer n.now)) out.new) }
{
    put_word(out, Buffer::new().format(*n).as_bytes())
}

/// Puts a path.
pub(crate) fn put_path(out: &mut Octets, path: &Path) -> Result<(), NoMemory>
    ensures { OnOk result (IsPut out.old (spaced (path_word path.now)) out.new) }
{
    if path.len() == 0 {
        return put_word(out, b".");
    }
    out.push(b' ')?;
    put_points(out, path.as_slice())
}

/// Puts the numbers of fields, each after a point.
fn put_points(out: &mut Octets, fields: &[u32]) -> Result<(), NoMemory>
    ensures { OnOk result (out.new ≡ out.old ++ points fields.now) }
{
    for field in fields {
        out.push(b'.')?;
        put_digits(out, u64::from(*field))?;
    }
    Ok(())
}

/// Puts the order of a number's octets.
pub(crate) fn put_order(out: &mut Octets, order: Order) -> Result<(), NoMemory>
    ensures { OnOk result (IsPut out.old (spaced (order_word order)) out.new) }
{
    put_word(out, order_word(order))
}

fn order_word(order: Order) -> &'static [u8]
    ensures { result.now ≡ order_word order }
{
    match order {
        Order::Big => b"be",
        Order::Little => b"le",
    }
}

/// Puts octets in hexadecimal digits.
pub(crate) fn put_hex(out: &mut Octets, octets: &[u8]) -> Result<(), NoMemory>
    ensures { OnOk result (IsPut out.old (spaced (hex octets.now)) out.new) }
{
    out.push(b' ')?;
    put_hex_digits(out, octets)
}

/// Puts octets in three pieces in hexadecimal digits, one behind the other.
pub(crate) fn put_pieces(
    out: &mut Octets,
    front: &[u8],
    piece: &[u8],
    rest: &[u8],
) -> Result<(), NoMemory>
    ensures { OnOk result (IsPut out.old (spaced (hex (front.now ++ (piece.now ++ rest.now)))) out.new) }
{
    put_hex(out, front)?;
    put_hex_digits(out, piece)?;
    put_hex_digits(out, rest)?;
    Ok(())
}

fn put_hex_digits(out: &mut Octets, octets: &[u8]) -> Result<(), NoMemory>
    ensures { OnOk result (out.new ≡ out.old ++ hex octets.now) }
{
    for octet in octets {
        out.push(hex_digit(*octet / 16))?;
        out.push(hex_digit(*octet % 16))?;
    }
    Ok(())
}

fn hex_digit(d: u8) -> u8
    requires { d < 16 }
    ensures { result ≡ hex_digit d }
{
    if d < 10 { b'0' + d } else { b'a' - 10 + d }
}
