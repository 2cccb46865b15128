//! Null, numbers, items, texts and rows, written as JSON.

ghost use Rattle.std.specs.Prelude.{◌≡◌, [], ◌∷◌, true, OnOk};
ghost use Rattle.hex.specs.Hex.{encode_lower};
ghost use Rattle.json.specs.Token.{boolean, null as null_token, string as string_token};
ghost use Rattle.mint.specs.Kinds.{in_range};
ghost use Rattle.pres.specs.Faces.{items_in, sign_of, item};
ghost use Rattle.serde_json.specs.Data.{array, no_items, number};
ghost use Rattle.serde_json.specs.Find.{of_integer};
ghost use Rattle.json_shape.specs.Texts.{text_of};
ghost use Rattle.json_shape.specs.Written.{each_json, letters, number_json, sign_json, row_json};
ghost use Rattle.json_shape.specs.Printed.{tokens_of, Adds};

use crate::errors::Halt;
use crate::texts::ascii_of;
use json::{Token, Writer};
use mint::kind::Kind;
use mint::node::Tag;
use mint::row::Row;
use pres::{ItemTable, Shape};
use std::alloc::Global;

/// Writes null.
pub(crate) fn put_null(out: &mut Writer) -> Result<(), Halt>
    ensures { OnOk result (Adds out.old out.new (null_token ∷ [])) }
{
    out.token(Token::Null)?;
    Ok(())
}

/// Writes an array without items.
#[tactic(auto, using(crate::proofs::Adding::adding))]
pub(crate) fn put_nothing(out: &mut Writer) -> Result<(), Halt>
    ensures { OnOk result (Adds out.old out.new (tokens_of (array no_items))) }
{
    out.begin_array()?;
    out.end_array()?;
    Ok(())
}

/// Writes the string of octets.
pub(crate) fn put_string(alloc: Global, octets: &[u8], out: &mut Writer) -> Result<(), Halt>
    ensures { OnOk result (Adds out.old out.new (string_token (text_of octets.now) ∷ [])) }
{
    match ascii_of(octets) {
        Some(text) => out.string(text)?,
        None => {
            let text = pres::text_of(alloc, octets)?;
            out.string(text.as_str())?;
        }
    }
    Ok(())
}

/// Writes a number of a kind.
pub(crate) fn put_number(alloc: Global, kind: Kind, n: &i128, out: &mut Writer) -> Result<(), Halt>
    ensures { OnOk result (Adds out.old out.new (tokens_of (number_json kind n.now))) }
{
    if !kind.has(*n) {
        return Err(Halt::Fallback);
    }
    match kind {
        Kind::Bool => put_truth(*n != 0, out),
        Kind::Char => put_letter(alloc, n, out),
        _ => put_whole(n, out),
    }
}

/// Writes false or true.
fn put_truth(truth: bool, out: &mut Writer) -> Result<(), Halt>
    ensures { OnOk result (Adds out.old out.new (boolean truth ∷ [])) }
{
    out.token(Token::Bool(truth))?;
    Ok(())
}

/// Writes the string of one character.
fn put_letter(alloc: Global, n: &i128, out: &mut Writer) -> Result<(), Halt>
    requires { in_range Kind.Char n.now ≡ true }
    ensures { OnOk result (Adds out.old out.new (tokens_of (letters (n.now ∷ [])))) }
{
    let octet = *n as u8;
    put_string(alloc, &[octet], out)
}

/// Writes a whole number of at most 64 bits.
#[tactic(auto, using(crate::proofs::Adding::integers))]
fn put_whole(n: &i128, out: &mut Writer) -> Result<(), Halt>
    ensures { OnOk result (Adds out.old out.new (tokens_of (number (of_integer n.now)))) }
{
    if let Ok(m) = i64::try_from(*n) {
        out.i64(m)?;
        return Ok(());
    }
    let Ok(m) = u64::try_from(*n) else {
        return Err(Halt::Fallback);
    };
    out.u64(m)?;
    Ok(())
}

/// Writes the name of the first item with a number.
pub(crate) fn put_item(shape: &Shape, n: &i128, out: &mut Writer) -> Result<(), Halt>
    ensures { OnOk result (Adds out.old out.new (tokens_of (sign_json (item (items_in shape.now)) n.now))) }
{
    match shape {
        Shape::LabelNames(items) => put_name(items, n, out),
        _ => put_empty(out),
    }
}

/// Writes the name of the first of the items with a number; empty where none has it.
#[tactic(auto, using(crate::proofs::Texted::texted))]
fn put_name(items: &ItemTable, n: &i128, out: &mut Writer) -> Result<(), Halt>
    ensures { OnOk result (Adds out.old out.new (tokens_of (sign_json (item items.now) n.now))) }
{
    match items.text(n) {
        Some(text) => out.string(text)?,
        None => out.string("")?,
    }
    Ok(())
}

/// Writes the empty string.
fn put_empty(out: &mut Writer) -> Result<(), Halt>
    ensures { OnOk result (Adds out.old out.new (string_token [] ∷ [])) }
{
    out.string("")?;
    Ok(())
}

/// Writes a tag.
pub(crate) fn put_sign(
    alloc: Global,
    tag: &Tag,
    shape: &Shape,
    n: &i128,
    out: &mut Writer,
) -> Result<(), Halt>
    ensures { OnOk result (Adds out.old out.new (tokens_of (sign_json (sign_of tag.now shape.now) n.now))) }
{
    match tag {
        Tag::Num(kind) => put_number(alloc, *kind, n, out),
        Tag::Enum(_) => put_item(shape, n, out),
    }
}

/// Writes a text or a row.
pub(crate) fn put_row(alloc: Global, row: &Row, out: &mut Writer) -> Result<(), Halt>
    ensures { OnOk result (Adds out.old out.new (tokens_of (row_json row.now.kind row.now.numbers))) }
{
    match row.kind() {
        Kind::Octet => put_digits(alloc, row.image(), out),
        Kind::Char => put_string(alloc, row.image(), out),
        kind => put_numbers(alloc, kind, row, out),
    }
}

/// Writes the string of octets in hexadecimal digits, the letters in lower case.
fn put_digits(alloc: Global, octets: &[u8], out: &mut Writer) -> Result<(), Halt>
    ensures { OnOk result (Adds out.old out.new (string_token (encode_lower octets.now) ∷ [])) }
{
    let digits = kit_digits::encode(alloc, octets)?;
    out.string(digits.as_str())?;
    Ok(())
}

/// Writes the array of a row's numbers.
fn put_numbers(alloc: Global, kind: Kind, row: &Row, out: &mut Writer) -> Result<(), Halt>
    ensures { OnOk result (Adds out.old out.new (tokens_of (array (each_json kind row.now.numbers)))) }
{
    out.begin_array()?;
    for i in 0..row.len() {
        let Some(n) = row.get(i) else { unreachable!() };
        put_number(alloc, kind, &n, out)?;
    }
    out.end_array()?;
    Ok(())
}
