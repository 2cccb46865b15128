//! Numbers, items, texts and rows from tokens of text in the usual form.

ghost use Rattle.std.specs.Prelude.{◌≡◌, ◌<◌, [], ◌∷◌, ◌++◌, true, IfOk, OnOk, length};
ghost use Rattle.mint.specs.declared.kind.Kind.TheVariants as kind;
ghost use Rattle.mint.specs.Kinds.{in_range};
ghost use Rattle.pres.specs.Faces.{items_in, number, item, sign_of};
ghost use Rattle.json_shape.specs.Scalars.{flag, number_in, row_in, sign_in, whole_in};
ghost use Rattle.json_shape.specs.Usual.{listed_in, Reads};

use crate::errors::{Halt, Unusual};
use crate::rows::block;
use crate::scalars::number_named;
use crate::texts::octets_of;
use crate::usual_digits::integer;
use crate::usual_tokens::{begin_items, boolean_next, digits_next, string_next};
use json::Reader;
use mint::kind::Kind;
use mint::node::Tag;
use mint::row::Row;
use pres::Shape;
use std::alloc::Global;

/// The number of a kind that comes next; letters are read by the tree.
pub(crate) fn number(kind: Kind, reader: &mut Reader<'_>) -> Result<i128, Unusual>
    ensures value { IfOk result (λ n. Reads 0 reader.old reader.new (sign_in (number kind)) n) }
    ensures shorter { OnOk result (length reader.new < length reader.old) }
{
    match kind {
        Kind::Bool => truth(reader),
        Kind::Char => Err(Unusual),
        _ => whole(kind, reader),
    }
}

fn truth(reader: &mut Reader<'_>) -> Result<i128, Unusual>
    ensures value { IfOk result (λ n. Reads 0 reader.old reader.new (number_in kind.Bool) n) }
    ensures shorter { OnOk result (length reader.new < length reader.old) }
{
    let truth = boolean_next(reader)?;
    Ok(flag(truth))
}

/// 1 or 0.
fn flag(truth: bool) -> i128
    ensures { result ≡ flag truth }
{
    if truth { 1 } else { 0 }
}

fn whole(kind: Kind, reader: &mut Reader<'_>) -> Result<i128, Unusual>
    ensures value { IfOk result (λ n. Reads 0 reader.old reader.new (whole_in kind) n) }
    ensures shorter { OnOk result (length reader.new < length reader.old) }
{
    let digits = digits_next(reader)?;
    let Some(n) = integer(digits) else {
        return Err(Unusual);
    };
    let n = ranged(kind, n)?;
    Ok(n)
}

/// The number, where it is of the kind.
#[tactic(auto, using(crate::proofs::UsualTexts::numbers))]
fn ranged(kind: Kind, n: i128) -> Result<i128, Unusual>
    ensures same { IfOk result (λ m. m ≡ n) }
    ensures ranged { OnOk result (in_range kind n ≡ true) }
{
    if kind.has(n) { Ok(n) } else { Err(Unusual) }
}

/// The item that the string names which comes next.
pub(crate) fn item(shape: &Shape, reader: &mut Reader<'_>) -> Result<i128, Halt>
    ensures { IfOk result (λ n. Reads 0 reader.old reader.new (sign_in (item (items_in shape.now))) n) }
{
    let name = string_next(reader)?;
    let n = number_named(shape, name)?;
    Ok(n)
}

/// The number of a tag that comes next.
pub(crate) fn sign(tag: &Tag, shape: &Shape, reader: &mut Reader<'_>) -> Result<i128, Halt>
    ensures { IfOk result (λ n. Reads 0 reader.old reader.new (sign_in (sign_of tag.now shape.now)) n) }
{
    match tag {
        Tag::Num(kind) => Ok(number(*kind, reader)?),
        Tag::Enum(_) => item(shape, reader),
    }
}

/// The text that comes next.
pub(crate) fn text(alloc: Global, reader: &mut Reader<'_>) -> Result<Row, Halt>
    ensures kind { IfOk result (λ r. r.kind ≡ kind.Char) }
    ensures numbers { IfOk result (λ r. Reads 0 reader.old reader.new (row_in kind.Char) r.numbers) }
{
    let letters = string_next(reader)?;
    let octets = octets_of(alloc, letters)?;
    let row = block(alloc, Kind::Char, octets.as_slice())?;
    Ok(row)
}

/// The row of numbers, octets or characters that comes next.
pub(crate) fn row(
    alloc: Global,
    kind: Kind,
    depth: usize,
    reader: &mut Reader<'_>,
) -> Result<Row, Halt>
    ensures kind { IfOk result (λ r. r.kind ≡ kind) }
    ensures numbers { IfOk result (λ r. Reads depth reader.old reader.new (row_in kind) r.numbers) }
{
    match kind {
        Kind::Octet => octets(alloc, reader),
        Kind::Char => text(alloc, reader),
        _ => numbers(alloc, kind, depth, reader),
    }
}

/// The row of numbers that an array is.
fn numbers(alloc: Global, kind: Kind, depth: usize, reader: &mut Reader<'_>) -> Result<Row, Halt>
    ensures kind { IfOk result (λ r. r.kind ≡ kind) }
    ensures numbers { IfOk result (λ r. Reads depth reader.old reader.new (listed_in kind) r.numbers) }
{
    if depth == 0 {
        return Err(Halt::Fallback);
    }
    begin_items(reader)?;
    let mut row = Row::new(alloc, kind);
    while !reader.take_end_array() {
        let n = number(kind, reader)?;
        push_number(&mut row, &n)?;
    }
    Ok(row)
}

/// Appends a number, where it is of the row's kind.
#[tactic(auto, using(crate::proofs::UsualTexts::numbers))]
fn push_number(row: &mut Row, n: &i128) -> Result<(), Halt>
    ensures kind { OnOk result (row.new.kind ≡ row.old.kind) }
    ensures numbers { OnOk result (row.new.numbers ≡ row.old.numbers ++ n.now ∷ []) }
{
    if row.kind().has(*n) {
        row.push(*n)?;
        Ok(())
    } else {
        Err(Halt::Fallback)
    }
}

fn octets(alloc: Global, reader: &mut Reader<'_>) -> Result<Row, Halt>
    ensures kind { IfOk result (λ r. r.kind ≡ kind.Octet) }
    ensures numbers { IfOk result (λ r. Reads 0 reader.old reader.new (row_in kind.Octet) r.numbers) }
{
    let digits = string_next(reader)?;
    let octets = kit_digits::decode(alloc, digits.as_bytes())?;
    let row = block(alloc, Kind::Octet, octets.as_slice())?;
    Ok(row)
}
