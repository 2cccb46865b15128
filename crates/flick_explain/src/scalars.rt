//! `! value` at a number, an item of an enum, a text or a row: what is wanted there.

ghost use Rattle.std.specs.Prelude.{IfSome, IsTrue};
ghost use Rattle.mint.specs.Kinds.{in_range};

use crate::records::is_named;
use crate::text::{shown, text_of};
use kit_base::{Name, NoMemory};
use mint::kind::{Count, Kind};
use mint::node::Tag;
use pres::Shape;
use serde_json::Value as Json;
use std::alloc::Global;

/// How many items of an enum are listed.
const LISTED: usize = 8;

/// The number of a kind that the JSON is.
pub fn number_of(kind: Kind, json: &Json) -> Option<i128> {
    match kind {
        Kind::Bool => truth(json.as_bool()?),
        Kind::Char => letter(json.as_str()?),
        _ => whole(kind, json),
    }
}

/// The whole number of a kind that the JSON is.
fn whole(kind: Kind, json: &Json) -> Option<i128>
    ensures { IfSome result (λ n. IsTrue (in_range kind n)) }
{
    let n = json.as_number()?.as_i128()?;
    if kind.has(n) {
        return Some(n);
    }
    None
}

/// The number of a truth value.
fn truth(value: bool) -> Option<i128> {
    Some(if value { 1 } else { 0 })
}

/// The code of the one character of a text.
fn letter(text: &str) -> Option<i128> {
    let mut chars = text.chars();
    let first = chars.next()?;
    if chars.next().is_some() || u32::from(first) > 255 {
        return None;
    }
    Some(i128::from(u32::from(first)))
}

/// The items that a shape names.
fn items_of(shape: &Shape) -> &[(Name, i32)] {
    match shape {
        Shape::LabelNames(items) => items.as_slice(),
        _ => &[],
    }
}

/// The number that the JSON is for a tag.
pub fn tag_of(tag: &Tag, shape: &Shape, json: &Json) -> Option<i128> {
    match tag {
        Tag::Num(kind) => number_of(*kind, json),
        Tag::Enum(_) => {
            let text = json.as_str()?;
            item_of(items_of(shape), text)
        }
    }
}

/// The number of the item of a name.
fn item_of(items: &[(Name, i32)], text: &str) -> Option<i128> {
    for (name, n) in items {
        if is_named(name.as_slice(), text) {
            return Some(i128::from(*n));
        }
    }
    None
}

/// What a number of a kind is.
pub fn kind_wanted(alloc: Global, kind: Kind) -> Result<String, NoMemory> {
    match kind {
        Kind::Bool => text_of(alloc, "true or false is wanted"),
        Kind::Char => text_of(alloc, "a string of one character is wanted"),
        _ => {
            let least = 0i128.saturating_sub(kind.under());
            let most = kind.above().saturating_sub(1);
            Ok(format!(in alloc; "a whole number from {least} to {most} is wanted")?)
        }
    }
}

/// What an item of an enum is.
pub fn item_wanted(alloc: Global, shape: &Shape) -> Result<String, NoMemory> {
    let mut out = text_of(alloc, "one of these names is wanted:")?;
    let items = items_of(shape);
    for (name, _) in &items[..items.len().min(LISTED)] {
        out.push_str(" ")?;
        out.push_str(shown(alloc, name.as_slice())?.as_str())?;
    }
    Ok(out)
}

/// What a tag is.
pub fn tag_wanted(alloc: Global, tag: &Tag, shape: &Shape) -> Result<String, NoMemory> {
    match tag {
        Tag::Num(kind) => kind_wanted(alloc, *kind),
        Tag::Enum(_) => item_wanted(alloc, shape),
    }
}

/// How many elements are there, and how many there may be.
pub fn count_wanted(
    alloc: Global,
    count: usize,
    what: &str,
    size: Count,
) -> Result<String, NoMemory> {
    match size {
        Count::Exactly(n) => Ok(format!(in alloc; "{count} {what}, {n} wanted")?),
        Count::AtMost(n) => Ok(format!(in alloc; "{count} {what}, at most {n}")?),
        Count::Any => Ok(format!(in alloc; "{count} {what}, below 4294967296")?),
    }
}

/// What is wrong with a string.
pub fn string_wanted(alloc: Global, json: &Json, size: Count) -> Result<String, NoMemory> {
    let Some(text) = json.as_str() else {
        return text_of(alloc, "a string is wanted");
    };
    let mut count = 0usize;
    for c in text.chars() {
        count = count.saturating_add(1);
        if u32::from(c) > 255 || u32::from(c) == 0 {
            return Ok(format!(in alloc; "character {count} is not one of U+0001 to U+00FF")?);
        }
    }
    count_wanted(alloc, count, "octets", size)
}

/// What is wrong with a row of octets, characters or numbers.
pub fn row_wanted(alloc: Global, kind: Kind, json: &Json, size: Count) -> Result<String, NoMemory> {
    match kind {
        Kind::Octet => digits_wanted(alloc, json, size),
        Kind::Char => characters_wanted(alloc, json, size),
        _ => match json.as_array() {
            Some(list) => count_wanted(alloc, list.len(), "elements", size),
            None => text_of(alloc, "an array is wanted"),
        },
    }
}

/// What is wrong with the digits of octets.
fn digits_wanted(alloc: Global, json: &Json, size: Count) -> Result<String, NoMemory> {
    let Some(text) = json.as_str() else {
        return text_of(alloc, "a string of hexadecimal digits is wanted");
    };
    let digits = text.as_bytes();
    let good = digits.iter().take_while(|o| o.is_ascii_hexdigit()).count();
    if good < digits.len() || good % 2 == 1 {
        return text_of(alloc, "an even number of hexadecimal digits is wanted");
    }
    count_wanted(alloc, good / 2, "octets", size)
}

/// What is wrong with an array of characters.
fn characters_wanted(alloc: Global, json: &Json, size: Count) -> Result<String, NoMemory> {
    let Some(text) = json.as_str() else {
        return text_of(alloc, "a string is wanted");
    };
    let mut count = 0usize;
    for c in text.chars() {
        count = count.saturating_add(1);
        if u32::from(c) > 255 {
            return text_of(alloc, "characters up to U+00FF are wanted");
        }
    }
    count_wanted(alloc, count, "characters", size)
}
