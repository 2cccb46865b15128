//! Values and types as they are written.

use kit_base::NoMemory;
use mint::kind::{Count, Kind};
use pres::Shape;
use serde_json::Value as Json;
use std::alloc::Global;

/// The same text.
pub(crate) fn owned(alloc: Global, text: &str) -> Result<String, NoMemory> {
    Ok(String::from_str(alloc, text)?)
}

/// Octets as a string of JSON, a character for each.
pub(crate) fn quoted(alloc: Global, octets: &[u8]) -> Result<String, NoMemory> {
    Ok(Json::String(pres::text_of(alloc, octets)?).to_string(alloc)?)
}

/// Octets as a string of JSON, two digits for each.
pub(crate) fn digits(alloc: Global, octets: &[u8]) -> Result<String, NoMemory> {
    let digits = kit_digits::encode(alloc, octets)?;
    Ok(format!(in alloc; "\"{digits}\"")?)
}

/// A number in decimal digits.
pub(crate) fn decimal(alloc: Global, n: u32) -> Result<String, NoMemory> {
    Ok(format!(in alloc; "{n}")?)
}

/// A number of a kind as JSON.
pub(crate) fn number_text(alloc: Global, kind: Kind, n: i128) -> Result<String, NoMemory> {
    match kind {
        Kind::Bool => owned(alloc, if n == 0 { "false" } else { "true" }),
        Kind::Char => match u8::try_from(n) {
            Ok(octet) => quoted(alloc, &[octet]),
            Err(_) => owned(alloc, ""),
        },
        _ => Ok(format!(in alloc; "{n}")?),
    }
}

/// The name of an enum's item as JSON, or its number where it has none.
pub(crate) fn item_text(alloc: Global, shape: &Shape, n: i128) -> Result<String, NoMemory> {
    match shape {
        Shape::LabelNames(items) => match items.text(&n) {
            Some(name) => Ok(Json::try_from_str(alloc, name)?.to_string(alloc)?),
            None => Ok(format!(in alloc; "{n}")?),
        },
        _ => Ok(format!(in alloc; "{n}")?),
    }
}

/// The word of a kind, as `show` has it.
pub(crate) fn kind_word(kind: Kind) -> &'static str {
    match kind {
        Kind::Octet => "octet",
        Kind::I8 => "i8",
        Kind::U8 => "u8",
        Kind::Char => "char",
        Kind::I16 => "i16",
        Kind::U16 => "u16",
        Kind::I32 => "i32",
        Kind::U32 => "u32",
        Kind::I64 => "i64",
        Kind::U64 => "u64",
        Kind::Bool => "bool",
    }
}

/// The type of a text, as `show` has it.
pub(crate) fn text_type(alloc: Global, count: Count) -> Result<String, NoMemory> {
    match count {
        Count::Exactly(n) | Count::AtMost(n) => Ok(format!(in alloc; "text {n}")?),
        Count::Any => owned(alloc, "text"),
    }
}

/// The type of a row, as `show` has it.
pub(crate) fn row_type(alloc: Global, kind: Kind, count: Count) -> Result<String, NoMemory> {
    let word = kind_word(kind);
    match count {
        Count::Exactly(n) => Ok(format!(in alloc; "array {n} of {word}")?),
        Count::AtMost(n) => Ok(format!(in alloc; "list {n} of {word}")?),
        Count::Any => Ok(format!(in alloc; "list of {word}")?),
    }
}
