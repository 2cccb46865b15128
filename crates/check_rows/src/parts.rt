//! The parts of a row: members, elements, numbers, octets.

use crate::Bad;
use hex::FromHexError;
use kit_base::Octets;
use serde_json::Value as Json;
use std::alloc::Global;

/// A member of an object.
pub fn member<'a>(json: &'a Json, name: &str) -> Result<&'a Json, Bad> {
    match json.get(name) {
        Some(part) => Ok(part),
        None => Err(Bad::Row("a member is absent")),
    }
}

/// An element of an array.
pub fn part(json: &Json, place: usize) -> Result<&Json, Bad> {
    match json.get(place) {
        Some(part) => Ok(part),
        None => Err(Bad::Row("an element is absent")),
    }
}

/// The elements of an array.
pub fn list(json: &Json) -> Result<&[Json], Bad> {
    match json.as_array() {
        Some(all) => Ok(all.as_slice()),
        None => Err(Bad::Row("no array")),
    }
}

/// A number of 64 bits.
fn plain(json: &Json) -> Result<i128, Bad> {
    match (json.as_i64(), json.as_u64()) {
        (Some(n), _) => Ok(i128::from(n)),
        (None, Some(n)) => Ok(i128::from(n)),
        (None, None) => Err(Bad::Row("no number")),
    }
}

/// A number, or `{"sum": [N, N]}` for one beyond 64 bits.
pub fn number(json: &Json) -> Result<i128, Bad> {
    match json.get("sum") {
        Some(pair) => Ok(plain(part(pair, 0)?)?.wrapping_add(plain(part(pair, 1)?)?)),
        None => plain(json),
    }
}

/// A number of 32 bits.
pub fn word(json: &Json) -> Result<u32, Bad> {
    match json.as_u64() {
        Some(n) if n < 4_294_967_296 => Ok(n as u32),
        _ => Err(Bad::Row("no number of 32 bits")),
    }
}

/// A signed number of 32 bits.
pub fn signed(json: &Json) -> Result<i32, Bad> {
    match json.as_i64() {
        Some(n) => match i32::try_from(n) {
            Ok(n) => Ok(n),
            Err(_) => Err(Bad::Row("no signed number of 32 bits")),
        },
        None => Err(Bad::Row("no signed number of 32 bits")),
    }
}

/// The octets of hexadecimal digits.
pub fn octets(alloc: Global, json: &Json) -> Result<Octets, Bad> {
    let Some(digits) = json.as_str() else {
        return Err(Bad::Row("no digits"));
    };
    match hex::decode(alloc, digits) {
        Ok(octets) => {
            let mut all = Octets::new(alloc);
            all.append(&octets)?;
            Ok(all)
        }
        Err(FromHexError::OutOfMemory) => Err(Bad::NoMemory),
        Err(_) => Err(Bad::Row("no digits")),
    }
}

/// The answer that is a word.
pub fn reported(alloc: Global, text: &str) -> Result<String, Bad> {
    Ok(format!(in alloc; "{text}")?)
}
