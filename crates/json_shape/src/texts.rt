//! Strings that stand for octets.

ghost use Rattle.std.specs.Prelude.{IfOk, IfSome, string_bytes, ◌≡◌};
ghost use Rattle.serde_json.specs.View.{view};
ghost use Rattle.json_shape.specs.Gives.{Gives};
ghost use Rattle.json_shape.specs.Texts.{octets_of, octets_in, hex_in, text_of};

use crate::errors::ShapeErr;
use hex::FromHexError;
use kit_base::{NoMemory, Octets};
use serde_json::Value as Json;
use std::alloc::Global;

/// The octets that are a string's characters. Those of an ASCII string are its own octets.
pub(crate) fn octets_of(alloc: Global, text: &str) -> Result<Octets, ShapeErr>
    ensures { Gives (λ o. o) result (octets_of text.now) }
{
    if text.is_ascii() {
        return Ok(Octets::from_slice(alloc, text.as_bytes())?);
    }
    each_octet(alloc, text)
}

/// The octets that are a string's characters, one by one.
fn each_octet(alloc: Global, text: &str) -> Result<Octets, ShapeErr>
    ensures { Gives (λ o. o) result (octets_of text.now) }
{
    let mut octets = Octets::new(alloc);
    for c in text.chars() {
        let code = u32::from(c);
        if code > 255 {
            return Err(ShapeErr::Shape);
        }
        octets.push(code as u8)?;
    }
    Ok(octets)
}

/// The octets that a string has as characters.
pub(crate) fn octets_in(alloc: Global, json: &Json) -> Result<Octets, ShapeErr>
    ensures { Gives (λ o. o) result (octets_in (view json.now)) }
{
    match json.as_str() {
        Some(text) => octets_of(alloc, text),
        None => Err(ShapeErr::Shape),
    }
}

/// The octets that a string has in hexadecimal digits.
pub(crate) fn hex_in(alloc: Global, json: &Json) -> Result<Vec<u8>, ShapeErr>
    ensures { Gives (λ o. o.items) result (hex_in (view json.now)) }
{
    let Some(text) = json.as_str() else {
        return Err(ShapeErr::Shape);
    };
    match kit_digits::decode(alloc, text.as_bytes()) {
        Ok(octets) => Ok(octets),
        Err(FromHexError::OutOfMemory) => Err(ShapeErr::NoMemory),
        Err(_) => Err(ShapeErr::Shape),
    }
}

/// The string of ASCII octets, which are its own octets; none where an octet is not ASCII.
pub(crate) fn ascii_of(octets: &[u8]) -> Option<&str>
    ensures { IfSome result (λ s. s.now ≡ text_of octets.now) }
{
    if !octets.is_ascii() {
        return None;
    }
    Some(unsafe { str::from_utf8_unchecked(octets) })
}

/// The string of octets.
pub(crate) fn text_of(alloc: Global, octets: &[u8]) -> Result<String, NoMemory>
    ensures { IfOk result (λ s. string_bytes s ≡ text_of octets.now) }
{
    match ascii_of(octets) {
        Some(text) => Ok(String::from_str(alloc, text)?),
        None => pres::text_of(alloc, octets),
    }
}
