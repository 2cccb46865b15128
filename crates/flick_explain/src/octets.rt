//! The octets of a message, as they are shown.

use crate::text::{cut, number_in, text_of};
use hex::FromHexError;
use kit_base::NoMemory;
use std::alloc::Global;

/// How many octets are shown on either side of one.
const BESIDE: usize = 8;

/// The octets of a line of digits, where it is one.
pub fn message_of(alloc: Global, line: &[u8]) -> Result<Option<Vec<u8>>, NoMemory> {
    match hex::decode(alloc, line) {
        Ok(message) => Ok(Some(message)),
        Err(FromHexError::OutOfMemory) => Err(NoMemory),
        Err(_) => Ok(None),
    }
}

/// Some octets of a message with their places.
pub fn octets_reported(
    alloc: Global,
    message: &[u8],
    first: usize,
    end: usize,
) -> Result<String, NoMemory> {
    let stop = end.min(message.len());
    if first >= stop {
        return Ok(format!(in alloc; "the message has {} octets", message.len())?);
    }
    let digits = hex::encode(alloc, cut(message, first, stop))?;
    Ok(format!(in alloc; "octets {first} to {} are {digits}", stop.saturating_sub(1))?)
}

/// The octets around one of a message, which stands in brackets.
pub fn around(alloc: Global, message: &[u8], at: usize) -> Result<String, NoMemory> {
    let first = at.saturating_sub(BESIDE);
    let next = at.saturating_add(1);
    let last = next.saturating_add(BESIDE).min(message.len());
    if at >= message.len() {
        let before = hex::encode(alloc, cut(message, first, message.len()))?;
        return Ok(format!(in alloc;
            "the message ends after octet {}: {before}[]",
            message.len()
        )?);
    }
    let before = hex::encode(alloc, cut(message, first, at))?;
    let one = hex::encode(alloc, cut(message, at, next))?;
    let after = hex::encode(alloc, cut(message, next, last))?;
    Ok(format!(in alloc; "octets {first} on: {before}[{one}]{after}")?)
}

/// An octet of a message, where the place is a number, and those around it.
pub fn place_reported(alloc: Global, message: &[u8], place: &[u8]) -> Result<String, NoMemory> {
    match number_in(place) {
        Some(at) => around(alloc, message, at as usize),
        None => octets_reported(alloc, message, 0, 16),
    }
}

/// The octets after the last value, where the place is a number.
pub fn trailing_reported(alloc: Global, message: &[u8], place: &[u8]) -> Result<String, NoMemory> {
    match number_in(place) {
        Some(at) => {
            let first = at as usize;
            octets_reported(alloc, message, first, first.saturating_add(16))
        }
        None => text_of(alloc, "octets after the last value"),
    }
}

/// Why some octets of a line are not digits, after so many others.
pub fn digits_reported(alloc: Global, before: usize, digits: &[u8]) -> Result<String, NoMemory> {
    let good = digits.iter().take_while(|o| o.is_ascii_hexdigit()).count();
    if good < digits.len() {
        return Ok(format!(in alloc;
            "the character in column {} is no hexadecimal digit",
            before.saturating_add(good).saturating_add(1)
        )?);
    }
    if good % 2 == 1 {
        return Ok(format!(in alloc; "{good} digits, an odd number")?);
    }
    text_of(alloc, "the digits are even in number")
}
