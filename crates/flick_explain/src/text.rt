//! Octets as text that can be printed, and parts of octets.

use kit_base::NoMemory;
use std::alloc::Global;

/// The octets from one place up to another, or none where they are not there.
pub fn cut(octets: &[u8], from: usize, to: usize) -> &[u8] {
    match octets.get(from..to) {
        Some(piece) => piece,
        None => &[],
    }
}

/// The octets from a place on.
pub fn from(octets: &[u8], at: usize) -> &[u8] {
    cut(octets, at, octets.len())
}

/// The octets as text, with `?` in the place of those that are not printable ASCII.
pub fn shown(alloc: Global, octets: &[u8]) -> Result<String, NoMemory> {
    let mut text = String::new(alloc);
    for octet in octets {
        text.push(printed(*octet))?;
    }
    Ok(text)
}

/// The character of an octet.
fn printed(octet: u8) -> char {
    if octet == 9 || octet > 31 && octet < 127 {
        char::from(octet)
    } else {
        '?'
    }
}

/// The same text.
pub fn text_of(alloc: Global, text: &str) -> Result<String, NoMemory> {
    Ok(String::from_str(alloc, text)?)
}

/// The number in decimal digits that the octets are.
pub fn number_in(octets: &[u8]) -> Option<u32> {
    let Ok(text) = str::from_utf8(octets) else {
        return None;
    };
    text.parse::<u32>().ok()
}
