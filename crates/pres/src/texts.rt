//! Strings that stand for octets.

ghost use Rattle.std.specs.Prelude.{◌≡◌, ◌≢◌, ◌++◌, ℕ, List, IfNone, IfOk, IfSome, IsUtf8, string_bytes, true};
ghost use Rattle.std.specs.Str.{bytes_eq, IsAscii};
ghost use Rattle.std.specs.Str.Iter.{chars_rest};
ghost use Rattle.pres.specs.Tables.{text_of};

use aoi::FullName;
use kit_base::NoMemory;
use std::alloc::Global;
use std::str::Chars;

/// The string of octets.
pub fn text_of(alloc: Global, octets: &[u8]) -> Result<String, NoMemory>
    ensures { IfOk result (λ s. string_bytes s ≡ text_of octets.now) }
{
    let mut text = String::new(alloc);
    for octet in octets {
        text.push(char::from(*octet))?;
    }
    Ok(text)
}

/// What stands after the string of the octets.
pub fn text_after<'a>(octets: &[u8], chars: Chars<'a>) -> Option<Chars<'a>>
    requires { IsUtf8 (chars_rest chars) }
    ensures some { IfSome result (λ r. IsUtf8 (chars_rest r)
        × (chars_rest chars.entry ≡ text_of octets.now ++ chars_rest r)) }
    ensures none { IfNone result ((more : List ℕ) → chars_rest chars.entry ≢ text_of octets.now ++ more) }
{
    let mut rest = chars;
    for octet in octets {
        let Some(c) = rest.next() else {
            return None;
        };
        if u32::from(c) != u32::from(*octet) {
            return None;
        }
    }
    Some(rest)
}

/// Whether what is left of a string is that of the octets.
fn is_rest_of(octets: &[u8], chars: Chars<'_>) -> bool
    requires { IsUtf8 (chars_rest chars) }
    ensures { result ≡ bytes_eq (text_of octets.now) (chars_rest chars.entry) }
{
    match text_after(octets, chars) {
        Some(mut rest) => match rest.next() {
            None => true,
            Some(_) => false,
        },
        None => false,
    }
}

/// Whether a string is that of the octets. None is looked at where the string is too short.
#[inline(never)]
pub fn is_text_of(octets: &[u8], text: &str) -> bool
    ensures { result ≡ bytes_eq (text_of octets.now) text.now }
{
    if octets.len() > text.len() {
        return false;
    }
    if octets.is_ascii() {
        return octets == text.as_bytes();
    }
    is_rest_of(octets, text.chars())
}

/// Whether the octets of a full name are of ASCII.
fn is_ascii(name: &FullName) -> bool
    ensures { result ≡ true → IsAscii name.now }
{
    let (prefix, own) = name.parts();
    prefix.is_ascii() && own.is_ascii()
}

/// Whether a string is that of the octets of a full name, piece by piece.
fn is_text_of_pieces(name: &FullName, text: &str) -> bool
    ensures { result ≡ bytes_eq (text_of name.now) text.now }
{
    let (prefix, own) = name.parts();
    match text_after(prefix, text.chars()) {
        Some(rest) => is_rest_of(own, rest),
        None => false,
    }
}

/// Whether a string is that of the octets of a full name, of which no copy is made.
pub fn is_full_text_of(name: &FullName, text: &str) -> bool
    ensures { result ≡ bytes_eq (text_of name.now) text.now }
{
    if name.is_longer(text.len()) {
        return false;
    }
    if is_ascii(name) {
        return name.is(text.as_bytes());
    }
    is_text_of_pieces(name, text)
}
