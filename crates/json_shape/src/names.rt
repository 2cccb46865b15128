//! Names that strings are.

ghost use Rattle.std.specs.Prelude.{◌≡◌, ◌≢◌, ◌<◌, ◌==◌, ◌++◌, ℕ, List, IfNone, IfSome, true, false, codes, length, slice_index};
ghost use Rattle.std.specs.Str.{IsAscii, bytes_eq};
ghost use Rattle.json_shape.specs.Texts.{text_of};

use pres::{is_text_of, text_after};

/// Whether a string is a name's. If the string is known to be ASCII, octets are compared.
#[inline(always)]
pub(crate) fn is_name(name: &[u8], text: &str, plain: bool) -> bool
    requires { plain ≡ true → IsAscii text.now }
    ensures { result ≡ bytes_eq (text_of name.now) text.now }
{
    if plain {
        name == text.as_bytes()
    } else {
        is_text_of(name, text)
    }
}

/// Whether an octet is a dot.
fn has_dot(octets: &[u8], at: usize) -> bool
    ensures value { result ≡ (slice_index octets.now at == 46) }
    ensures within { result ≡ true → at < length octets.now }
{
    match octets.get(at) {
        Some(octet) => *octet == b'.',
        None => false,
    }
}

/// What stands in a string after the octets of a name and a dot.
fn past_dot<'a>(name: &[u8], text: &'a str) -> Option<&'a str>
    ensures some { IfSome result (λ rest. text.now ≡ name.now ++ (codes "." ++ rest.now)) }
    ensures none { IfNone result ((more : List ℕ) → text.now ≢ name.now ++ (codes "." ++ more)) }
{
    let octets = text.as_bytes();
    let n = name.len();
    // Of names of different lengths few have a dot there.
    if !has_dot(octets, n) {
        return None;
    }
    if &octets[..n] == name {
        Some(&text[n + 1..])
    } else {
        None
    }
}

/// What stands in a string after a name and a dot, where its octets may be more than ASCII.
fn after_wide_name<'a>(name: &[u8], text: &'a str) -> Option<&'a str>
    ensures some { IfSome result (λ rest. (o : List ℕ)
        → bytes_eq (text_of (name.now ++ (codes "." ++ o))) text.now ≡ bytes_eq (text_of o) rest.now) }
    ensures none { IfNone result
        ((o : List ℕ) → bytes_eq (text_of (name.now ++ (codes "." ++ o))) text.now ≡ false) }
{
    let Some(rest) = text_after(name, text.chars()) else {
        return None;
    };
    match text_after(b".", rest) {
        Some(rest) => Some(rest.as_str()),
        None => None,
    }
}

/// What stands in a string after a name and a dot. If the string is known to be ASCII, octets are compared, and what
/// stands there is ASCII.
pub(crate) fn after_name<'a>(name: &[u8], text: &'a str, plain: bool) -> Option<&'a str>
    requires { plain ≡ true → IsAscii text.now }
    ensures plain { plain ≡ true → IfSome result (λ rest. IsAscii rest.now) }
    ensures some { IfSome result (λ rest. (o : List ℕ)
        → bytes_eq (text_of (name.now ++ (codes "." ++ o))) text.now ≡ bytes_eq (text_of o) rest.now) }
    ensures none { IfNone result
        ((o : List ℕ) → bytes_eq (text_of (name.now ++ (codes "." ++ o))) text.now ≡ false) }
{
    if plain {
        return past_dot(name, text);
    }
    if name.len() > text.len() {
        return None;
    }
    if name.is_ascii() {
        return past_dot(name, text);
    }
    after_wide_name(name, text)
}
