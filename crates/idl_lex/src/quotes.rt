//! Characters and strings between quotes.

ghost use Rattle.std.specs.Prelude.{◌≡◌, ◌<◌, ◌≤◌, ◌+◌, ◌-◌, length, drop, IfOk, IfSome, Ok};
ghost use Rattle.std.specs.Prelude.{false};
ghost use Rattle.idl_lex.specs.Classes.{begins};
ghost use Rattle.idl_lex.specs.Quotes.{is_single, opens_quote, is_plain, escape_of, escaped_at, character_at, string_count, code_or, spelled};
ghost use Rattle.idl_lex.specs.Reads.{Gives, shown, character_of, string_of, quoted_of};

use crate::{Front, LexErr, TokenKind};
use kit_base::{NoMemory, Octets};
use std::alloc::Global;

/// Whether a character or a string begins here, by the rules of the front end.
pub(crate) fn opens_quote(front: Front, text: &[u8]) -> bool
    ensures { result ≡ opens_quote front text.now }
{
    match front {
        Front::Corba => matches!(text, [b'\'' | b'"', ..]),
        Front::Onc | Front::Mig => false,
    }
}

/// Whether an octet stands for itself between quotes.
fn is_plain(octet: u8) -> bool
    ensures { result ≡ is_plain octet }
{
    octet >= b' ' && octet <= b'~' && octet != b'\\'
}

/// The code of an escape, by the octet after its backslash.
fn escape(octet: u8) -> Option<u8>
    ensures { result ≡ escape_of octet }
{
    match octet {
        b'n' => Some(b'\n'),
        b't' => Some(b'\t'),
        b'v' => Some(11),
        b'b' => Some(8),
        b'r' => Some(b'\r'),
        b'f' => Some(12),
        b'a' => Some(7),
        b'\\' => Some(b'\\'),
        b'?' => Some(b'?'),
        b'\'' => Some(b'\''),
        b'"' => Some(b'"'),
        _ => None,
    }
}

/// Whether a single quote comes first.
fn begins_single(text: &[u8]) -> bool
    ensures { result ≡ begins is_single text.now }
{
    text.first() == Some(&b'\'')
}

/// The character after `'\`, and how many octets it has with its quotes.
fn escaped(text: &[u8]) -> Option<(u8, usize)>
    ensures count { result ≡ escaped_at text.now }
    ensures within { IfSome result (λ x. (0 < x.1) × (x.1 ≤ 2 + length text.now)) }
{
    match text {
        [octet, rest @ ..] if begins_single(rest) => match escape(*octet) {
            Some(code) => Some((code, 4)),
            None => None,
        },
        _ => None,
    }
}

/// The character that comes first, between single quotes, and how many octets it has with them.
fn character_at(text: &[u8]) -> Option<(u8, usize)>
    ensures count { result ≡ character_at text.now }
    ensures within { IfSome result (λ x. (0 < x.1) × (x.1 ≤ length text.now)) }
{
    match text {
        [_, b'\\', rest @ ..] => escaped(rest),
        [_, octet, rest @ ..] if is_plain(*octet) && begins_single(rest) => Some((*octet, 3)),
        _ => None,
    }
}

/// How many octets there are up to the end of a string and with it.
fn string_count(text: &[u8]) -> Option<usize>
    ensures count { result ≡ string_count false text.now }
    ensures within { IfSome result (λ n. (0 < n) × (n ≤ length text.now)) }
{
    let mut after_backslash = false;
    'octets: for i in 0..text.len() {
        let octet = text[i];
        if after_backslash {
            if escape(octet).is_none() {
                return None;
            }
            after_backslash = false;
        } else if octet == b'"' {
            return Some(i + 1);
        } else if octet == b'\\' {
            after_backslash = true;
        } else if !is_plain(octet) {
            return None;
        }
    }
    None
}

/// The code of an escape, or the octet where it is none.
fn code_or(octet: u8) -> u8
    ensures { result ≡ code_or octet (escape_of octet) }
{
    match escape(octet) {
        Some(code) => code,
        None => octet,
    }
}

/// The codes of the characters that the octets of a string spell.
fn spelled(alloc: Global, body: &[u8]) -> Result<Octets, NoMemory>
    ensures { IfOk result (λ codes. codes ≡ spelled false body.now) }
{
    let mut codes = Octets::new(alloc);
    let mut after_backslash = false;
    'octets: for octet in body {
        if after_backslash {
            codes.push(code_or(*octet))?;
            after_backslash = false;
        } else if *octet == b'\\' {
            after_backslash = true;
        } else {
            codes.push(*octet)?;
        }
    }
    Ok(codes)
}

fn character(at: usize, text: &[u8]) -> Result<(Option<TokenKind>, usize), LexErr>
    ensures piece { Gives result (shown (character_of at text.now (character_at text.now))) }
    ensures within { IfOk result (λ x. (0 < x.1) × (x.1 ≤ length text.now)) }
{
    match character_at(text) {
        Some((code, n)) => Ok((Some(TokenKind::Char(code)), n)),
        None => Err(LexErr::BadOctet(at)),
    }
}

fn string(alloc: Global, at: usize, text: &[u8]) -> Result<(Option<TokenKind>, usize), LexErr>
    requires { 0 < length text.now }
    ensures piece { Gives result (shown (string_of at text.now (string_count false (drop 1 text.now)))) }
    ensures within { IfOk result (λ x. (0 < x.1) × (x.1 ≤ length text.now)) }
{
    let body = &text[1..];
    match string_count(body) {
        Some(n) => {
            let codes = spelled(alloc, &body[..n - 1])?;
            Ok((Some(TokenKind::Text(codes)), 1 + n))
        }
        None => Err(LexErr::BadOctet(at)),
    }
}

/// The character or the string that comes first.
pub(crate) fn quoted(
    alloc: Global,
    at: usize,
    text: &[u8],
) -> Result<(Option<TokenKind>, usize), LexErr>
    requires { 0 < length text.now }
    ensures piece { Gives result (shown (quoted_of at text.now)) }
    ensures within { IfOk result (λ x. (0 < x.1) × (x.1 ≤ length text.now)) }
{
    if begins_single(text) {
        return character(at, text);
    }
    string(alloc, at, text)
}
