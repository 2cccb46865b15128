//! Where the tokens of a text are: their lines are known, their columns are found by a walk beside them.

use crate::text::{cut, from};
use idl_lex::{Front, TokenKind, Tokens};
use kit_base::{Listed, NoMemory};
use std::alloc::Global;

/// The octets that a token is.
#[derive(Clone, Copy)]
pub struct Span {
    /// Its first octet.
    pub start: usize,
    /// The octet after its last.
    pub end: usize,
}

/// The spans of the tokens of a text, in order.
pub type Spans = Listed<Span>;

/// Where the tokens of a text are.
pub fn spans_of(
    alloc: Global,
    front: Front,
    text: &[u8],
    tokens: &Tokens,
) -> Result<Spans, NoMemory> {
    let mut spans = Spans::new(alloc);
    let mut at = 0;
    for token in tokens.as_slice() {
        let start = past_blanks(front, text, at);
        let end = start.saturating_add(width(&token.kind, from(text, start)));
        spans.push(Span { start, end })?;
        at = end;
    }
    Ok(spans)
}

/// The place after blanks, comments and skipped lines.
fn past_blanks(front: Front, text: &[u8], at: usize) -> usize {
    let mut next = at;
    for _ in at..text.len() {
        let count = skipped(front, text, next);
        if count == 0 {
            return next;
        }
        next = next.saturating_add(count);
    }
    next
}

/// How many octets of a blank, a comment or a skipped line come first.
fn skipped(front: Front, text: &[u8], at: usize) -> usize {
    let rest = from(text, at);
    let blanks = rest.iter().take_while(|o| is_blank(**o)).count();
    if blanks > 0 {
        return blanks;
    }
    if rest.starts_with(b"/*") {
        return to_close(rest);
    }
    if is_skipped_line(front, cut(text, 0, at), rest) {
        return rest.iter().take_while(|o| **o != b'\n').count();
    }
    0
}

/// Whether a line begins that has no tokens.
fn is_skipped_line(front: Front, before: &[u8], rest: &[u8]) -> bool {
    if rest.starts_with(b"#") {
        return true;
    }
    match front {
        Front::Onc => rest.starts_with(b"%") && begins_line(before),
        Front::Corba => rest.starts_with(b"//"),
        Front::Mig => false,
    }
}

/// Whether a line begins after these octets.
fn begins_line(before: &[u8]) -> bool {
    match before.last() {
        Some(octet) => *octet == b'\n',
        None => true,
    }
}

/// Whether an octet is a blank.
fn is_blank(octet: u8) -> bool {
    octet == b' ' || octet > 8 && octet < 14
}

/// How many octets there are up to the end of a comment and with it.
fn to_close(rest: &[u8]) -> usize {
    let mut star = false;
    let mut count = 2usize;
    for octet in from(rest, 2) {
        count = count.saturating_add(1);
        if star && *octet == b'/' {
            return count;
        }
        star = *octet == b'*';
    }
    count
}

/// How many octets a token has that comes first.
fn width(kind: &TokenKind, rest: &[u8]) -> usize {
    match kind {
        TokenKind::Name(name) => name.len(),
        TokenKind::Number(_) => digits(rest),
        TokenKind::Char(_) | TokenKind::Text(_) => quoted(rest),
        TokenKind::FileName(name) => name.len().saturating_add(2),
        TokenKind::Mark(mark) => mark.len(),
    }
}

/// How many octets of a number come first.
fn digits(rest: &[u8]) -> usize {
    if rest.starts_with(b"0x") || rest.starts_with(b"0X") {
        let count = from(rest, 2)
            .iter()
            .take_while(|o| o.is_ascii_hexdigit())
            .count();
        return count.saturating_add(2);
    }
    rest.iter().take_while(|o| o.is_ascii_digit()).count()
}

/// How many octets there are up to the quote that closes the first one, and with it.
fn quoted(rest: &[u8]) -> usize {
    let mut escaped = false;
    let mut count = 1usize;
    for octet in from(rest, 1) {
        count = count.saturating_add(1);
        if !escaped && Some(octet) == rest.first() {
            return count;
        }
        escaped = !escaped && *octet == b'\\';
    }
    count
}
