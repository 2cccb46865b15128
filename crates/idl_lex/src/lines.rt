//! Lines: their numbers, and those that are skipped.

ghost use Rattle.std.specs.Prelude.{◌≡◌, ◌+◌, ◌-◌, ◌^◌, min, length, ◌==◌};
ghost use Rattle.idl_lex.specs.Lines.{line_feeds, line_before, is_at_start, is_marker, is_skipped_by, is_hash_line, is_skipped};

use crate::Front;
use crate::classes::{is_blank, is_digit, line_blanks};

/// The line after a piece that begins on a line.
pub(crate) fn line_past(line: u32, piece: &[u8]) -> u32
    ensures { result ≡ min (line + line_feeds piece.now) (2 ^ 32 - 1) }
{
    let feeds = piece.iter().filter(|o| **o == b'\n').count();
    if feeds >= (u32::MAX - line) as usize {
        u32::MAX
    } else {
        line + feeds as u32
    }
}

/// Whether nothing but blanks is on the line so far.
fn is_at_start(before: &[u8]) -> bool
    ensures { result ≡ is_at_start before.now }
{
    before
        .iter()
        .rev()
        .take_while(|o| **o != b'\n')
        .all(|o| is_blank(*o))
}

/// Whether nothing at all is on the line so far.
fn is_first(before: &[u8]) -> bool
    ensures { result ≡ (length (line_before before.now) == 0) }
{
    match before.last() {
        None | Some(b'\n') => true,
        Some(_) => false,
    }
}

/// Whether the text begins with a `#` that is the first octet of its line past blanks.
pub(crate) fn is_hash_line(before: &[u8], text: &[u8]) -> bool
    ensures { result ≡ is_hash_line before.now text.now }
{
    text.first() == Some(&b'#') && is_at_start(before)
}

/// Whether blanks and then a digit or `line` come first.
fn is_marker(text: &[u8]) -> bool
    ensures { result ≡ is_marker text.now }
{
    let rest = &text[line_blanks(text)..];
    match rest.first() {
        Some(o) if is_digit(*o) => true,
        _ => rest.starts_with(b"line"),
    }
}

/// Whether the text is skipped to its line's end by the rules of one front end.
fn is_skipped_by(front: Front, before: &[u8], text: &[u8]) -> bool
    ensures { result ≡ is_skipped_by front before.now text.now }
{
    match front {
        Front::Onc => text.first() == Some(&b'%') && is_first(before),
        Front::Corba => text.starts_with(b"//"),
        Front::Mig => false,
    }
}

/// Whether the text is skipped to its line's end.
pub(crate) fn is_skipped(front: Front, before: &[u8], text: &[u8]) -> bool
    ensures { result ≡ is_skipped front before.now text.now }
{
    is_hash_line(before, text) && is_marker(&text[1..]) || is_skipped_by(front, before, text)
}
