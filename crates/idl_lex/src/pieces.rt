//! The piece that comes first in a text.

ghost use Rattle.std.specs.Prelude.{◌≡◌, ◌<◌, ◌≤◌, ◌+◌, length, take, drop, IfOk, IfSome, IsTrue, Ok};
ghost use Rattle.std.specs.List.{prefix_len};
ghost use Rattle.idl_lex.specs.Classes.{is_digit, is_letter, is_word_octet, begins};
ghost use Rattle.idl_lex.specs.Numbers.{digit_count};
ghost use Rattle.idl_lex.specs.Pieces.{count_to_close, begins_twin, mark_count, name};
ghost use Rattle.idl_lex.specs.Reads.{Gives, shown, comment_of, number_of, mark_of, piece_at};

use crate::{Front, LexErr, TokenKind, classes, files, lines, numbers, quotes};
use kit_base::Octets;
use std::alloc::Global;

/// The kind of the token that the first piece is, where it is one, and how many octets it has.
/// `imports`: whether the last token before it imports.
pub(crate) fn piece(
    alloc: Global,
    front: Front,
    imports: bool,
    before: &[u8],
    text: &[u8],
) -> Result<(Option<TokenKind>, usize), LexErr>
    requires { 0 < length text.now }
    ensures piece { Gives result (shown (piece_at front imports before.now text.now)) }
    ensures within { IfOk result (λ x. (0 < x.1) × (x.1 ≤ length text.now)) }
{
    let first = text[0];
    if classes::is_blank(first) {
        return Ok((None, classes::blanks(text)));
    }
    if text.starts_with(b"/*") {
        return comment(before.len(), text);
    }
    if classes::is_letter(first) {
        return word(alloc, text);
    }
    if classes::is_digit(first) {
        return number(before.len(), text);
    }
    if lines::is_skipped(front, before, text) {
        return Ok((None, classes::in_line(text)));
    }
    if quotes::opens_quote(front, text) {
        return quotes::quoted(alloc, before.len(), text);
    }
    match files::file_count(front, imports, text) {
        Some(n) => files::file_name(alloc, text, n),
        None => mark(alloc, before, text),
    }
}

/// How many octets there are up to the first `*/` and with it.
fn count_to_close(text: &[u8]) -> Option<usize>
    ensures count { result ≡ count_to_close text.now }
    ensures within { IfSome result (λ n. n ≤ length text.now) }
{
    for i in 0..text.len() {
        if text[i..].starts_with(b"*/") {
            return Some(i + 2);
        }
    }
    None
}

fn comment(at: usize, text: &[u8]) -> Result<(Option<TokenKind>, usize), LexErr>
    requires { 2 ≤ length text.now }
    ensures piece { Gives result (shown (comment_of at text.now (count_to_close (drop 2 text.now)))) }
    ensures within { IfOk result (λ x. (0 < x.1) × (x.1 ≤ length text.now)) }
{
    match count_to_close(&text[2..]) {
        Some(n) => Ok((None, 2 + n)),
        None => Err(LexErr::OpenComment(at)),
    }
}

fn word(alloc: Global, text: &[u8]) -> Result<(Option<TokenKind>, usize), LexErr>
    requires { IsTrue (begins is_letter text.now) }
    ensures piece { Gives result (shown (Ok (name (take (prefix_len is_word_octet text.now) text.now)))) }
    ensures within { IfOk result (λ x. (0 < x.1) × (x.1 ≤ length text.now)) }
{
    let n = classes::word_octets(text);
    let name = Octets::from_slice(alloc, &text[..n])?;
    Ok((Some(TokenKind::Name(name)), n))
}

fn number(at: usize, text: &[u8]) -> Result<(Option<TokenKind>, usize), LexErr>
    requires { IsTrue (begins is_digit text.now) }
    ensures piece { Gives result (shown (number_of at (take (digit_count text.now) text.now))) }
    ensures within { IfOk result (λ x. (0 < x.1) × (x.1 ≤ length text.now)) }
{
    let n = numbers::digit_count(text);
    let string = &text[..n];
    if !numbers::is_number(string) {
        return Err(LexErr::BadOctet(at));
    }
    match numbers::value(string) {
        Some(value) => Ok((Some(TokenKind::Number(value)), n)),
        None => Err(LexErr::Wide(at)),
    }
}

/// Whether a mark of two octets comes first.
fn begins_twin(text: &[u8]) -> bool
    ensures { result ≡ begins_twin text.now }
{
    match text {
        [first, second, ..] => b":<>".contains(first) && *second == *first,
        _ => false,
    }
}

/// How many octets the mark has that comes first.
fn mark_count(text: &[u8]) -> usize
    ensures count { result ≡ mark_count text.now }
    ensures within { result ≤ length text.now }
{
    if begins_twin(text) {
        return 2;
    }
    match text.first() {
        Some(first) if b"{}[]()<>;:,=*+-/%|^&".contains(first) => 1,
        _ => 0,
    }
}

fn mark(alloc: Global, before: &[u8], text: &[u8]) -> Result<(Option<TokenKind>, usize), LexErr>
    ensures piece { Gives result (shown (mark_of before.now text.now (mark_count text.now))) }
    ensures within { IfOk result (λ x. (0 < x.1) × (x.1 ≤ length text.now)) }
{
    let n = mark_count(text);
    if n > 0 {
        let mark = Octets::from_slice(alloc, &text[..n])?;
        return Ok((Some(TokenKind::Mark(mark)), n));
    }
    if lines::is_hash_line(before, text) {
        return Err(LexErr::Directive(before.len()));
    }
    Err(LexErr::BadOctet(before.len()))
}
