//! File names after words that import files.

ghost use Rattle.std.specs.Prelude.{◌≡◌, ◌<◌, ◌≤◌, ◌+◌, length, take, drop, not, ◌&&◌, ◌==◌, IfSome, IfOk, Ok};
ghost use Rattle.std.specs.List.{prefix_len};
ghost use Rattle.std.specs.Str.{str_eq_ignore_ascii_case};
ghost use Rattle.idl_lex.specs.Classes.{is_in_line, begins};
ghost use Rattle.idl_lex.specs.Files.{is_import, count_before, enclosed_count, file_count};
ghost use Rattle.idl_lex.specs.Pieces.{imports_on, file_name};
ghost use Rattle.idl_lex.specs.Reads.{Gives, shown};

use crate::{Front, LexErr, TokenKind};
use kit_base::Octets;
use std::alloc::Global;

/// Whether two words are the same but for the case of their letters.
fn is_same(word: &[u8], other: &[u8]) -> bool
    ensures { result ≡ str_eq_ignore_ascii_case word.now other.now }
{
    word.eq_ignore_ascii_case(other)
}

/// Whether a word is `import`, `uimport` or `simport`, in any letter case.
fn is_import(word: &[u8]) -> bool
    ensures { result ≡ is_import word.now }
{
    is_same(word, b"import") || is_same(word, b"uimport") || is_same(word, b"simport")
}

/// Whether the last token is a word that imports, after a piece of this kind; `imports` says so of
/// the pieces before.
pub(crate) fn imports_on(imports: bool, kind: &Option<TokenKind>) -> bool
    ensures { result ≡ imports_on imports kind.now }
{
    match kind {
        None => imports,
        Some(TokenKind::Name(word)) => is_import(word.as_slice()),
        Some(_) => false,
    }
}

/// How many octets come first that do not end the line and are not the one that closes a file name.
fn octets_before(closer: u8, text: &[u8]) -> usize
    ensures count { result ≡ prefix_len (λ o. not (o == closer) && is_in_line o) text.now }
    ensures within { result ≤ length text.now }
{
    text.iter()
        .take_while(|o| **o != closer && **o != b'\n')
        .count()
}

/// Whether an octet comes first.
fn begins_with(octet: u8, text: &[u8]) -> bool
    ensures { result ≡ begins (λ o. o == octet) text.now }
{
    text.first() == Some(&octet)
}

/// How many octets come before the octet that closes a file name, where it is on the line.
fn count_before(closer: u8, text: &[u8]) -> Option<usize>
    ensures count { result ≡ count_before closer text.now }
    ensures within { IfSome result (λ n. n < length text.now) }
{
    let n = octets_before(closer, text);
    if begins_with(closer, &text[n..]) {
        Some(n)
    } else {
        None
    }
}

/// How many octets are between `<` and `>`, or between two `"`, on one line.
fn enclosed_count(text: &[u8]) -> Option<usize>
    ensures count { result ≡ enclosed_count text.now }
    ensures within { IfSome result (λ n. 2 + n ≤ length text.now) }
{
    match text {
        [b'<', rest @ ..] => count_before(b'>', rest),
        [b'"', rest @ ..] => count_before(b'"', rest),
        _ => None,
    }
}

/// How many octets the file name has that comes first, without what encloses it. `imports`: whether
/// the last token before it imports.
pub(crate) fn file_count(front: Front, imports: bool, text: &[u8]) -> Option<usize>
    ensures count { result ≡ file_count front imports text.now }
    ensures within { IfSome result (λ n. 2 + n ≤ length text.now) }
{
    match front {
        Front::Mig if imports => enclosed_count(text),
        _ => None,
    }
}

/// The file name of so many octets that comes first.
pub(crate) fn file_name(
    alloc: Global,
    text: &[u8],
    n: usize,
) -> Result<(Option<TokenKind>, usize), LexErr>
    requires { 2 + n ≤ length text.now }
    ensures piece { Gives result (shown (Ok (file_name (take n (drop 1 text.now)) (take (2 + n) text.now)))) }
    ensures within { IfOk result (λ x. (0 < x.1) × (x.1 ≤ length text.now)) }
{
    let path = Octets::from_slice(alloc, &text[1..1 + n])?;
    Ok((Some(TokenKind::FileName(path)), 2 + n))
}
