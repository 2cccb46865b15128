//! Words in any letter case, and identifiers.

ghost use Rattle.std.specs.Prelude.{◌≡◌, map, IfErr};
ghost use Rattle.std.specs.Str.{str_eq_ignore_ascii_case, str_to_ascii_lowercase};
ghost use Rattle.idl_read.specs.Reading.{Gives, begins_with, token_at};
ghost use Rattle.mig_syntax.specs.Words.{is_one_of, like_is, like_at, like_in, has_like, named_in, identifier_at};

use idl_lex::{Token, TokenKind};
use idl_read::{Halt, Parsed};
use kit_base::Name;
use std::alloc::Global;

/// The words of the grammar, which are not identifiers in any letter case.
const WORDS: [&[u8]; 17] = [
    b"subsystem",
    b"type",
    b"array",
    b"of",
    b"struct",
    b"routine",
    b"simpleroutine",
    b"skip",
    b"requestport",
    b"in",
    b"out",
    b"inout",
    b"userprefix",
    b"serverprefix",
    b"import",
    b"uimport",
    b"simport",
];

/// Whether two names are equal but for the case of their letters.
fn same_word(a: &[u8], b: &[u8]) -> bool
    ensures { result ≡ str_eq_ignore_ascii_case a.now b.now }
{
    a.eq_ignore_ascii_case(b)
}

/// Whether the token is this word.
pub(crate) fn is_like(token: &Token, word: &[u8]) -> bool
    ensures { result ≡ like_is word.now token.now.kind }
{
    match &token.kind {
        TokenKind::Name(name) => same_word(name.as_slice(), word),
        _ => false,
    }
}

/// Whether this word comes first.
pub(crate) fn begins_like(tokens: &[Token], word: &[u8]) -> bool
    ensures { result ≡ begins_with (like_is word.now) tokens.now }
{
    match tokens {
        [first, ..] => is_like(first, word),
        [] => false,
    }
}

/// What follows the word.
pub(crate) fn like<'a>(tokens: &'a [Token], word: &[u8]) -> Result<&'a [Token], Halt>
    ensures read { Gives (λ x. (tt, x.now)) result (like_at word.now tokens.now) }
    ensures fault { IfErr result (λ e. e ≡ Halt.Syntax) }
{
    match tokens {
        [first, rest @ ..] if is_like(first, word) => Ok(rest),
        _ => Err(Halt::Syntax),
    }
}

/// What the token stands for in a table of words.
fn meaning<T: Copy>(token: &Token, table: &[(&[u8], T)]) -> Option<T>
    ensures { result ≡ like_in (map (λ e. (e.0.now, e.1)) table.now) token.now.kind }
{
    for (word, meaning) in table {
        if is_like(token, word) {
            return Some(*meaning);
        }
    }
    None
}

/// Whether a word of the table comes first.
pub(crate) fn begins_like_of<T: Copy>(tokens: &[Token], table: &[(&[u8], T)]) -> bool
    ensures { result ≡ begins_with (has_like (map (λ e. (e.0.now, e.1)) table.now)) tokens.now }
{
    match tokens {
        [first, ..] => meaning(first, table).is_some(),
        [] => false,
    }
}

/// What a word of the table stands for, and what follows it.
pub(crate) fn like_of<'a, T: Copy>(tokens: &'a [Token], table: &[(&[u8], T)]) -> Parsed<'a, T>
    ensures read { Gives (λ x. (x.0, x.1.now)) result
        (token_at (like_in (map (λ e. (e.0.now, e.1)) table.now)) tokens.now) }
    ensures fault { IfErr result (λ e. e ≡ Halt.Syntax) }
{
    match tokens {
        [first, rest @ ..] => match meaning(first, table) {
            Some(meaning) => Ok((meaning, rest)),
            None => Err(Halt::Syntax),
        },
        [] => Err(Halt::Syntax),
    }
}

/// Whether the name is one of the words.
fn is_one(name: &[u8], words: &[&[u8]]) -> bool
    ensures { result ≡ is_one_of (str_to_ascii_lowercase name.now) (map (λ w. w.now) words.now) }
{
    for word in words {
        if same_word(name, word) {
            return true;
        }
    }
    false
}

/// A name that is none of the words, and what follows it.
fn named<'a>(alloc: Global, tokens: &'a [Token], words: &[&[u8]]) -> Parsed<'a, Name>
    ensures { Gives (λ x. (x.0, x.1.now)) result
        (token_at (named_in (map (λ w. w.now) words.now)) tokens.now) }
{
    match tokens {
        [first, rest @ ..] => match &first.kind {
            TokenKind::Name(name) if !is_one(name.as_slice(), words) => Ok((
                Name::from_slice(alloc, name.as_slice())?,
                rest,
            )),
            _ => Err(Halt::Syntax),
        },
        [] => Err(Halt::Syntax),
    }
}

/// An identifier, and what follows it.
pub(crate) fn identifier(alloc: Global, tokens: &[Token]) -> Parsed<'_, Name>
    ensures { Gives (λ x. (x.0, x.1.now)) result (identifier_at tokens.now) }
{
    named(alloc, tokens, &WORDS)
}
