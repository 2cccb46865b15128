//! The first token of some tokens.

ghost use Rattle.std.specs.Prelude.{◌≡◌, map, Some, IfErr};
ghost use Rattle.idl_read.specs.Reading.{Gives, begins_with, begins_other, word_is, mark_is, word_at, mark_at, number_at, is_in, id_at, is_id, flag_at, word_in, has_word, token_at};

use crate::{Halt, Parsed};
use idl_lex::{Token, TokenKind};
use kit_base::Name;
use std::alloc::Global;

/// Whether the token is this word.
pub fn is_word(token: &Token, word: &[u8]) -> bool
    ensures { result ≡ word_is word.now token.now.kind }
{
    match &token.kind {
        TokenKind::Name(name) => name.as_slice() == word,
        _ => false,
    }
}

/// Whether the token is this mark.
pub fn is_mark(token: &Token, mark: &[u8]) -> bool
    ensures { result ≡ mark_is mark.now token.now.kind }
{
    match &token.kind {
        TokenKind::Mark(octets) => octets.as_slice() == mark,
        _ => false,
    }
}

/// Whether the first token is this word.
pub fn begins(tokens: &[Token], word: &[u8]) -> bool
    ensures { result ≡ begins_with (word_is word.now) tokens.now }
{
    match tokens {
        [first, ..] => is_word(first, word),
        [] => false,
    }
}

/// Whether the first token is this mark.
pub fn begins_mark(tokens: &[Token], mark: &[u8]) -> bool
    ensures { result ≡ begins_with (mark_is mark.now) tokens.now }
{
    match tokens {
        [first, ..] => is_mark(first, mark),
        [] => false,
    }
}

/// Whether another token than this mark comes first.
pub fn stands_before(tokens: &[Token], mark: &[u8]) -> bool
    ensures { result ≡ begins_other (mark_is mark.now) tokens.now }
{
    match tokens {
        [first, ..] => !is_mark(first, mark),
        [] => false,
    }
}

/// What follows the word.
pub fn word<'a>(tokens: &'a [Token], word: &[u8]) -> Result<&'a [Token], Halt>
    ensures read { Gives (λ x. (tt, x.now)) result (word_at word.now tokens.now) }
    ensures fault { IfErr result (λ e. e ≡ Halt.Syntax) }
{
    match tokens {
        [first, rest @ ..] if is_word(first, word) => Ok(rest),
        _ => Err(Halt::Syntax),
    }
}

/// What follows the mark.
pub fn mark<'a>(tokens: &'a [Token], mark: &[u8]) -> Result<&'a [Token], Halt>
    ensures read { Gives (λ x. (tt, x.now)) result (mark_at mark.now tokens.now) }
    ensures fault { IfErr result (λ e. e ≡ Halt.Syntax) }
{
    match tokens {
        [first, rest @ ..] if is_mark(first, mark) => Ok(rest),
        _ => Err(Halt::Syntax),
    }
}

/// The number, and what follows it.
pub fn number(tokens: &[Token]) -> Parsed<'_, i128>
    ensures read { Gives (λ x. (x.0, x.1.now)) result (number_at tokens.now) }
    ensures fault { IfErr result (λ e. e ≡ Halt.Syntax) }
{
    match tokens {
        [
            Token {
                kind: TokenKind::Number(n),
                line: _,
            },
            rest @ ..,
        ] => Ok((*n, rest)),
        _ => Err(Halt::Syntax),
    }
}

/// Whether the name is one of the words.
fn is_one(name: &[u8], words: &[&[u8]]) -> bool
    ensures { result ≡ is_in name.now (map (λ w. w.now) words.now) }
{
    for word in words {
        if name == *word {
            return true;
        }
    }
    false
}

/// A name that is none of the words, and what follows it.
pub fn id<'a>(alloc: Global, tokens: &'a [Token], words: &[&[u8]]) -> Parsed<'a, Name>
    ensures { Gives (λ x. (x.0, x.1.now)) result (id_at (map (λ w. w.now) words.now) tokens.now) }
{
    match tokens {
        [first, rest @ ..] => match &first.kind {
            TokenKind::Name(name) if !is_one(name.as_slice(), words) => Ok((
                Name::from_slice(alloc, name.as_slice())?,
                rest,
            )),
            _ => Err(Halt::Syntax),
        },
        [] => Err(Halt::Syntax),
    }
}

/// Whether the mark comes first, and what follows it if it does.
pub fn flag<'a>(tokens: &'a [Token], mark: &[u8]) -> (bool, &'a [Token])
    ensures { flag_at (mark_is mark.now) tokens.now ≡ Some (result.0, result.1.now) }
{
    match tokens {
        [first, rest @ ..] if is_mark(first, mark) => (true, rest),
        _ => (false, tokens),
    }
}

/// Whether a name that is none of the words comes first.
pub fn begins_id(tokens: &[Token], words: &[&[u8]]) -> bool
    ensures { result ≡ begins_with (is_id (map (λ w. w.now) words.now)) tokens.now }
{
    match tokens {
        [first, ..] => match &first.kind {
            TokenKind::Name(name) => !is_one(name.as_slice(), words),
            _ => false,
        },
        [] => false,
    }
}

/// What the token stands for in a table of words.
fn meaning<T: Copy>(token: &Token, table: &[(&[u8], T)]) -> Option<T>
    ensures { result ≡ word_in (map (λ e. (e.0.now, e.1)) table.now) token.now.kind }
{
    for (word, meaning) in table {
        if is_word(token, word) {
            return Some(*meaning);
        }
    }
    None
}

/// Whether a word of the table comes first.
pub fn begins_word_of<T: Copy>(tokens: &[Token], table: &[(&[u8], T)]) -> bool
    ensures { result ≡ begins_with (has_word (map (λ e. (e.0.now, e.1)) table.now)) tokens.now }
{
    match tokens {
        [first, ..] => meaning(first, table).is_some(),
        [] => false,
    }
}

/// What a word of the table stands for, and what follows it.
pub fn word_of<'a, T: Copy>(tokens: &'a [Token], table: &[(&[u8], T)]) -> Parsed<'a, T>
    ensures read { Gives (λ x. (x.0, x.1.now)) result
        (token_at (word_in (map (λ e. (e.0.now, e.1)) table.now)) tokens.now) }
    ensures fault { IfErr result (λ e. e ≡ Halt.Syntax) }
{
    match tokens {
        [first, rest @ ..] => match meaning(first, table) {
            Some(meaning) => Ok((meaning, rest)),
            None => Err(Halt::Syntax),
        },
        [] => Err(Halt::Syntax),
    }
}
