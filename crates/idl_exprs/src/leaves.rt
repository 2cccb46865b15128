//! Literals, and the leaves of an expression.

ghost use Rattle.std.specs.Prelude.{◌≡◌};
ghost use Rattle.idl_read.specs.Reading.{Gives, begins_with, token_at};
ghost use Rattle.idl_exprs.specs.Readers.{is_literal, literal_in, leaf_at, leaf_by};

use crate::languages::Language;
use crate::names::scoped;
use crate::tree::Leaf;
use idl_lex::{Token, TokenKind};
use idl_read::{Halt, Parsed, is_word, number};
use kit_base::Octets;
use std::alloc::Global;

/// Whether a token is a literal.
fn is_literal(token: &Token) -> bool
    ensures { result ≡ is_literal token.now.kind }
{
    match &token.kind {
        TokenKind::Number(_) | TokenKind::Char(_) | TokenKind::Text(_) => true,
        TokenKind::Name(_) => is_word(token, b"TRUE") || is_word(token, b"FALSE"),
        _ => false,
    }
}

/// Whether a literal comes first.
fn begins_literal(tokens: &[Token]) -> bool
    ensures { result ≡ begins_with is_literal tokens.now }
{
    match tokens {
        [first, ..] => is_literal(first),
        [] => false,
    }
}

/// A literal.
fn literal(alloc: Global, tokens: &[Token]) -> Parsed<'_, Leaf>
    ensures { Gives (λ x. (x.0, x.1.now)) result (token_at literal_in tokens.now) }
{
    match tokens {
        [first, rest @ ..] => match &first.kind {
            TokenKind::Number(n) => Ok((Leaf::Number(*n), rest)),
            TokenKind::Char(code) => Ok((Leaf::Character(*code), rest)),
            TokenKind::Text(codes) => {
                let codes = Octets::from_slice(alloc, codes.as_slice())?;
                Ok((Leaf::Text(codes), rest))
            }
            TokenKind::Name(name) if name.as_slice() == b"TRUE".as_slice() => Ok((
                Leaf::Truth(true),
                rest,
            )),
            TokenKind::Name(name) if name.as_slice() == b"FALSE".as_slice() => Ok((
                Leaf::Truth(false),
                rest,
            )),
            _ => Err(Halt::Syntax),
        },
        [] => Err(Halt::Syntax),
    }
}

/// A literal or a name.
#[tactic(auto, unfolding(crate::specs::Readers::leaf_at))]
fn leaf(alloc: Global, tokens: &[Token]) -> Parsed<'_, Leaf>
    ensures { Gives (λ x. (x.0, x.1.now)) result (leaf_at tokens.now) }
{
    if begins_literal(tokens) {
        return literal(alloc, tokens);
    }
    let (name, rest) = scoped(alloc, tokens)?;
    Ok((Leaf::Name(name), rest))
}

/// A leaf of the language: a literal or a name, or a number alone.
pub(crate) fn leaf_by(alloc: Global, language: Language, tokens: &[Token]) -> Parsed<'_, Leaf>
    ensures { Gives (λ x. (x.0, x.1.now)) result (leaf_by language tokens.now) }
{
    match language {
        Language::Corba => leaf(alloc, tokens),
        Language::Mig => {
            let (n, rest) = number(tokens)?;
            Ok((Leaf::Number(n), rest))
        }
    }
}
