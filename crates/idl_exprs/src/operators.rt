//! Operators, and what follows a whole type.

ghost use Rattle.std.specs.Prelude.{◌≡◌, drop, IfErr};
ghost use Rattle.idl_read.specs.Reading.{Gives, begins_with, token_at};
ghost use Rattle.idl_exprs.specs.Spelling.{looseness};
ghost use Rattle.idl_exprs.specs.Readers.{unary_in, begins_sign, binary_in, is_joint, closes, operator_at};

use crate::languages::{Language, has, has_signs};
use crate::names::begins_identifier;
use idl_const::{BinaryOp, UnaryOp};
use idl_lex::{Token, TokenKind};
use idl_read::{Halt, Parsed, is_mark};

/// The operator before an operand that a token is.
fn unary_of(token: &Token) -> Option<UnaryOp>
    ensures { result ≡ unary_in token.now.kind }
{
    match &token.kind {
        TokenKind::Mark(mark) => match mark.as_slice() {
            b"-" => Some(UnaryOp::Minus),
            b"+" => Some(UnaryOp::Plus),
            _ => None,
        },
        _ => None,
    }
}

/// Whether an operator before an operand comes first, where the language has such.
pub(crate) fn begins_sign(language: Language, tokens: &[Token]) -> bool
    ensures { result ≡ begins_sign language tokens.now }
{
    match tokens {
        [first, ..] => has_signs(language) && unary_of(first).is_some(),
        [] => false,
    }
}

/// An operator before an operand.
pub(crate) fn unary(tokens: &[Token]) -> Parsed<'_, UnaryOp>
    ensures read { Gives (λ x. (x.0, x.1.now)) result (token_at unary_in tokens.now) }
    ensures fault { IfErr result (λ e. e ≡ Halt.Syntax) }
{
    match tokens {
        [first, rest @ ..] => match unary_of(first) {
            Some(op) => Ok((op, rest)),
            None => Err(Halt::Syntax),
        },
        [] => Err(Halt::Syntax),
    }
}

/// The operator between operands that a token is.
fn binary(token: &Token) -> Option<BinaryOp>
    ensures { result ≡ binary_in token.now.kind }
{
    match &token.kind {
        TokenKind::Mark(mark) => match mark.as_slice() {
            b"|" => Some(BinaryOp::Or),
            b"^" => Some(BinaryOp::Xor),
            b"&" => Some(BinaryOp::And),
            b"<<" => Some(BinaryOp::Left),
            b">>" => Some(BinaryOp::Right),
            b"+" => Some(BinaryOp::Add),
            b"-" => Some(BinaryOp::Sub),
            b"*" => Some(BinaryOp::Mul),
            b"/" => Some(BinaryOp::Div),
            b"%" => Some(BinaryOp::Rem),
            _ => None,
        },
        _ => None,
    }
}

/// How loosely an operator binds its operands, from 0 for `*` to 5 for `|`.
fn looseness(op: BinaryOp) -> u32
    ensures { result ≡ looseness op }
{
    match op {
        BinaryOp::Or => 5,
        BinaryOp::Xor => 4,
        BinaryOp::And => 3,
        BinaryOp::Left | BinaryOp::Right => 2,
        BinaryOp::Add | BinaryOp::Sub => 1,
        BinaryOp::Mul | BinaryOp::Div | BinaryOp::Rem => 0,
    }
}

/// Whether a token comes first that goes on with an expression, or ends one between `<` and `>`.
fn begins_joint(tokens: &[Token]) -> bool
    ensures { result ≡ begins_with is_joint tokens.now }
{
    match tokens {
        [first, ..] => binary(first).is_some() || is_mark(first, b"::") || is_mark(first, b">"),
        [] => false,
    }
}

/// Whether the tokens follow a whole type: `,`, `>` or `>>` comes first, or an identifier with which no
/// expression goes on.
pub fn closes(tokens: &[Token]) -> bool
    ensures { result ≡ closes tokens.now }
{
    match tokens {
        [first, rest @ ..] => {
            is_mark(first, b",")
                || is_mark(first, b">")
                || is_mark(first, b">>")
                || begins_identifier(tokens) && !begins_joint(rest)
        }
        [] => false,
    }
}

/// The operator of the language that comes first, where it binds so loosely. Between `<` and `>` a `>>` after which a
/// type is whole is not one.
pub(crate) fn operator(
    language: Language,
    angle: bool,
    loose: u32,
    tokens: &[Token],
) -> Option<BinaryOp>
    ensures { result ≡ operator_at language angle loose tokens.now }
{
    let [first, rest @ ..] = tokens else {
        return None;
    };
    let op = binary(first)?;
    if !has(language, op) || looseness(op) != loose {
        return None;
    }
    if angle && matches!(op, BinaryOp::Right) && closes(rest) {
        return None;
    }
    Some(op)
}

/// What follows the first token.
pub(crate) fn past(tokens: &[Token]) -> &[Token]
    ensures { result.now ≡ drop 1 tokens.now }
{
    match tokens {
        [_, rest @ ..] => rest,
        [] => tokens,
    }
}
