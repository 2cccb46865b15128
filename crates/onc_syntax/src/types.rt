//! Names, values and types.

ghost use Rattle.std.specs.Prelude.{◌≡◌};
ghost use Rattle.idl_read.specs.Reading.{Gives, begins_with};
ghost use Rattle.onc_syntax.specs.Readers.{is_name, name_at, value_at, type_at};

use crate::tree::{IntWord, Prefix, TypeName, Value};
use idl_lex::Token;
use idl_read::{Parsed, begins, begins_id, begins_word_of, flag, id, number, word, word_of};
use kit_base::Name;
use std::alloc::Global;

/// The words of the grammar, which are not names.
const WORDS: [&[u8]; 20] = [
    b"typedef",
    b"const",
    b"program",
    b"version",
    b"enum",
    b"struct",
    b"union",
    b"switch",
    b"case",
    b"default",
    b"void",
    b"opaque",
    b"string",
    b"unsigned",
    b"int",
    b"long",
    b"short",
    b"char",
    b"hyper",
    b"bool",
];

/// The words for kinds of numbers.
const INTS: [(&[u8], IntWord); 5] = [
    (b"int", IntWord::Int),
    (b"long", IntWord::Long),
    (b"short", IntWord::Short),
    (b"char", IntWord::Char),
    (b"hyper", IntWord::Hyper),
];

/// The words that may come before a type's name.
const PREFIXES: [(&[u8], Prefix); 3] = [
    (b"struct", Prefix::Struct),
    (b"union", Prefix::Union),
    (b"enum", Prefix::Enum),
];

/// A name that is not a word.
pub fn identifier(alloc: Global, tokens: &[Token]) -> Parsed<'_, Name>
    ensures { Gives (λ x. (x.0, x.1.now)) result (name_at tokens.now) }
{
    id(alloc, tokens, &WORDS)
}

/// Whether a name comes first.
fn begins_name(tokens: &[Token]) -> bool
    ensures { result ≡ begins_with is_name tokens.now }
{
    begins_id(tokens, &WORDS)
}

/// A number or a name.
#[tactic(auto, unfolding(crate::specs::Readers::value_at))]
pub fn value(alloc: Global, tokens: &[Token]) -> Parsed<'_, Value>
    ensures { Gives (λ x. (x.0, x.1.now)) result (value_at tokens.now) }
{
    if begins_name(tokens) {
        let (name, rest) = identifier(alloc, tokens)?;
        return Ok((Value::Name(name), rest));
    }
    let (minus, rest) = flag(tokens, b"-");
    let (number, rest) = number(rest)?;
    Ok((Value::Number(minus, number), rest))
}

/// A type.
#[tactic(auto, unfolding(crate::specs::Readers::type_at))]
pub fn type_name(alloc: Global, tokens: &[Token]) -> Parsed<'_, TypeName>
    ensures { Gives (λ x. (x.0, x.1.now)) result (type_at tokens.now) }
{
    if begins(tokens, b"unsigned") {
        let rest = word(tokens, b"unsigned")?;
        if begins_word_of(rest, &INTS) {
            let (int, rest) = word_of(rest, &INTS)?;
            return Ok((TypeName::Int(true, int), rest));
        }
        return Ok((TypeName::Unsigned, rest));
    }
    if begins_word_of(tokens, &INTS) {
        let (int, rest) = word_of(tokens, &INTS)?;
        return Ok((TypeName::Int(false, int), rest));
    }
    if begins(tokens, b"bool") {
        let rest = word(tokens, b"bool")?;
        return Ok((TypeName::Bool, rest));
    }
    if begins_word_of(tokens, &PREFIXES) {
        let (before, rest) = word_of(tokens, &PREFIXES)?;
        let (name, rest) = identifier(alloc, rest)?;
        return Ok((TypeName::Named(Some(before), name), rest));
    }
    let (name, rest) = identifier(alloc, tokens)?;
    Ok((TypeName::Named(None, name), rest))
}
