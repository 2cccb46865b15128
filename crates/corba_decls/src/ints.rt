//! Integer types.

ghost use Rattle.std.specs.Prelude.{◌≡◌, IfErr};
ghost use Rattle.idl_read.specs.Reading.{Gives, begins_with};
ghost use Rattle.corba_decls.specs.TypeReaders.{is_int, size_at, int_at};

use crate::type_tree::{Int, IntSize};
use idl_lex::Token;
use idl_read::{Halt, Parsed, begins, is_word, word};

/// Whether a word comes first that begins an integer type.
pub fn begins_int(tokens: &[Token]) -> bool
    ensures { result ≡ begins_with is_int tokens.now }
{
    match tokens {
        [first, ..] => {
            is_word(first, b"unsigned") || is_word(first, b"short") || is_word(first, b"long")
        }
        [] => false,
    }
}

/// The size of an integer type.
fn size(tokens: &[Token]) -> Parsed<'_, IntSize>
    ensures read { Gives (λ x. (x.0, x.1.now)) result (size_at tokens.now) }
    ensures fault { IfErr result (λ e. e ≡ Halt.Syntax) }
{
    if begins(tokens, b"short") {
        let rest = word(tokens, b"short")?;
        return Ok((IntSize::Short, rest));
    }
    let rest = word(tokens, b"long")?;
    if begins(rest, b"long") {
        let rest = word(rest, b"long")?;
        return Ok((IntSize::LongLong, rest));
    }
    Ok((IntSize::Long, rest))
}

/// An integer type.
#[tactic(auto, unfolding(crate::specs::TypeReaders::int_at))]
pub fn int(tokens: &[Token]) -> Parsed<'_, Int>
    ensures read { Gives (λ x. (x.0, x.1.now)) result (int_at tokens.now) }
    ensures fault { IfErr result (λ e. e ≡ Halt.Syntax) }
{
    if begins(tokens, b"unsigned") {
        let rest = word(tokens, b"unsigned")?;
        let (size, rest) = size(rest)?;
        return Ok((
            Int {
                unsigned: true,
                size,
            },
            rest,
        ));
    }
    let (size, rest) = size(tokens)?;
    Ok((
        Int {
            unsigned: false,
            size,
        },
        rest,
    ))
}
