//! Types of one word.

ghost use Rattle.std.specs.Prelude.{◌≡◌, IfErr};
ghost use Rattle.idl_read.specs.Reading.{Gives, begins_with, token_at};
ghost use Rattle.corba_decls.specs.TypeReaders.{simple_in, is_simple, is_long_double, close_in};

use crate::type_tree::Simple;
use idl_lex::Token;
use idl_read::{Halt, Parsed, begins, begins_word_of, is_mark, is_word, word_of};

/// The types of one word.
const SIMPLE: [(&[u8], Simple); 9] = [
    (b"char", Simple::Char),
    (b"boolean", Simple::Boolean),
    (b"octet", Simple::Octet),
    (b"float", Simple::Float),
    (b"double", Simple::Double),
    (b"wchar", Simple::Wchar),
    (b"wstring", Simple::Wstring),
    (b"any", Simple::Any),
    (b"Object", Simple::Object),
];

/// Whether a type of one word comes first.
pub(crate) fn begins_simple(tokens: &[Token]) -> bool
    ensures { result ≡ begins_with is_simple tokens.now }
{
    begins_word_of(tokens, &SIMPLE)
}

/// A type of one word.
pub(crate) fn simple(tokens: &[Token]) -> Parsed<'_, Simple>
    ensures read { Gives (λ x. (x.0, x.1.now)) result (token_at simple_in tokens.now) }
    ensures fault { IfErr result (λ e. e ≡ Halt.Syntax) }
{
    word_of(tokens, &SIMPLE)
}

/// Whether `long double` comes first.
pub(crate) fn begins_long_double(tokens: &[Token]) -> bool
    ensures { result ≡ is_long_double tokens.now }
{
    match tokens {
        [first, rest @ ..] => is_word(first, b"long") && begins(rest, b"double"),
        [] => false,
    }
}

/// The mark that ends a string or a sequence, and whether it ends the sequence around it too.
pub(crate) fn close(tokens: &[Token]) -> Parsed<'_, bool>
    ensures read { Gives (λ x. (x.0, x.1.now)) result (token_at close_in tokens.now) }
    ensures fault { IfErr result (λ e. e ≡ Halt.Syntax) }
{
    match tokens {
        [first, rest @ ..] if is_mark(first, b">") => Ok((false, rest)),
        [first, rest @ ..] if is_mark(first, b">>") => Ok((true, rest)),
        _ => Err(Halt::Syntax),
    }
}
