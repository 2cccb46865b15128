//! Parts that may be missing.

ghost use Rattle.std.specs.Prelude.{◌≡◌, Some};
ghost use Rattle.idl_read.specs.Reading.{word_is, flag_at};

use idl_lex::Token;
use idl_read::is_word;

/// Whether the word comes first, and the tokens after it; all the tokens where it does not.
pub(crate) fn word_flag<'a>(tokens: &'a [Token], word: &[u8]) -> (bool, &'a [Token])
    ensures { flag_at (word_is word.now) tokens.now ≡ Some (result.0, result.1.now) }
{
    match tokens {
        [first, rest @ ..] if is_word(first, word) => (true, rest),
        _ => (false, tokens),
    }
}
