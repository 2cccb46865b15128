//! Attributes.

ghost use Rattle.std.specs.Prelude.{◌≡◌, ◌≤◌};
ghost use Rattle.idl_read.specs.Reading.{Gives, begins_with};
ghost use Rattle.corba_syntax.specs.OperationReaders.{is_attribute, attribute_at};

use crate::operation_tree::Attribute;
use crate::optional::word_flag;
use corba_decls::type_name;
use idl_exprs::Identifier;
use idl_lex::Token;
use idl_read::{Parsed, is_word, joined, word};
use std::alloc::Global;

/// Whether a word comes first that begins attributes.
pub fn begins_attribute(tokens: &[Token]) -> bool
    ensures { result ≡ begins_with is_attribute tokens.now }
{
    match tokens {
        [first, ..] => is_word(first, b"readonly") || is_word(first, b"attribute"),
        [] => false,
    }
}

/// Attributes of one type (`<attr_dcl>`) within so many levels, and the tokens after them.
#[tactic(auto, unfolding(crate::specs::OperationReaders::attribute_at))]
pub fn attribute(alloc: Global, levels: u32, tokens: &[Token]) -> Parsed<'_, Attribute>
    requires { levels ≤ 32 }
    ensures { Gives (λ x. (x.0, x.1.now)) result (attribute_at levels tokens.now) }
{
    let (readonly, rest) = word_flag(tokens, b"readonly");
    let rest = word(rest, b"attribute")?;
    let (of, rest) = type_name(alloc, levels, rest)?;
    let (names, rest) = joined::<Identifier>(alloc, rest, b",")?;
    Ok((
        Attribute {
            readonly,
            of,
            names,
        },
        rest,
    ))
}
