//! Identifiers and scoped names.

ghost use Rattle.std.specs.Prelude.{◌≡◌, IfOk};
ghost use Rattle.idl_read.specs.Reading.{Gives, begins_with};
ghost use Rattle.idl_exprs.specs.Words.{plain};
ghost use Rattle.idl_exprs.specs.Readers.{is_identifier, scoped_at};

use crate::tree::{Identifier, ScopedName};
use idl_lex::Token;
use idl_read::{Parsed, Production, begins_id, flag, id, joined};
use kit_base::{Name, NoMemory};
use std::alloc::Global;

/// The words of the grammar, which are not identifiers.
const WORDS: [&[u8]; 35] = [
    b"module",
    b"interface",
    b"typedef",
    b"struct",
    b"union",
    b"switch",
    b"case",
    b"default",
    b"enum",
    b"const",
    b"exception",
    b"readonly",
    b"attribute",
    b"oneway",
    b"void",
    b"raises",
    b"in",
    b"out",
    b"inout",
    b"unsigned",
    b"short",
    b"long",
    b"char",
    b"boolean",
    b"octet",
    b"string",
    b"sequence",
    b"float",
    b"double",
    b"wchar",
    b"wstring",
    b"any",
    b"Object",
    b"TRUE",
    b"FALSE",
];

/// Whether an identifier comes first.
pub fn begins_identifier(tokens: &[Token]) -> bool
    ensures { result ≡ begins_with is_identifier tokens.now }
{
    begins_id(tokens, &WORDS)
}

/// A name without the `_` that may come first.
fn plain(alloc: Global, name: Name) -> Result<Name, NoMemory>
    ensures { IfOk result (λ it. it ≡ plain name) }
{
    match name.as_slice() {
        [b'_', rest @ ..] => Name::from_slice(alloc, rest),
        _ => Ok(name),
    }
}

impl Production for Identifier {
    ghost use Rattle.idl_exprs.specs.Readers.{identifier_at};

    ghost at = { identifier_at };

    #[tactic(auto, unfolding(crate::specs::Readers::identifier_at))]
    fn read(alloc: Global, tokens: &[Token]) -> Parsed<'_, Self> {
        let (name, rest) = id(alloc, tokens, &WORDS)?;
        let name = plain(alloc, name)?;
        Ok((Identifier { name }, rest))
    }
}

/// A scoped name (`<scoped_name>`), and the tokens after it.
#[tactic(auto, unfolding(crate::specs::Readers::scoped_at))]
pub fn scoped(alloc: Global, tokens: &[Token]) -> Parsed<'_, ScopedName>
    ensures { Gives (λ x. (x.0, x.1.now)) result (scoped_at tokens.now) }
{
    let (absolute, rest) = flag(tokens, b"::");
    let (parts, rest) = joined::<Identifier>(alloc, rest, b"::")?;
    Ok((ScopedName { absolute, parts }, rest))
}
