//! Definitions.

ghost use Rattle.std.specs.Prelude.{◌≡◌};
ghost use Rattle.idl_read.specs.Reading.{Gives};
ghost use Rattle.onc_syntax.specs.Readers.{const_at, def_at, ended_at};

use crate::declarations::decl;
use crate::programs::program;
use crate::structures::{enumeration, structure};
use crate::tree::{Def, Value};
use crate::types::{identifier, value};
use crate::unions::union;
use idl_lex::Token;
use idl_read::{Parsed, begins, mark, word};
use kit_base::Name;
use std::alloc::Global;

/// A constant, after its word.
#[tactic(auto, unfolding(crate::specs::Readers::const_at))]
fn constant(alloc: Global, tokens: &[Token]) -> Parsed<'_, (Name, Value)>
    ensures { Gives (λ x. ((x.0.0, x.0.1), x.1.now)) result (const_at tokens.now) }
{
    let (name, rest) = identifier(alloc, tokens)?;
    let rest = mark(rest, b"=")?;
    let (value, rest) = value(alloc, rest)?;
    Ok(((name, value), rest))
}

/// A definition without its end.
#[tactic(auto, unfolding(crate::specs::Readers::def_at))]
fn def(alloc: Global, tokens: &[Token]) -> Parsed<'_, Def>
    ensures { Gives (λ x. (x.0, x.1.now)) result (def_at tokens.now) }
{
    if begins(tokens, b"typedef") {
        let (declared, rest) = decl(alloc, word(tokens, b"typedef")?)?;
        return Ok((Def::Typedef(declared), rest));
    }
    if begins(tokens, b"const") {
        let ((name, value), rest) = constant(alloc, word(tokens, b"const")?)?;
        return Ok((Def::Const(name, value), rest));
    }
    if begins(tokens, b"program") {
        let (name, versions, number, rest) = program(alloc, word(tokens, b"program")?)?;
        return Ok((Def::Program(name, versions, number), rest));
    }
    if begins(tokens, b"enum") {
        let (name, items, rest) = enumeration(alloc, word(tokens, b"enum")?)?;
        return Ok((Def::Enum(name, items), rest));
    }
    if begins(tokens, b"struct") {
        let (name, members, rest) = structure(alloc, word(tokens, b"struct")?)?;
        return Ok((Def::Struct(name, members), rest));
    }
    let (choice, rest) = union(alloc, word(tokens, b"union")?)?;
    Ok((Def::Union(choice), rest))
}

/// A definition and its end.
#[tactic(auto, unfolding(crate::specs::Readers::ended_at))]
pub fn ended(alloc: Global, tokens: &[Token]) -> Parsed<'_, Def>
    ensures { Gives (λ x. (x.0, x.1.now)) result (ended_at tokens.now) }
{
    let (definition, rest) = def(alloc, tokens)?;
    let rest = mark(rest, b";")?;
    Ok((definition, rest))
}
