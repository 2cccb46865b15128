//! Declarations.

ghost use Rattle.std.specs.Prelude.{◌≡◌};
ghost use Rattle.idl_read.specs.Reading.{Gives};
ghost use Rattle.onc_syntax.specs.Readers.{exactly_at, at_most_at, decl_at};

use crate::tree::{Decl, Value};
use crate::types::{identifier, type_name, value};
use idl_lex::Token;
use idl_read::{Parsed, begins, begins_mark, mark, stands_before, word};
use std::alloc::Global;

/// A count in brackets.
#[tactic(auto, unfolding(crate::specs::Readers::exactly_at))]
fn exactly(alloc: Global, tokens: &[Token]) -> Parsed<'_, Value>
    ensures { Gives (λ x. (x.0, x.1.now)) result (exactly_at tokens.now) }
{
    let rest = mark(tokens, b"[")?;
    let (count, rest) = value(alloc, rest)?;
    let rest = mark(rest, b"]")?;
    Ok((count, rest))
}

/// A greatest count, if there is one, between `<` and `>`.
#[tactic(auto, unfolding(crate::specs::Readers::at_most_at))]
fn at_most(alloc: Global, tokens: &[Token]) -> Parsed<'_, Option<Value>>
    ensures { Gives (λ x. (x.0, x.1.now)) result (at_most_at tokens.now) }
{
    let rest = mark(tokens, b"<")?;
    if stands_before(rest, b">") {
        let (most, rest) = value(alloc, rest)?;
        let rest = mark(rest, b">")?;
        return Ok((Some(most), rest));
    }
    let rest = mark(rest, b">")?;
    Ok((None, rest))
}

/// A declaration of a name.
#[tactic(auto, unfolding(crate::specs::Readers::decl_at))]
pub fn decl(alloc: Global, tokens: &[Token]) -> Parsed<'_, Decl>
    ensures { Gives (λ x. (x.0, x.1.now)) result (decl_at tokens.now) }
{
    if begins(tokens, b"opaque") {
        let rest = word(tokens, b"opaque")?;
        let (name, rest) = identifier(alloc, rest)?;
        if begins_mark(rest, b"[") {
            let (count, rest) = exactly(alloc, rest)?;
            return Ok((Decl::OpaqueArray(name, count), rest));
        }
        let (most, rest) = at_most(alloc, rest)?;
        return Ok((Decl::OpaqueList(name, most), rest));
    }
    if begins(tokens, b"string") {
        let rest = word(tokens, b"string")?;
        let (name, rest) = identifier(alloc, rest)?;
        let (most, rest) = at_most(alloc, rest)?;
        return Ok((Decl::Text(name, most), rest));
    }
    let (of, rest) = type_name(alloc, tokens)?;
    if begins_mark(rest, b"*") {
        let rest = mark(rest, b"*")?;
        let (name, rest) = identifier(alloc, rest)?;
        return Ok((Decl::Pointer(of, name), rest));
    }
    let (name, rest) = identifier(alloc, rest)?;
    if begins_mark(rest, b"[") {
        let (count, rest) = exactly(alloc, rest)?;
        return Ok((Decl::Array(of, name, count), rest));
    }
    if begins_mark(rest, b"<") {
        let (most, rest) = at_most(alloc, rest)?;
        return Ok((Decl::List(of, name, most), rest));
    }
    Ok((Decl::Plain(of, name), rest))
}
