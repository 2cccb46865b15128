//! The types of discriminators and of constants.

ghost use Rattle.std.specs.Prelude.{◌≡◌};
ghost use Rattle.idl_read.specs.Reading.{Gives};
ghost use Rattle.corba_decls.specs.DeclReaders.{tag_type_at, tag_at, constant_type_at};

use crate::decl_tree::{ConstantType, Tag};
use crate::{begins_int, int};
use idl_exprs::scoped;
use idl_lex::Token;
use idl_read::{Halt, Parsed, begins, word};
use std::alloc::Global;

/// The type of a discriminator.
#[tactic(auto, unfolding(crate::specs::DeclReaders::tag_type_at))]
fn tag_type(alloc: Global, tokens: &[Token]) -> Parsed<'_, Tag>
    ensures { Gives (λ x. (x.0, x.1.now)) result (tag_type_at tokens.now) }
{
    if begins(tokens, b"char") {
        let rest = word(tokens, b"char")?;
        return Ok((Tag::Char, rest));
    }
    if begins(tokens, b"boolean") {
        let rest = word(tokens, b"boolean")?;
        return Ok((Tag::Boolean, rest));
    }
    if begins_int(tokens) {
        let (int, rest) = int(tokens)?;
        return Ok((Tag::Int(int), rest));
    }
    let (name, rest) = scoped(alloc, tokens)?;
    Ok((Tag::Named(name), rest))
}

/// The type of a discriminator, where it has a level.
pub(crate) fn tag(alloc: Global, levels: u32, tokens: &[Token]) -> Parsed<'_, Tag>
    ensures { Gives (λ x. (x.0, x.1.now)) result (tag_at levels tokens.now) }
{
    if levels == 0 {
        return Err(Halt::Syntax);
    }
    tag_type(alloc, tokens)
}

/// The type of a constant.
#[tactic(auto, unfolding(crate::specs::DeclReaders::constant_type_at))]
pub(crate) fn constant_type(alloc: Global, tokens: &[Token]) -> Parsed<'_, ConstantType>
    ensures { Gives (λ x. (x.0, x.1.now)) result (constant_type_at tokens.now) }
{
    if begins(tokens, b"char") {
        let rest = word(tokens, b"char")?;
        return Ok((ConstantType::Char, rest));
    }
    if begins(tokens, b"boolean") {
        let rest = word(tokens, b"boolean")?;
        return Ok((ConstantType::Boolean, rest));
    }
    if begins(tokens, b"octet") {
        let rest = word(tokens, b"octet")?;
        return Ok((ConstantType::Octet, rest));
    }
    if begins(tokens, b"string") {
        let rest = word(tokens, b"string")?;
        return Ok((ConstantType::Text, rest));
    }
    if begins_int(tokens) {
        let (int, rest) = int(tokens)?;
        return Ok((ConstantType::Int(int), rest));
    }
    let (name, rest) = scoped(alloc, tokens)?;
    Ok((ConstantType::Named(name), rest))
}
