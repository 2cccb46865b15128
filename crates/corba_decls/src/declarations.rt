//! Typedefs, constants and declarations.

ghost use Rattle.std.specs.Prelude.{◌≡◌, ◌≤◌};
ghost use Rattle.idl_read.specs.Reading.{Gives, begins_with};
ghost use Rattle.corba_decls.specs.DeclReaders.{aliased_at, typedef_at, constant_at, declared_at, is_declaration, declaration_at};

use crate::decl_tree::{Aliased, Constant, Declaration, Typedef};
use crate::tags::constant_type;
use crate::unions::union;
use crate::{Declarator, enumeration, exception, structure, type_name};
use idl_exprs::{Identifier, expression};
use idl_lex::Token;
use idl_read::{Halt, Parsed, Production, begins, is_word, joined_nested, mark, word};
use std::alloc::Global;

/// What a typedef gives names to.
#[tactic(auto, unfolding(crate::specs::DeclReaders::aliased_at))]
fn aliased(alloc: Global, levels: u32, tokens: &[Token]) -> Parsed<'_, Aliased>
    requires { levels ≤ 32 }
    ensures { Gives (λ x. (x.0, x.1.now)) result (aliased_at levels tokens.now) }
{
    if begins(tokens, b"struct") {
        let (of, rest) = structure(alloc, levels, tokens)?;
        return Ok((Aliased::Struct(of), rest));
    }
    if begins(tokens, b"union") {
        let (of, rest) = union(alloc, levels, tokens)?;
        return Ok((Aliased::Union(of), rest));
    }
    if begins(tokens, b"enum") {
        let (of, rest) = enumeration(alloc, tokens)?;
        return Ok((Aliased::Enum(of), rest));
    }
    let (of, rest) = type_name(alloc, levels, tokens)?;
    Ok((Aliased::Type(of), rest))
}

/// A typedef within so many levels.
#[tactic(auto, unfolding(crate::specs::DeclReaders::typedef_at))]
fn typedef(alloc: Global, levels: u32, tokens: &[Token]) -> Parsed<'_, Typedef>
    requires { levels ≤ 32 }
    ensures { Gives (λ x. (x.0, x.1.now)) result (typedef_at levels tokens.now) }
{
    let rest = word(tokens, b"typedef")?;
    let (of, rest) = aliased(alloc, levels, rest)?;
    let (declarators, rest) = joined_nested::<Declarator>(alloc, levels, rest, b",")?;
    Ok((Typedef { of, declarators }, rest))
}

/// A constant within so many levels.
#[tactic(auto, unfolding(crate::specs::DeclReaders::constant_at))]
fn constant(alloc: Global, levels: u32, tokens: &[Token]) -> Parsed<'_, Constant>
    requires { levels ≤ 32 }
    ensures { Gives (λ x. (x.0, x.1.now)) result (constant_at levels tokens.now) }
{
    let rest = word(tokens, b"const")?;
    let (of, rest) = constant_type(alloc, rest)?;
    let (name, rest) = Identifier::read(alloc, rest)?;
    let rest = mark(rest, b"=")?;
    let (value, rest) = expression(alloc, levels, false, rest)?;
    Ok((Constant { of, name, value }, rest))
}

/// A declaration, where it has a level.
#[tactic(auto, unfolding(crate::specs::DeclReaders::declared_at))]
fn declared(alloc: Global, levels: u32, tokens: &[Token]) -> Parsed<'_, Declaration>
    requires { levels ≤ 32 }
    ensures { Gives (λ x. (x.0, x.1.now)) result (declared_at levels tokens.now) }
{
    if begins(tokens, b"typedef") {
        let (item, rest) = typedef(alloc, levels, tokens)?;
        return Ok((Declaration::Typedef(item), rest));
    }
    if begins(tokens, b"struct") {
        let (item, rest) = structure(alloc, levels, tokens)?;
        return Ok((Declaration::Struct(item), rest));
    }
    if begins(tokens, b"union") {
        let (item, rest) = union(alloc, levels, tokens)?;
        return Ok((Declaration::Union(item), rest));
    }
    if begins(tokens, b"enum") {
        let (item, rest) = enumeration(alloc, tokens)?;
        return Ok((Declaration::Enum(item), rest));
    }
    if begins(tokens, b"const") {
        let (item, rest) = constant(alloc, levels, tokens)?;
        return Ok((Declaration::Constant(item), rest));
    }
    let (item, rest) = exception(alloc, levels, tokens)?;
    Ok((Declaration::Exception(item), rest))
}

/// Whether a word comes first that begins a declaration.
pub fn begins_declaration(tokens: &[Token]) -> bool
    ensures { result ≡ begins_with is_declaration tokens.now }
{
    match tokens {
        [first, ..] => {
            is_word(first, b"typedef")
                || is_word(first, b"struct")
                || is_word(first, b"union")
                || is_word(first, b"enum")
                || is_word(first, b"const")
                || is_word(first, b"exception")
        }
        [] => false,
    }
}

/// A declaration (`<type_dcl>`, `<const_dcl>`, `<except_dcl>`) within so many levels, and the
/// tokens after it: it does not take the `;` that ends it.
pub fn declaration(alloc: Global, levels: u32, tokens: &[Token]) -> Parsed<'_, Declaration>
    requires { levels ≤ 32 }
    ensures { Gives (λ x. (x.0, x.1.now)) result (declaration_at levels tokens.now) }
{
    if levels == 0 {
        return Err(Halt::Syntax);
    }
    declared(alloc, levels, tokens)
}
