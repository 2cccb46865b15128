//! Definitions.

ghost use Rattle.std.specs.Prelude.{◌≡◌, ◌≤◌, ◌<◌, ◌+◌};
ghost use Rattle.idl_read.specs.Reading.{Gives, before, many};
ghost use Rattle.idl_exprs.specs.Readers.{is_open};
ghost use Rattle.corba_syntax.specs.DefinitionReaders.{declared_at, module_at, definition_by, definition_at, outermost_at};

use crate::definition_tree::{Definition, Module};
use crate::interface;
use corba_decls::{Declaration, declaration};
use idl_exprs::Identifier;
use idl_lex::Token;
use idl_read::{Halt, Parsed, Production, begins, mark, stands_before, word};
use kit_base::Listed;
use std::alloc::Global;

/// A declaration within so many levels, and its `;`.
fn declared(alloc: Global, levels: u32, tokens: &[Token]) -> Parsed<'_, Declaration>
    requires { levels ≤ 32 }
    ensures { Gives (λ x. (x.0, x.1.now)) result (declared_at levels tokens.now) }
{
    let (item, rest) = declaration(alloc, levels, tokens)?;
    let rest = mark(rest, b";")?;
    Ok((item, rest))
}

/// As many definitions within so many levels as come before a `}`.
#[cycle(definition)]
fn definitions(alloc: Global, levels: u32, tokens: &[Token]) -> Parsed<'_, Listed<Definition>>
    requires { levels ≤ 32 }
    ensures { Gives (λ x. (x.0, x.1.now)) result (many is_open (definition_at levels) tokens.now) }
{
    let mut items = Listed::new(alloc);
    let mut rest = tokens;
    'items: for _ in 0..tokens.len() {
        if !stands_before(rest, b"}") {
            return Ok((items, rest));
        }
        match definition(alloc, levels, rest) {
            Ok((item, after)) => {
                items.push(item)?;
                rest = after;
            }
            Err(halt) => return Err(halt),
        }
    }
    Ok((items, rest))
}

/// A module, with so many levels below it.
#[cycle(definition)]
fn module(alloc: Global, below: u32, tokens: &[Token]) -> Parsed<'_, Module>
    requires { below < 32 }
    ensures { Gives (λ x. (x.0, x.1.now)) result (module_at (definition_at below) tokens.now) }
{
    let rest = word(tokens, b"module")?;
    let (name, rest) = Identifier::read(alloc, rest)?;
    let rest = mark(rest, b"{")?;
    let (definitions, rest) = definitions(alloc, below, rest)?;
    let rest = mark(rest, b"}")?;
    let rest = mark(rest, b";")?;
    Ok((Module { name, definitions }, rest))
}

/// A definition within so many levels and one more.
#[cycle(definition)]
fn above(alloc: Global, below: u32, tokens: &[Token]) -> Parsed<'_, Definition>
    requires { below < 32 }
    ensures { Gives (λ x. (x.0, x.1.now)) result
        (definition_by (definition_at below) (below + 1) tokens.now) }
{
    if begins(tokens, b"module") {
        let (item, rest) = module(alloc, below, tokens)?;
        return Ok((Definition::Module(item), rest));
    }
    if begins(tokens, b"interface") {
        let (item, rest) = interface(alloc, below + 1, tokens)?;
        return Ok((Definition::Interface(item), rest));
    }
    let (item, rest) = declared(alloc, below + 1, tokens)?;
    Ok((Definition::Declaration(item), rest))
}

/// A definition within so many levels.
#[cycle(definition)]
fn definition(alloc: Global, levels: u32, tokens: &[Token]) -> Parsed<'_, Definition>
    requires { levels ≤ 32 }
    ensures { Gives (λ x. (x.0, x.1.now)) result (definition_at levels tokens.now) }
{
    if levels == 0 {
        return Err(Halt::Syntax);
    }
    above(alloc, levels - 1, tokens)
}

/// A definition of a file.
#[tactic(auto, unfolding(crate::specs::DefinitionReaders::outermost_at))]
pub(crate) fn outermost(alloc: Global, tokens: &[Token]) -> Parsed<'_, Definition>
    ensures { Gives (λ x. (x.0, x.1.now)) result (outermost_at tokens.now) }
{
    definition(alloc, 32, tokens)
}
