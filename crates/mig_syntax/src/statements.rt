//! Statements, and the heading of a file.

ghost use Rattle.std.specs.Prelude.{◌≡◌};
ghost use Rattle.idl_read.specs.Reading.{Gives, token_at};
ghost use Rattle.mig_syntax.specs.StatementReaders.{file_in, definition_at, prefix_at, import_at, body_at, statement_at, heading_at};

use crate::routines::{begins_routine, routine};
use crate::tree::{Importer, Side, Statement, TypeForm};
use crate::types::type_form;
use crate::words::{begins_like, begins_like_of, identifier, like, like_of};
use idl_exprs::{Expr, mig_expression};
use idl_lex::{Token, TokenKind};
use idl_read::{Halt, Parsed, mark};
use kit_base::{Name, Octets};
use std::alloc::Global;

/// The words of prefixes.
const SIDES: [(&[u8], Side); 2] = [(b"userprefix", Side::User), (b"serverprefix", Side::Server)];

/// The words of imports.
const IMPORTERS: [(&[u8], Importer); 3] = [
    (b"import", Importer::Both),
    (b"uimport", Importer::User),
    (b"simport", Importer::Server),
];

/// A prefix.
#[tactic(auto, unfolding(crate::specs::StatementReaders::prefix_at))]
fn prefix(alloc: Global, tokens: &[Token]) -> Result<(Side, Name, &[Token]), Halt>
    ensures { Gives (λ x. ((x.0, x.1), x.2.now)) result (prefix_at tokens.now) }
{
    let (side, rest) = like_of(tokens, &SIDES)?;
    let (name, rest) = identifier(alloc, rest)?;
    Ok((side, name, rest))
}

/// The name of a file.
fn file(alloc: Global, tokens: &[Token]) -> Parsed<'_, Octets>
    ensures { Gives (λ x. (x.0, x.1.now)) result (token_at file_in tokens.now) }
{
    match tokens {
        [first, rest @ ..] => match &first.kind {
            TokenKind::FileName(name) => Ok((Octets::from_slice(alloc, name.as_slice())?, rest)),
            _ => Err(Halt::Syntax),
        },
        [] => Err(Halt::Syntax),
    }
}

/// An import.
#[tactic(auto, unfolding(crate::specs::StatementReaders::import_at))]
fn import(alloc: Global, tokens: &[Token]) -> Result<(Importer, Octets, &[Token]), Halt>
    ensures { Gives (λ x. ((x.0, x.1), x.2.now)) result (import_at tokens.now) }
{
    let (importer, rest) = like_of(tokens, &IMPORTERS)?;
    let (name, rest) = file(alloc, rest)?;
    Ok((importer, name, rest))
}

/// A definition of a type.
#[tactic(auto, unfolding(crate::specs::StatementReaders::definition_at))]
fn definition(alloc: Global, tokens: &[Token]) -> Result<(Name, TypeForm, &[Token]), Halt>
    ensures { Gives (λ x. ((x.0, x.1), x.2.now)) result (definition_at tokens.now) }
{
    let rest = like(tokens, b"type")?;
    let (name, rest) = identifier(alloc, rest)?;
    let rest = mark(rest, b"=")?;
    let (form, rest) = type_form(alloc, rest)?;
    Ok((name, form, rest))
}

/// A statement without its end.
#[tactic(auto, unfolding(crate::specs::StatementReaders::body_at))]
fn body(alloc: Global, tokens: &[Token]) -> Parsed<'_, Statement>
    ensures { Gives (λ x. (x.0, x.1.now)) result (body_at tokens.now) }
{
    if begins_like(tokens, b"type") {
        let (name, form, rest) = definition(alloc, tokens)?;
        return Ok((Statement::Type(name, form), rest));
    }
    if begins_routine(tokens) {
        let (routine, rest) = routine(alloc, tokens)?;
        return Ok((Statement::Routine(routine), rest));
    }
    if begins_like_of(tokens, &SIDES) {
        let (side, name, rest) = prefix(alloc, tokens)?;
        return Ok((Statement::Prefix(side, name), rest));
    }
    if begins_like_of(tokens, &IMPORTERS) {
        let (importer, name, rest) = import(alloc, tokens)?;
        return Ok((Statement::Import(importer, name), rest));
    }
    let rest = like(tokens, b"skip")?;
    Ok((Statement::Skip, rest))
}

/// A statement, and the tokens after it.
#[tactic(auto, unfolding(crate::specs::StatementReaders::statement_at))]
pub(crate) fn statement(alloc: Global, tokens: &[Token]) -> Parsed<'_, Statement>
    ensures { Gives (λ x. (x.0, x.1.now)) result (statement_at tokens.now) }
{
    let (body, rest) = body(alloc, tokens)?;
    let rest = mark(rest, b";")?;
    Ok((body, rest))
}

/// The heading of a file: the subsystem's name and base, and the tokens after them.
#[tactic(auto, unfolding(crate::specs::StatementReaders::heading_at))]
pub(crate) fn heading(alloc: Global, tokens: &[Token]) -> Result<(Name, Expr, &[Token]), Halt>
    ensures { Gives (λ x. ((x.0, x.1), x.2.now)) result (heading_at tokens.now) }
{
    let rest = like(tokens, b"subsystem")?;
    let (name, rest) = identifier(alloc, rest)?;
    let (base, rest) = mig_expression(alloc, 32, rest)?;
    let rest = mark(rest, b";")?;
    Ok((name, base, rest))
}
