//! Types.

ghost use Rattle.std.specs.Prelude.{◌≡◌};
ghost use Rattle.idl_read.specs.Reading.{Gives};
ghost use Rattle.mig_syntax.specs.StatementReaders.{row_at, sized_at, type_at};

use crate::tree::TypeForm;
use crate::words::{begins_like, identifier, like};
use idl_exprs::{Expr, mig_expression};
use idl_lex::Token;
use idl_read::{Halt, Parsed, begins_mark, mark};
use kit_base::Name;
use std::alloc::Global;

/// A length, and the type of the elements.
#[tactic(auto, unfolding(crate::specs::StatementReaders::row_at))]
fn row(alloc: Global, tokens: &[Token]) -> Result<(Expr, Name, &[Token]), Halt>
    ensures { Gives (λ x. ((x.0, x.1), x.2.now)) result (row_at tokens.now) }
{
    let (length, rest) = mig_expression(alloc, 32, tokens)?;
    let rest = mark(rest, b"]")?;
    let rest = like(rest, b"of")?;
    let (name, rest) = identifier(alloc, rest)?;
    Ok((length, name, rest))
}

/// A type with its size, in parentheses.
#[tactic(auto, unfolding(crate::specs::StatementReaders::sized_at))]
fn sized(alloc: Global, tokens: &[Token]) -> Result<(Name, Expr, &[Token]), Halt>
    ensures { Gives (λ x. ((x.0, x.1), x.2.now)) result (sized_at tokens.now) }
{
    let rest = mark(tokens, b"(")?;
    let (name, rest) = identifier(alloc, rest)?;
    let rest = mark(rest, b",")?;
    let (size, rest) = mig_expression(alloc, 31, rest)?;
    let rest = mark(rest, b")")?;
    Ok((name, size, rest))
}

/// A type, and the tokens after it.
#[tactic(auto, unfolding(crate::specs::StatementReaders::type_at, crate::specs::StatementReaders::array_at))]
pub(crate) fn type_form(alloc: Global, tokens: &[Token]) -> Parsed<'_, TypeForm>
    ensures { Gives (λ x. (x.0, x.1.now)) result (type_at tokens.now) }
{
    if begins_mark(tokens, b"(") {
        let (name, size, rest) = sized(alloc, tokens)?;
        return Ok((TypeForm::Sized(name, size), rest));
    }
    if begins_like(tokens, b"array") {
        let rest = like(tokens, b"array")?;
        let rest = mark(rest, b"[")?;
        if begins_mark(rest, b"*") {
            let rest = mark(rest, b"*")?;
            let rest = mark(rest, b":")?;
            let (length, name, rest) = row(alloc, rest)?;
            return Ok((TypeForm::VariableArray(length, name), rest));
        }
        let (length, name, rest) = row(alloc, rest)?;
        return Ok((TypeForm::Array(length, name), rest));
    }
    if begins_like(tokens, b"struct") {
        let rest = like(tokens, b"struct")?;
        let rest = mark(rest, b"[")?;
        let (length, name, rest) = row(alloc, rest)?;
        return Ok((TypeForm::Struct(length, name), rest));
    }
    let (name, rest) = identifier(alloc, tokens)?;
    Ok((TypeForm::Named(name), rest))
}
