//! Expressions.

ghost use Rattle.std.specs.Prelude.{◌≡◌, ◌≤◌, ◌<◌, ◌+◌, ◌-◌, IfOk};
ghost use Rattle.idl_read.specs.Reading.{Gives};
ghost use Rattle.idl_exprs.specs.Readers.{within_at, primary_at, climb, expression_at, mig_expression_at};

use crate::languages::Language;
use crate::leaves::leaf_by;
use crate::operators::{begins_sign, operator, past, unary};
use crate::tree::Expr;
use idl_lex::Token;
use idl_read::{Halt, Parsed, begins_mark, mark};
use std::alloc::Global;

/// An expression of CORBA (`<const_exp>`) within so many levels, and the tokens after it.
///
/// Between `<` and `>` (`angle`) a `>>` after which a type is whole ends the expression.
#[tactic(auto, unfolding(crate::specs::Readers::expression_at))]
pub fn expression(alloc: Global, levels: u32, angle: bool, tokens: &[Token]) -> Parsed<'_, Expr>
    requires { levels ≤ 32 }
    ensures { Gives (λ x. (x.0, x.1.now)) result (expression_at levels angle tokens.now) }
{
    let (tree, _, rest) = within(alloc, levels, Language::Corba, angle, 6, tokens)?;
    Ok((tree, rest))
}

/// An expression of MIG within so many levels, and the tokens after it.
#[tactic(auto, unfolding(crate::specs::Readers::mig_expression_at))]
pub fn mig_expression(alloc: Global, levels: u32, tokens: &[Token]) -> Parsed<'_, Expr>
    requires { levels ≤ 32 }
    ensures { Gives (λ x. (x.0, x.1.now)) result (mig_expression_at levels tokens.now) }
{
    let (tree, _, rest) = within(alloc, levels, Language::Mig, false, 6, tokens)?;
    Ok((tree, rest))
}

/// An expression whose operators bind less loosely than `loose`, within so many levels, and how many
/// levels it takes. Between `<` and `>` a `>>` after which a type is whole is not an operator.
#[cycle(climbing)]
fn within(
    alloc: Global,
    levels: u32,
    language: Language,
    angle: bool,
    loose: u32,
    tokens: &[Token],
) -> Result<(Expr, u32, &[Token]), Halt>
    requires levels { levels ≤ 32 }
    requires loose { loose ≤ 6 }
    ensures read { Gives (λ x. ((x.0, x.1), x.2.now)) result
        (within_at levels language angle loose tokens.now) }
    ensures fits { IfOk result (λ x. x.1 ≤ levels) }
{
    if levels == 0 {
        return Err(Halt::Syntax);
    }
    climb(alloc, levels - 1, language, angle, loose, tokens)
}

/// An expression whose operators bind less loosely than `loose`, with so many levels below it, and how
/// many levels it takes.
#[cycle(climbing)]
fn climb(
    alloc: Global,
    below: u32,
    language: Language,
    angle: bool,
    loose: u32,
    tokens: &[Token],
) -> Result<(Expr, u32, &[Token]), Halt>
    requires below { below < 32 }
    requires loose { loose ≤ 6 }
    ensures read { Gives (λ x. ((x.0, x.1), x.2.now)) result
        (climb (within_at below) below language angle loose tokens.now) }
    ensures fits { IfOk result (λ x. x.1 ≤ below + 1) }
{
    if loose == 0 {
        return primary(alloc, below, language, angle, tokens);
    }
    let (mut tree, mut height, mut rest) = climb(alloc, below, language, angle, loose - 1, tokens)?;
    'chain: for _ in 0..below + 1 {
        let Some(op) = operator(language, angle, loose - 1, rest) else {
            return Ok((tree, height, rest));
        };
        let next = past(rest);
        match within(alloc, below, language, angle, loose - 1, next) {
            Ok((right, above, after)) => {
                height = height.max(above) + 1;
                if height > below + 1 {
                    return Err(Halt::Syntax);
                }
                tree = Expr::of_binary(alloc, op, tree, right)?;
                rest = after;
            }
            Err(halt) => return Err(halt),
        }
    }
    Err(Halt::Syntax)
}

/// An operand in parentheses, an operator before its operand (`<unary_expr>`), or a leaf; and how many
/// levels it takes.
#[cycle(climbing)]
fn primary(
    alloc: Global,
    below: u32,
    language: Language,
    angle: bool,
    tokens: &[Token],
) -> Result<(Expr, u32, &[Token]), Halt>
    requires { below < 32 }
    ensures read { Gives (λ x. ((x.0, x.1), x.2.now)) result
        (primary_at (within_at below) language angle tokens.now) }
    ensures fits { IfOk result (λ x. x.1 ≤ below + 1) }
{
    if begins_mark(tokens, b"(") {
        let rest = mark(tokens, b"(")?;
        let (tree, height, rest) = within(alloc, below, language, false, 6, rest)?;
        let rest = mark(rest, b")")?;
        return Ok((tree, height + 1, rest));
    }
    if begins_sign(language, tokens) {
        let (op, rest) = unary(tokens)?;
        let (operand, height, rest) = within(alloc, below, language, angle, 0, rest)?;
        let tree = Expr::of_unary(alloc, op, operand)?;
        return Ok((tree, height + 1, rest));
    }
    let (item, rest) = leaf_by(alloc, language, tokens)?;
    Ok((Expr::of_leaf(item), 1, rest))
}
