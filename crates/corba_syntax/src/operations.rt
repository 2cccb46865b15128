//! Operations.

ghost use Rattle.std.specs.Prelude.{◌≡◌, ◌≤◌, ◌-◌};
ghost use Rattle.idl_read.specs.Reading.{Gives};
ghost use Rattle.corba_syntax.specs.OperationReaders.{parameters_at, result_at, raises_at, operation_at};

use crate::operation_tree::{Direction, Operation, Parameter, Reference};
use crate::optional::word_flag;
use corba_decls::{TypeName, type_name};
use idl_exprs::Identifier;
use idl_lex::Token;
use idl_read::{
    Nested, Parsed, Production, begins, begins_mark, joined_nested, mark, stands_before, word,
    word_of,
};
use kit_base::Listed;
use std::alloc::Global;

/// The words of the directions.
const DIRECTIONS: [(&[u8], Direction); 3] = [
    (b"in", Direction::In),
    (b"out", Direction::Out),
    (b"inout", Direction::InOut),
];

impl Nested for Parameter {
    ghost use Rattle.corba_syntax.specs.OperationReaders.{is_further, parameter_at};

    ghost goes = { is_further };

    ghost within = { parameter_at };

    fn is_next(tokens: &[Token]) -> bool {
        begins_mark(tokens, b",")
    }

    #[tactic(auto, unfolding(crate::specs::OperationReaders::parameter_at))]
    fn read(alloc: Global, levels: u32, tokens: &[Token]) -> Parsed<'_, Self> {
        let (direction, rest) = word_of(tokens, &DIRECTIONS)?;
        let (of, rest) = type_name(alloc, levels, rest)?;
        let (name, rest) = Identifier::read(alloc, rest)?;
        Ok((
            Parameter {
                direction,
                of,
                name,
            },
            rest,
        ))
    }
}

/// The parameters in their parentheses.
#[tactic(auto, unfolding(crate::specs::OperationReaders::parameters_at))]
fn parameters(alloc: Global, levels: u32, tokens: &[Token]) -> Parsed<'_, Listed<Parameter>>
    requires { levels ≤ 32 }
    ensures { Gives (λ x. (x.0, x.1.now)) result (parameters_at levels tokens.now) }
{
    let rest = mark(tokens, b"(")?;
    if stands_before(rest, b")") {
        let (parameters, rest) = joined_nested::<Parameter>(alloc, levels, rest, b",")?;
        let rest = mark(rest, b")")?;
        return Ok((parameters, rest));
    }
    let rest = mark(rest, b")")?;
    Ok((Listed::new(alloc), rest))
}

/// The exceptions that are raised (`<raises_expr>`); none where `raises` does not come first.
#[tactic(auto, unfolding(crate::specs::OperationReaders::raises_at))]
fn raises(alloc: Global, levels: u32, tokens: &[Token]) -> Parsed<'_, Listed<Reference>>
    requires { levels ≤ 32 }
    ensures { Gives (λ x. (x.0, x.1.now)) result (raises_at levels tokens.now) }
{
    if begins(tokens, b"raises") {
        let rest = word(tokens, b"raises")?;
        let rest = mark(rest, b"(")?;
        let (names, rest) = joined_nested::<Reference>(alloc, levels, rest, b",")?;
        let rest = mark(rest, b")")?;
        return Ok((names, rest));
    }
    Ok((Listed::new(alloc), tokens))
}

/// The type of a result, or `void`.
#[tactic(auto, unfolding(crate::specs::OperationReaders::result_at))]
fn result_type(alloc: Global, levels: u32, tokens: &[Token]) -> Parsed<'_, Option<TypeName>>
    requires { levels ≤ 32 }
    ensures { Gives (λ x. (x.0, x.1.now)) result (result_at levels tokens.now) }
{
    if begins(tokens, b"void") {
        let rest = word(tokens, b"void")?;
        return Ok((None, rest));
    }
    let (of, rest) = type_name(alloc, levels, tokens)?;
    Ok((Some(of), rest))
}

/// An operation (`<op_dcl>`) within so many levels, and the tokens after it. What is in its parentheses has
/// one level less.
#[tactic(auto, unfolding(crate::specs::OperationReaders::operation_at))]
pub fn operation(alloc: Global, levels: u32, tokens: &[Token]) -> Parsed<'_, Operation>
    requires { levels ≤ 32 }
    ensures { Gives (λ x. (x.0, x.1.now)) result (operation_at levels tokens.now) }
{
    let inner = levels.saturating_sub(1);
    let (oneway, rest) = word_flag(tokens, b"oneway");
    let (result, rest) = result_type(alloc, levels, rest)?;
    let (name, rest) = Identifier::read(alloc, rest)?;
    let (parameters, rest) = parameters(alloc, inner, rest)?;
    let (raises, rest) = raises(alloc, inner, rest)?;
    Ok((
        Operation {
            oneway,
            result,
            name,
            parameters,
            raises,
        },
        rest,
    ))
}
