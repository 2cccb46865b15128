//! Programs.

ghost use Rattle.std.specs.Prelude.{◌≡◌};
ghost use Rattle.idl_read.specs.Reading.{Gives};
ghost use Rattle.onc_syntax.specs.Readers.{program_at};

use crate::tree::{ProcType, Procedure, Value, Version};
use crate::types::{identifier, type_name, value};
use idl_lex::Token;
use idl_read::{Halt, Parsed, Production, begins, joined, mark, some_until, word};
use kit_base::{Listed, Name};
use std::alloc::Global;

impl Production for ProcType {
    ghost use Rattle.onc_syntax.specs.Readers.{proc_type_at};

    ghost at = { proc_type_at };

    #[tactic(auto, unfolding(crate::specs::Readers::proc_type_at))]
    fn read(alloc: Global, tokens: &[Token]) -> Parsed<'_, Self> {
        if begins(tokens, b"void") {
            let rest = word(tokens, b"void")?;
            return Ok((ProcType::Void, rest));
        }
        if begins(tokens, b"string") {
            let rest = word(tokens, b"string")?;
            return Ok((ProcType::Text, rest));
        }
        let (of, rest) = type_name(alloc, tokens)?;
        Ok((ProcType::Plain(of), rest))
    }
}

impl Production for Procedure {
    ghost use Rattle.onc_syntax.specs.Readers.{procedure_at};

    ghost at = { procedure_at };

    #[tactic(auto, unfolding(crate::specs::Readers::procedure_at))]
    fn read(alloc: Global, tokens: &[Token]) -> Parsed<'_, Self> {
        let (result, rest) = ProcType::read(alloc, tokens)?;
        let (name, rest) = identifier(alloc, rest)?;
        let rest = mark(rest, b"(")?;
        let (parameters, rest) = joined::<ProcType>(alloc, rest, b",")?;
        let rest = mark(rest, b")")?;
        let rest = mark(rest, b"=")?;
        let (number, rest) = value(alloc, rest)?;
        let rest = mark(rest, b";")?;
        Ok((
            Procedure {
                result,
                name,
                parameters,
                number,
            },
            rest,
        ))
    }
}

impl Production for Version {
    ghost use Rattle.onc_syntax.specs.Readers.{version_at};

    ghost at = { version_at };

    #[tactic(auto, unfolding(crate::specs::Readers::version_at))]
    fn read(alloc: Global, tokens: &[Token]) -> Parsed<'_, Self> {
        let rest = word(tokens, b"version")?;
        let (name, rest) = identifier(alloc, rest)?;
        let rest = mark(rest, b"{")?;
        let (procedures, rest) = some_until::<Procedure>(alloc, rest, b"}")?;
        let rest = mark(rest, b"}")?;
        let rest = mark(rest, b"=")?;
        let (number, rest) = value(alloc, rest)?;
        let rest = mark(rest, b";")?;
        Ok((
            Version {
                name,
                procedures,
                number,
            },
            rest,
        ))
    }
}

/// A program, after its word.
#[tactic(auto, unfolding(crate::specs::Readers::program_at))]
pub fn program(
    alloc: Global,
    tokens: &[Token],
) -> Result<(Name, Listed<Version>, Value, &[Token]), Halt>
    ensures { Gives (λ x. ((x.0, (x.1, x.2)), x.3.now)) result (program_at tokens.now) }
{
    let (name, rest) = identifier(alloc, tokens)?;
    let rest = mark(rest, b"{")?;
    let (versions, rest) = some_until::<Version>(alloc, rest, b"}")?;
    let rest = mark(rest, b"}")?;
    let rest = mark(rest, b"=")?;
    let (number, rest) = value(alloc, rest)?;
    Ok((name, versions, number, rest))
}
