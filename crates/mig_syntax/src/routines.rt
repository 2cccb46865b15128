//! Routines.

ghost use Rattle.std.specs.Prelude.{◌≡◌};
ghost use Rattle.idl_read.specs.Reading.{Gives, begins_with};
ghost use Rattle.mig_syntax.specs.Words.{has_like};
ghost use Rattle.mig_syntax.specs.StatementReaders.{routine_words, routine_at};

use crate::tree::{Direction, Parameter, Routine};
use crate::words::{begins_like_of, identifier, like_of};
use idl_lex::Token;
use idl_read::{Parsed, Production, joined, mark};
use std::alloc::Global;

/// The words of the directions.
const DIRECTIONS: [(&[u8], Direction); 4] = [
    (b"requestport", Direction::RequestPort),
    (b"in", Direction::In),
    (b"out", Direction::Out),
    (b"inout", Direction::InOut),
];

/// The words of routines: whether it is `simpleroutine`.
const ROUTINES: [(&[u8], bool); 2] = [(b"routine", false), (b"simpleroutine", true)];

impl Production for Parameter {
    ghost use Rattle.mig_syntax.specs.StatementReaders.{parameter_at};

    ghost at = { parameter_at };

    #[tactic(auto, unfolding(crate::specs::StatementReaders::parameter_at))]
    fn read(alloc: Global, tokens: &[Token]) -> Parsed<'_, Self> {
        if begins_like_of(tokens, &DIRECTIONS) {
            let (direction, rest) = like_of(tokens, &DIRECTIONS)?;
            let (name, rest) = identifier(alloc, rest)?;
            let rest = mark(rest, b":")?;
            let (of, rest) = identifier(alloc, rest)?;
            return Ok((
                Parameter {
                    direction: Some(direction),
                    name,
                    of,
                },
                rest,
            ));
        }
        let (name, rest) = identifier(alloc, tokens)?;
        let rest = mark(rest, b":")?;
        let (of, rest) = identifier(alloc, rest)?;
        Ok((
            Parameter {
                direction: None,
                name,
                of,
            },
            rest,
        ))
    }
}

/// Whether a routine comes first.
pub(crate) fn begins_routine(tokens: &[Token]) -> bool
    ensures { result ≡ begins_with (has_like routine_words) tokens.now }
{
    begins_like_of(tokens, &ROUTINES)
}

/// A routine, and the tokens after it.
#[tactic(auto, unfolding(crate::specs::StatementReaders::routine_at))]
pub(crate) fn routine(alloc: Global, tokens: &[Token]) -> Parsed<'_, Routine>
    ensures { Gives (λ x. (x.0, x.1.now)) result (routine_at tokens.now) }
{
    let (simple, rest) = like_of(tokens, &ROUTINES)?;
    let (name, rest) = identifier(alloc, rest)?;
    let rest = mark(rest, b"(")?;
    let (parameters, rest) = joined::<Parameter>(alloc, rest, b";")?;
    let rest = mark(rest, b")")?;
    Ok((
        Routine {
            simple,
            name,
            parameters,
        },
        rest,
    ))
}
