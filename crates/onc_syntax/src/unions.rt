//! Unions.

ghost use Rattle.std.specs.Prelude.{◌≡◌};
ghost use Rattle.idl_read.specs.Reading.{Gives};
ghost use Rattle.onc_syntax.specs.Readers.{arm_at, default_at, union_at};

use crate::declarations::decl;
use crate::tree::{Arm, Case, Label, Union};
use crate::types::{identifier, type_name, value};
use idl_lex::Token;
use idl_read::{Parsed, Production, begins, mark, some_while, word};
use std::alloc::Global;

impl Production for Label {
    ghost use Rattle.onc_syntax.specs.Readers.{label_at};

    ghost at = { label_at };

    #[tactic(auto, unfolding(crate::specs::Readers::label_at))]
    fn read(alloc: Global, tokens: &[Token]) -> Parsed<'_, Self> {
        let rest = word(tokens, b"case")?;
        let (value, rest) = value(alloc, rest)?;
        let rest = mark(rest, b":")?;
        Ok((Label { value }, rest))
    }
}

/// What is in a case, without its end.
#[tactic(auto, unfolding(crate::specs::Readers::arm_at))]
fn arm(alloc: Global, tokens: &[Token]) -> Parsed<'_, Arm>
    ensures { Gives (λ x. (x.0, x.1.now)) result (arm_at tokens.now) }
{
    if begins(tokens, b"void") {
        let rest = word(tokens, b"void")?;
        return Ok((Arm::Void, rest));
    }
    let (declared, rest) = decl(alloc, tokens)?;
    Ok((Arm::Decl(declared), rest))
}

impl Production for Case {
    ghost use Rattle.onc_syntax.specs.Readers.{case_at};

    ghost at = { case_at };

    #[tactic(auto, unfolding(crate::specs::Readers::case_at))]
    fn read(alloc: Global, tokens: &[Token]) -> Parsed<'_, Self> {
        let (labels, rest) = some_while::<Label>(alloc, tokens, b"case")?;
        let (arm, rest) = arm(alloc, rest)?;
        let rest = mark(rest, b";")?;
        Ok((Case { labels, arm }, rest))
    }
}

/// The default of a union.
#[tactic(auto, unfolding(crate::specs::Readers::default_at))]
fn default(alloc: Global, tokens: &[Token]) -> Parsed<'_, Arm>
    ensures { Gives (λ x. (x.0, x.1.now)) result (default_at tokens.now) }
{
    let rest = word(tokens, b"default")?;
    let rest = mark(rest, b":")?;
    let (arm, rest) = arm(alloc, rest)?;
    let rest = mark(rest, b";")?;
    Ok((arm, rest))
}

/// A union, after its word.
#[tactic(auto, unfolding(crate::specs::Readers::union_at))]
pub fn union(alloc: Global, tokens: &[Token]) -> Parsed<'_, Union>
    ensures { Gives (λ x. (x.0, x.1.now)) result (union_at tokens.now) }
{
    let (name, rest) = identifier(alloc, tokens)?;
    let rest = word(rest, b"switch")?;
    let rest = mark(rest, b"(")?;
    let (tag, rest) = type_name(alloc, rest)?;
    let (tag_name, rest) = identifier(alloc, rest)?;
    let rest = mark(rest, b")")?;
    let rest = mark(rest, b"{")?;
    let (cases, rest) = some_while::<Case>(alloc, rest, b"case")?;
    if begins(rest, b"default") {
        let (arm, rest) = default(alloc, rest)?;
        let rest = mark(rest, b"}")?;
        return Ok((
            Union {
                name,
                tag,
                tag_name,
                cases,
                default: Some(arm),
            },
            rest,
        ));
    }
    let rest = mark(rest, b"}")?;
    Ok((
        Union {
            name,
            tag,
            tag_name,
            cases,
            default: None,
        },
        rest,
    ))
}
