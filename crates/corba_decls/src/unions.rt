//! Unions.

ghost use Rattle.std.specs.Prelude.{◌≡◌, ◌≤◌};
ghost use Rattle.idl_read.specs.Reading.{Gives};
ghost use Rattle.corba_decls.specs.DeclReaders.{union_at};

use crate::decl_tree::{Case, Label, Union};
use crate::tags::tag;
use crate::{Declarator, type_name};
use idl_exprs::{Identifier, expression};
use idl_lex::Token;
use idl_read::{Nested, Parsed, Production, begins, mark, some_nested, stands_before, word};
use std::alloc::Global;

impl Nested for Label {
    ghost use Rattle.corba_decls.specs.DeclReaders.{has_label, label_at};

    ghost goes = { has_label };

    ghost within = { label_at };

    fn is_next(tokens: &[Token]) -> bool {
        begins(tokens, b"case") || begins(tokens, b"default")
    }

    #[tactic(auto, unfolding(crate::specs::DeclReaders::label_at))]
    fn read(alloc: Global, levels: u32, tokens: &[Token]) -> Parsed<'_, Self> {
        if begins(tokens, b"case") {
            let rest = word(tokens, b"case")?;
            let (value, rest) = expression(alloc, levels, false, rest)?;
            let rest = mark(rest, b":")?;
            return Ok((Label::Case(value), rest));
        }
        let rest = word(tokens, b"default")?;
        let rest = mark(rest, b":")?;
        Ok((Label::Default, rest))
    }
}

impl Nested for Case {
    ghost use Rattle.idl_exprs.specs.Readers.{is_open};
    ghost use Rattle.corba_decls.specs.DeclReaders.{case_at};

    ghost goes = { is_open };

    ghost within = { case_at };

    fn is_next(tokens: &[Token]) -> bool {
        stands_before(tokens, b"}")
    }

    #[tactic(auto, unfolding(crate::specs::DeclReaders::case_at))]
    fn read(alloc: Global, levels: u32, tokens: &[Token]) -> Parsed<'_, Self> {
        let (labels, rest) = some_nested::<Label>(alloc, levels, tokens)?;
        let (of, rest) = type_name(alloc, levels, rest)?;
        let (declarator, rest) = Declarator::read(alloc, levels, rest)?;
        let rest = mark(rest, b";")?;
        Ok((
            Case {
                labels,
                of,
                declarator,
            },
            rest,
        ))
    }
}

/// A union within so many levels. Its tag, in parentheses, has one level less.
#[tactic(auto, unfolding(crate::specs::DeclReaders::union_at))]
pub(crate) fn union(alloc: Global, levels: u32, tokens: &[Token]) -> Parsed<'_, Union>
    requires { levels ≤ 32 }
    ensures { Gives (λ x. (x.0, x.1.now)) result (union_at levels tokens.now) }
{
    let rest = word(tokens, b"union")?;
    let (name, rest) = Identifier::read(alloc, rest)?;
    let rest = word(rest, b"switch")?;
    let rest = mark(rest, b"(")?;
    let (tag, rest) = tag(alloc, levels.saturating_sub(1), rest)?;
    let rest = mark(rest, b")")?;
    let rest = mark(rest, b"{")?;
    let (cases, rest) = some_nested::<Case>(alloc, levels, rest)?;
    let rest = mark(rest, b"}")?;
    Ok((Union { name, tag, cases }, rest))
}
