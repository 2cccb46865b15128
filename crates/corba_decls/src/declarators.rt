//! Declarators and members.

ghost use Rattle.std.specs.Prelude.{◌≡◌};

use crate::member_tree::{Declarator, Dimension, Member};
use crate::type_name;
use idl_exprs::{Identifier, expression};
use idl_lex::Token;
use idl_read::{
    Halt, Nested, Parsed, Production, begins_mark, each_nested, joined_nested, mark, stands_before,
};
use std::alloc::Global;

impl Nested for Dimension {
    ghost use Rattle.corba_decls.specs.MemberReaders.{has_dimension, dimension_at};

    ghost goes = { has_dimension };

    ghost within = { dimension_at };

    fn is_next(tokens: &[Token]) -> bool {
        begins_mark(tokens, b"[")
    }

    #[tactic(auto, unfolding(crate::specs::MemberReaders::dimension_at))]
    fn read(alloc: Global, levels: u32, tokens: &[Token]) -> Parsed<'_, Self> {
        let rest = mark(tokens, b"[")?;
        let (length, rest) = expression(alloc, levels, false, rest)?;
        let rest = mark(rest, b"]")?;
        Ok((Dimension { length }, rest))
    }
}

impl Nested for Declarator {
    ghost use Rattle.idl_exprs.specs.Readers.{is_open};
    ghost use Rattle.corba_decls.specs.MemberReaders.{declarator_at};

    ghost goes = { is_open };

    ghost within = { declarator_at };

    fn is_next(tokens: &[Token]) -> bool {
        stands_before(tokens, b"}")
    }

    #[tactic(auto, unfolding(crate::specs::MemberReaders::declarator_at))]
    fn read(alloc: Global, levels: u32, tokens: &[Token]) -> Parsed<'_, Self> {
        let (name, rest) = Identifier::read(alloc, tokens)?;
        let (dimensions, rest) = each_nested::<Dimension>(alloc, levels, rest)?;
        Ok((Declarator { name, dimensions }, rest))
    }
}

impl Nested for Member {
    ghost use Rattle.idl_exprs.specs.Readers.{is_open};
    ghost use Rattle.corba_decls.specs.MemberReaders.{member_at};

    ghost goes = { is_open };

    ghost within = { member_at };

    fn is_next(tokens: &[Token]) -> bool {
        stands_before(tokens, b"}")
    }

    #[tactic(auto, unfolding(crate::specs::MemberReaders::member_at))]
    fn read(alloc: Global, levels: u32, tokens: &[Token]) -> Parsed<'_, Self> {
        let (of, rest) = type_name(alloc, levels, tokens)?;
        let (declarators, rest) = joined_nested::<Declarator>(alloc, levels, rest, b",")?;
        let rest = mark(rest, b";")?;
        Ok((Member { of, declarators }, rest))
    }
}
