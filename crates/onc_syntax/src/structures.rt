//! Enums and structs.

ghost use Rattle.std.specs.Prelude.{◌≡◌};
ghost use Rattle.idl_read.specs.Reading.{Gives};
ghost use Rattle.onc_syntax.specs.Readers.{enum_at, struct_at};

use crate::declarations::decl;
use crate::tree::{Item, Items, Member};
use crate::types::{identifier, value};
use idl_lex::Token;
use idl_read::{Halt, Parsed, Production, begins_mark, joined, mark, some_until};
use kit_base::{Listed, Name};
use std::alloc::Global;

impl Production for Item {
    ghost use Rattle.onc_syntax.specs.Readers.{item_at};

    ghost at = { item_at };

    #[tactic(auto, unfolding(crate::specs::Readers::item_at))]
    fn read(alloc: Global, tokens: &[Token]) -> Parsed<'_, Self> {
        let (name, rest) = identifier(alloc, tokens)?;
        if begins_mark(rest, b"=") {
            let rest = mark(rest, b"=")?;
            let (value, rest) = value(alloc, rest)?;
            return Ok((
                Item {
                    name,
                    value: Some(value),
                },
                rest,
            ));
        }
        Ok((Item { name, value: None }, rest))
    }
}

impl Production for Member {
    ghost use Rattle.onc_syntax.specs.Readers.{member_at};

    ghost at = { member_at };

    #[tactic(auto, unfolding(crate::specs::Readers::member_at))]
    fn read(alloc: Global, tokens: &[Token]) -> Parsed<'_, Self> {
        let (decl, rest) = decl(alloc, tokens)?;
        let rest = mark(rest, b";")?;
        Ok((Member { decl }, rest))
    }
}

/// An enum, after its word.
#[tactic(auto, unfolding(crate::specs::Readers::enum_at))]
pub fn enumeration(alloc: Global, tokens: &[Token]) -> Result<(Name, Items, &[Token]), Halt>
    ensures { Gives (λ x. ((x.0, x.1), x.2.now)) result (enum_at tokens.now) }
{
    let (name, rest) = identifier(alloc, tokens)?;
    let rest = mark(rest, b"{")?;
    let (items, rest) = joined::<Item>(alloc, rest, b",")?;
    let rest = mark(rest, b"}")?;
    Ok((name, items, rest))
}

/// A struct, after its word.
#[tactic(auto, unfolding(crate::specs::Readers::struct_at))]
pub fn structure(alloc: Global, tokens: &[Token]) -> Result<(Name, Listed<Member>, &[Token]), Halt>
    ensures { Gives (λ x. ((x.0, x.1), x.2.now)) result (struct_at tokens.now) }
{
    let (name, rest) = identifier(alloc, tokens)?;
    let rest = mark(rest, b"{")?;
    let (members, rest) = some_until::<Member>(alloc, rest, b"}")?;
    let rest = mark(rest, b"}")?;
    Ok((name, members, rest))
}
