//! Structs, exceptions and enumerations.

ghost use Rattle.std.specs.Prelude.{◌≡◌, ◌≤◌};
ghost use Rattle.idl_read.specs.Reading.{Gives};
ghost use Rattle.corba_decls.specs.MemberReaders.{structure_at, exception_at, enumeration_at};

use crate::member_tree::{Enum, Exception, Member, Struct};
use idl_exprs::Identifier;
use idl_lex::Token;
use idl_read::{Parsed, Production, each_nested, joined, mark, some_nested, word};
use std::alloc::Global;

/// A struct (`<struct_type>`) within so many levels, and the tokens after it.
#[tactic(auto, unfolding(crate::specs::MemberReaders::structure_at))]
pub fn structure(alloc: Global, levels: u32, tokens: &[Token]) -> Parsed<'_, Struct>
    requires { levels ≤ 32 }
    ensures { Gives (λ x. (x.0, x.1.now)) result (structure_at levels tokens.now) }
{
    let rest = word(tokens, b"struct")?;
    let (name, rest) = Identifier::read(alloc, rest)?;
    let rest = mark(rest, b"{")?;
    let (members, rest) = some_nested::<Member>(alloc, levels, rest)?;
    let rest = mark(rest, b"}")?;
    Ok((Struct { name, members }, rest))
}

/// An exception (`<except_dcl>`) within so many levels, and the tokens after it: it does not take the `;`
/// that ends it.
#[tactic(auto, unfolding(crate::specs::MemberReaders::exception_at))]
pub fn exception(alloc: Global, levels: u32, tokens: &[Token]) -> Parsed<'_, Exception>
    requires { levels ≤ 32 }
    ensures { Gives (λ x. (x.0, x.1.now)) result (exception_at levels tokens.now) }
{
    let rest = word(tokens, b"exception")?;
    let (name, rest) = Identifier::read(alloc, rest)?;
    let rest = mark(rest, b"{")?;
    let (members, rest) = each_nested::<Member>(alloc, levels, rest)?;
    let rest = mark(rest, b"}")?;
    Ok((Exception { name, members }, rest))
}

/// An enumeration (`<enum_type>`), and the tokens after it.
#[tactic(auto, unfolding(crate::specs::MemberReaders::enumeration_at))]
pub fn enumeration(alloc: Global, tokens: &[Token]) -> Parsed<'_, Enum>
    ensures { Gives (λ x. (x.0, x.1.now)) result (enumeration_at tokens.now) }
{
    let rest = word(tokens, b"enum")?;
    let (name, rest) = Identifier::read(alloc, rest)?;
    let rest = mark(rest, b"{")?;
    let (items, rest) = joined::<Identifier>(alloc, rest, b",")?;
    let rest = mark(rest, b"}")?;
    Ok((Enum { name, items }, rest))
}
