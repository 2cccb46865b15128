//! Lists of items that nest within so many levels.

ghost use Rattle.std.specs.Prelude.{◌≡◌, ◌≤◌};
ghost use Rattle.idl_read.specs.Reading.{Gives, after, mark_at, joined_at, many, some_at};

use crate::{Halt, Parsed, begins_mark, mark};
use idl_lex::Token;
use kit_base::Listed;
use std::alloc::Global;

/// A tree that is read from the beginning of some tokens, within so many levels.
pub trait Nested: Sized + Drop {
    ghost use Rattle.std.specs.Prelude.{◌≡◌, ◌≤◌, ℕ, Bool, List, Option};
    ghost use Rattle.idl_lex.specs.declared.kinds.Token.{Token};
    ghost use Rattle.idl_read.specs.Reading.{Gives};

    ghost goes: { List Token → Bool };

    ghost within: { ℕ → List Token → Option (Self × List Token) };

    /// Whether another one comes first, where there are any number of them.
    fn is_next(tokens: &[Token]) -> bool
        ensures { result ≡ goes tokens.now };

    /// The tree, and the tokens after it.
    fn read(alloc: Global, levels: u32, tokens: &[Token]) -> Parsed<'_, Self>
        requires { levels ≤ 32 }
        ensures { Gives (λ x. (x.0, x.1.now)) result (within levels tokens.now) };
}

/// As many as come next.
pub fn each_nested<T: Nested>(alloc: Global, levels: u32, tokens: &[Token]) -> Parsed<'_, Listed<T>>
    requires { levels ≤ 32 }
    ensures { Gives (λ x. (x.0, x.1.now)) result (many T.goes (T.within levels) tokens.now) }
{
    let mut items = Listed::new(alloc);
    let mut rest = tokens;
    'items: for _ in 0..tokens.len() {
        if !T::is_next(rest) {
            return Ok((items, rest));
        }
        let (item, tail) = T::read(alloc, levels, rest)?;
        items.push(item)?;
        rest = tail;
    }
    Ok((items, rest))
}

/// One or more.
pub fn some_nested<T: Nested>(alloc: Global, levels: u32, tokens: &[Token]) -> Parsed<'_, Listed<T>>
    requires { levels ≤ 32 }
    ensures { Gives (λ x. (x.0, x.1.now)) result (some_at (many T.goes (T.within levels)) tokens.now) }
{
    let (items, rest) = each_nested(alloc, levels, tokens)?;
    if items.as_slice().is_empty() {
        return Err(Halt::Syntax);
    }
    Ok((items, rest))
}

/// The tree after a mark.
fn nested_after<'a, T: Nested>(
    alloc: Global,
    levels: u32,
    tokens: &'a [Token],
    lead: &[u8],
) -> Parsed<'a, T>
    requires { levels ≤ 32 }
    ensures { Gives (λ x. (x.0, x.1.now)) result (after (mark_at lead.now) (T.within levels) tokens.now) }
{
    let rest = mark(tokens, lead)?;
    T::read(alloc, levels, rest)
}

/// One or more, with marks between them.
pub fn joined_nested<'a, T: Nested>(
    alloc: Global,
    levels: u32,
    tokens: &'a [Token],
    between: &[u8],
) -> Parsed<'a, Listed<T>>
    requires { levels ≤ 32 }
    ensures { Gives (λ x. (x.0, x.1.now)) result (joined_at between.now (T.within levels) tokens.now) }
{
    let (first, mut rest) = T::read(alloc, levels, tokens)?;
    let mut items = Listed::new(alloc);
    items.push(first)?;
    'items: for _ in 0..rest.len() {
        if !begins_mark(rest, between) {
            return Ok((items, rest));
        }
        let (item, tail) = nested_after::<T>(alloc, levels, rest, between)?;
        items.push(item)?;
        rest = tail;
    }
    Ok((items, rest))
}
