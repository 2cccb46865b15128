//! Lists of items.

ghost use Rattle.std.specs.Prelude.{◌≡◌};
ghost use Rattle.idl_read.specs.Reading.{Gives, after, mark_at, joined_at, until_at, while_at, some_at};

use crate::{Halt, Parsed, begins, begins_mark, mark, stands_before};
use idl_lex::Token;
use kit_base::Listed;
use std::alloc::Global;

/// A tree that is read from the beginning of some tokens.
pub trait Production: Sized + Drop {
    ghost use Rattle.std.specs.Prelude.{List, Option};
    ghost use Rattle.idl_lex.specs.declared.kinds.Token.{Token};

    ghost at: { List Token → Option (Self × List Token) };

    /// The tree, and the tokens after it.
    fn read(alloc: Global, tokens: &[Token]) -> Parsed<'_, Self>
        ensures { Gives (λ x. (x.0, x.1.now)) result (at tokens.now) };
}

/// The tree after a mark.
pub fn after_mark<'a, T: Production>(
    alloc: Global,
    tokens: &'a [Token],
    lead: &[u8],
) -> Parsed<'a, T>
    ensures { Gives (λ x. (x.0, x.1.now)) result (after (mark_at lead.now) T.at tokens.now) }
{
    let rest = mark(tokens, lead)?;
    T::read(alloc, rest)
}

/// One or more, with marks between them.
pub fn joined<'a, T: Production>(
    alloc: Global,
    tokens: &'a [Token],
    between: &[u8],
) -> Parsed<'a, Listed<T>>
    ensures { Gives (λ x. (x.0, x.1.now)) result (joined_at between.now T.at tokens.now) }
{
    let (first, mut rest) = T::read(alloc, tokens)?;
    let mut items = Listed::new(alloc);
    items.push(first)?;
    'items: for _ in 0..rest.len() {
        if !begins_mark(rest, between) {
            return Ok((items, rest));
        }
        let (item, tail) = after_mark::<T>(alloc, rest, between)?;
        items.push(item)?;
        rest = tail;
    }
    Ok((items, rest))
}

/// As many as come before the mark.
pub fn until<'a, T: Production>(
    alloc: Global,
    tokens: &'a [Token],
    close: &[u8],
) -> Parsed<'a, Listed<T>>
    ensures { Gives (λ x. (x.0, x.1.now)) result (until_at close.now T.at tokens.now) }
{
    let mut items = Listed::new(alloc);
    let mut rest = tokens;
    'items: for _ in 0..tokens.len() {
        if !stands_before(rest, close) {
            return Ok((items, rest));
        }
        let (item, tail) = T::read(alloc, rest)?;
        items.push(item)?;
        rest = tail;
    }
    Ok((items, rest))
}

/// As many as begin with the word.
pub fn while_word<'a, T: Production>(
    alloc: Global,
    tokens: &'a [Token],
    word: &[u8],
) -> Parsed<'a, Listed<T>>
    ensures { Gives (λ x. (x.0, x.1.now)) result (while_at word.now T.at tokens.now) }
{
    let mut items = Listed::new(alloc);
    let mut rest = tokens;
    'items: for _ in 0..tokens.len() {
        if !begins(rest, word) {
            return Ok((items, rest));
        }
        let (item, tail) = T::read(alloc, rest)?;
        items.push(item)?;
        rest = tail;
    }
    Ok((items, rest))
}

/// One or more before the mark.
pub fn some_until<'a, T: Production>(
    alloc: Global,
    tokens: &'a [Token],
    close: &[u8],
) -> Parsed<'a, Listed<T>>
    ensures { Gives (λ x. (x.0, x.1.now)) result (some_at (until_at close.now T.at) tokens.now) }
{
    let (items, rest) = until(alloc, tokens, close)?;
    if items.as_slice().is_empty() {
        return Err(Halt::Syntax);
    }
    Ok((items, rest))
}

/// One or more that begin with the word.
pub fn some_while<'a, T: Production>(
    alloc: Global,
    tokens: &'a [Token],
    word: &[u8],
) -> Parsed<'a, Listed<T>>
    ensures { Gives (λ x. (x.0, x.1.now)) result (some_at (while_at word.now T.at) tokens.now) }
{
    let (items, rest) = while_word(alloc, tokens, word)?;
    if items.as_slice().is_empty() {
        return Err(Halt::Syntax);
    }
    Ok((items, rest))
}
