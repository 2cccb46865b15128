//! `? bind`: the first declaration with which a file is not bound.

use crate::causes::bind_cause;
use crate::files::{File, Placed};
use crate::fronts::{Reached, reach_of};
use crate::furthest::put_closers;
use crate::lexing::put_cause;
use crate::names::declared;
use crate::narrowing::Places;
use crate::places::pointed;
use crate::statements::{Statement, Statements, statements_of};
use crate::text::{cut, shown};
use kit_base::{NoMemory, Octets};
use std::alloc::Global;

/// More than how often a range of declarations is halved.
const HALVES: u32 = 64;

/// What is said of `? bind WORD`.
pub fn bind_reported(
    alloc: Global,
    file: &File<'_>,
    word: &[u8],
) -> Result<Option<String>, NoMemory> {
    let Some(cause) = bind_cause(word) else {
        return Ok(None);
    };
    let Some(placed) = Placed::of(alloc, file)? else {
        return Ok(None);
    };
    let Some((number, statement)) = first_unbound(alloc, file, &placed)? else {
        return Ok(None);
    };
    let at = declared(&placed, statement);
    let name = shown(alloc, placed.octets(file.text, at))?;
    let message = format!(in alloc; "{} '{name}'", cause.what)?;
    let start = placed.start(file.text, at);
    let mut out = pointed(alloc, file.path, file.text, start, message.as_str())?;
    let line = format!(in alloc; "  in declaration {number}, '{name}'\n")?;
    out.push_str(line.as_str())?;
    put_cause(&mut out, &cause)?;
    Ok(Some(out))
}

/// The first declaration with which the file up to it is not bound, and its number.
fn first_unbound(
    alloc: Global,
    file: &File<'_>,
    placed: &Placed,
) -> Result<Option<(u32, Statement)>, NoMemory> {
    let statements = statements_of(alloc, file.front, placed)?;
    let wholes = wholes_of(alloc, placed, &statements)?;
    let mut low = 0usize;
    let mut high = wholes.len();
    for _ in 0..HALVES {
        if low >= high {
            return Ok(numbered(&statements, wholes.get(low)));
        }
        let middle = low.saturating_add(high.saturating_sub(low) / 2);
        let Some(statement) = numbered(&statements, wholes.get(middle)) else {
            return Ok(None);
        };
        if is_unbound(alloc, file, placed, statement.1)? {
            high = middle;
        } else {
            low = middle.saturating_add(1);
        }
    }
    Ok(None)
}

/// The places of the declarations that open no brace, among all.
fn wholes_of(alloc: Global, placed: &Placed, statements: &Statements) -> Result<Places, NoMemory> {
    let mut wholes = Places::new(alloc);
    for (i, statement) in statements.as_slice().iter().enumerate() {
        if placed.around(statement.end).brace != statement.end {
            wholes.push(i)?;
        }
    }
    Ok(wholes)
}

/// The declaration of a place, with its number.
fn numbered(statements: &Statements, place: Option<&usize>) -> Option<(u32, Statement)> {
    let place = *place?;
    let statement = *statements.get(place)?;
    match u32::try_from(place.saturating_add(1)) {
        Ok(number) => Some((number, statement)),
        Err(_) => None,
    }
}

/// Whether the file up to a declaration has a unit that is not bound.
fn is_unbound(
    alloc: Global,
    file: &File<'_>,
    placed: &Placed,
    statement: Statement,
) -> Result<bool, NoMemory> {
    let stop = placed.end_before(statement.end);
    let mut text = Octets::from_slice(alloc, cut(file.text, 0, stop))?;
    put_closers(&mut text, &placed.open(alloc, statement.end)?)?;
    match reach_of(alloc, file.front, file.back, text.as_slice())? {
        Reached::Unit => Ok(true),
        Reached::Text | Reached::Tree | Reached::Bound => Ok(false),
    }
}
