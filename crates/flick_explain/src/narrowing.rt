//! A definition without a tree, or without names, narrowed by halving to the part that has none, so that only this is cut
//! after each token.

use crate::files::is_mark;
use crate::furthest::Question;
use crate::separators::Separator;
use crate::statements::{Statement, statements_of};
use kit_base::{Listed, NoMemory};
use std::alloc::Global;

/// Places among tokens, in order.
pub type Places = Listed<usize>;

/// How often a range of places is halved at most.
const HALVES: u32 = 64;

/// Parts of a declaration, and an end that completes each of them.
#[derive(Clone, Copy)]
struct Parts<'p> {
    /// Where each begins, and where the last ends.
    places: &'p [usize],
    /// The end.
    end: &'static [u8],
    /// Whether it takes more than one of them to be at fault.
    is_joint: bool,
}

impl<'a> Question<'a> {
    /// The question about the part of the definition that has no tree, or a name at fault: alone, or where the fault is
    /// joint the first that cannot follow all before it.
    pub fn narrowed(&self, alloc: Global, is_joint: bool) -> Result<Question<'a>, NoMemory> {
        let declaration = match self.before {
            Some(_) => *self,
            None => self.declaration(alloc)?,
        };
        let part = declaration.part_of_long(alloc, is_joint)?;
        part.part_of_long(alloc, is_joint)
    }

    /// The question about the declaration of the definition that has no tree.
    fn declaration(&self, alloc: Global) -> Result<Question<'a>, NoMemory> {
        let places = self.declared(alloc)?;
        let parts = Parts {
            places: places.as_slice(),
            end: &[],
            is_joint: false,
        };
        self.failing(alloc, &parts)
    }

    /// The same question, where the tokens come after more of the declaration.
    fn after(&self, head: Statement) -> Question<'a> {
        let mut question = *self;
        match self.head {
            Some(_) => question.neck = Some(head),
            None => question.head = Some(head),
        }
        question
    }

    /// The same question about other tokens.
    fn over(&self, statement: Statement) -> Question<'a> {
        let mut question = *self;
        question.statement = statement;
        question
    }

    /// The question about the first part that is not completed: alone, or else after all before it.
    fn failing(&self, alloc: Global, parts: &Parts<'_>) -> Result<Question<'a>, NoMemory> {
        if !parts.is_joint {
            let part = self.over(self.first_failing(alloc, parts, false)?);
            if self.is_at(alloc, parts, part.statement)? {
                return Ok(part);
            }
        }
        let mut settled = self.over(self.first_failing(alloc, parts, true)?);
        settled.is_settled = settled.statement.end < self.statement.end;
        Ok(settled)
    }

    /// Whether a part that was found is the one at fault. Of names all before it are completed, and with it are not.
    fn is_at(&self, alloc: Global, parts: &Parts<'_>, part: Statement) -> Result<bool, NoMemory> {
        let is_last = part.end >= self.statement.end;
        if self.before.is_none() {
            return Ok(is_last || !self.over(part).is_completed(alloc, parts.end)?);
        }
        let first = place_at(parts.places, 0);
        let end = part.first;
        let before = self.over(Statement { first, end });
        let end = part.end;
        let with = self.over(Statement { first, end });
        if !before.is_completed(alloc, parts.end)? {
            return Ok(false);
        }
        Ok(is_last || !with.is_completed(alloc, parts.end)?)
    }

    /// Where the declarations of the definition begin, and where it ends.
    fn declared(&self, alloc: Global) -> Result<Places, NoMemory> {
        let statement = self.statement;
        let mut places = Places::new(alloc);
        places.push(statement.first)?;
        for other in statements_of(alloc, self.file.front, self.placed)?.as_slice() {
            if statement.has_inside(other.first) && self.follows(b";", other.first) {
                places.push(other.first)?;
            }
        }
        places.push(statement.end)?;
        Ok(places)
    }

    /// Whether a token follows a mark.
    fn follows(&self, mark: &[u8], i: usize) -> bool {
        match i.checked_sub(1) {
            Some(last) => is_mark(self.placed.kind(last), mark),
            None => false,
        }
    }

    /// The tokens of the first part that is not completed, which comes after all before it or after none.
    fn first_failing(
        &self,
        alloc: Global,
        parts: &Parts<'_>,
        is_after_all: bool,
    ) -> Result<Statement, NoMemory> {
        let mut low = 0usize;
        let mut high = parts.places.len().saturating_sub(1);
        for _ in 0..HALVES {
            let middle = low.saturating_add(high.saturating_sub(low) / 2);
            if middle <= low {
                return Ok(between(parts.places, low, high));
            }
            let first = if is_after_all { 0 } else { low };
            let half = self.over(between(parts.places, first, middle));
            if half.is_completed(alloc, parts.end)? {
                low = middle;
            } else {
                high = middle;
            }
        }
        Ok(between(parts.places, low, high))
    }

    /// Whether an end completes it.
    fn is_completed(&self, alloc: Global, end: &[u8]) -> Result<bool, NoMemory> {
        self.part(alloc, self.statement.end)?.ends_by(alloc, end)
    }

    /// The question about the part of a long declaration that cannot follow those before.
    fn part_of_long(&self, alloc: Global, is_joint: bool) -> Result<Question<'a>, NoMemory> {
        if self.is_settled || self.is_short() || self.neck.is_some() {
            return Ok(*self);
        }
        let Some(separator) = self.separator() else {
            return Ok(*self);
        };
        let places = self.separated(alloc, separator)?;
        let head = Statement {
            first: self.statement.first,
            end: place_at(places.as_slice(), 0),
        };
        let begun = self.over(head);
        if !begun.is_short() {
            return Ok(*self);
        }
        match begun.first_end(alloc, head.end)? {
            None => Ok(begun),
            Some(end) => {
                let parts = Parts {
                    places: places.as_slice(),
                    end,
                    is_joint,
                };
                self.after(head).failing(alloc, &parts)
            }
        }
    }

    /// The places after each separator, and the end.
    fn separated(&self, alloc: Global, separator: Separator) -> Result<Places, NoMemory> {
        let end = self.statement.end;
        let mut places = Places::new(alloc);
        let mut depth = 0usize;
        for i in self.statement.first..end {
            depth = self.depth_after(i, depth);
            if depth == separator.depth && is_mark(self.placed.kind(i), separator.mark) {
                places.push(i.saturating_add(1).min(end))?;
            }
        }
        places.push(end)?;
        Ok(places)
    }
}

/// The place of a number, from 0.
fn place_at(places: &[usize], i: usize) -> usize {
    match places.get(i) {
        Some(place) => *place,
        None => 0,
    }
}

/// The tokens between two places.
fn between(places: &[usize], low: usize, high: usize) -> Statement {
    Statement {
        first: place_at(places, low),
        end: place_at(places, high),
    }
}
