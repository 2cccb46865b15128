//! The token at which a declaration cannot go on: the one after the longest beginning that some end was found for.

use crate::completions::{Ends, LONG, Part};
use crate::files::{File, Open, Placed};
use crate::models::{closer, opener};
use crate::respelled::{closing_before, put_tokens};
use crate::statements::{Container, Statement};
use crate::text::cut;
use idl_lex::Front;
use kit_base::{NoMemory, Octets};
use std::alloc::Global;

/// How many tokens are looked at past one that nothing was found for.
const AHEAD: usize = 12;

/// The same where the file is long.
const AHEAD_IN_LONG: usize = 5;

/// The most tokens of a declaration that is short.
pub const FEW: usize = 64;

/// How often the tokens that are looked at are doubled.
const DOUBLES: u32 = 8;

/// More than how often a range of tokens is halved.
const HALVES: u32 = 64;

/// A declaration, and whether its names are to be resolved.
#[derive(Clone, Copy)]
pub struct Question<'a> {
    /// The file.
    pub file: &'a File<'a>,
    /// Its tokens.
    pub placed: &'a Placed,
    /// How it begins, where the statement is a later part of it.
    pub head: Option<Statement>,
    /// How that part begins, where the statement is a later part of it again.
    pub neck: Option<Statement>,
    /// The declaration, or the part of it that is looked at.
    pub statement: Statement,
    /// What comes before the declaration in the file, where names are to be resolved.
    pub before: Option<&'a [u8]>,
    /// Whether the part is known to be the one that cannot go on.
    pub is_settled: bool,
}

impl<'a> Question<'a> {
    /// The question about a declaration.
    pub fn of(
        file: &'a File<'a>,
        placed: &'a Placed,
        statement: Statement,
        before: Option<&'a [u8]>,
    ) -> Question<'a> {
        Question {
            file,
            placed,
            head: None,
            neck: None,
            statement,
            before,
            is_settled: false,
        }
    }

    /// The question about tokens, whose names are not to be resolved.
    pub fn of_text(file: &'a File<'a>, placed: &'a Placed, statement: Statement) -> Question<'a> {
        Question::of(file, placed, statement, None)
    }

    /// The first token of the declaration.
    pub fn first(&self) -> usize {
        match self.head {
            Some(head) => head.first,
            None => self.statement.first,
        }
    }

    /// Whether few tokens are looked at.
    pub fn is_short(&self) -> bool {
        self.statement.end.saturating_sub(self.statement.first) <= FEW
    }

    /// The declaration before a token.
    pub fn part(&self, alloc: Global, end: usize) -> Result<Part, NoMemory> {
        let open = self.placed.open(alloc, end)?;
        let mut closers = Octets::new(alloc);
        put_closers(&mut closers, &open)?;
        Ok(Part {
            front: self.file.front,
            own: self.own(alloc, end)?,
            whole: self.whole(alloc, end)?,
            closing: closing_before(alloc, self, end)?,
            closers,
        })
    }

    /// The declaration before a token, in containers of names of their own.
    fn own(&self, alloc: Global, end: usize) -> Result<Octets, NoMemory> {
        let mut own = Octets::new(alloc);
        if self.file.front == Front::Mig && self.first() > 0 {
            own.append(b"subsystem qz4 1 ; ")?;
        }
        let open = self.placed.open(alloc, self.first())?;
        for container in open.as_slice().iter().rev() {
            put_opener(&mut own, *container)?;
        }
        for piece in self.pieces(end) {
            put_tokens(&mut own, self.placed, self.file.text, piece)?;
        }
        Ok(own)
    }

    /// The file before a token.
    fn whole(&self, alloc: Global, end: usize) -> Result<Option<Octets>, NoMemory> {
        let Some(before) = self.before else {
            return Ok(None);
        };
        let mut whole = Octets::from_slice(alloc, before)?;
        for piece in self.pieces(end) {
            whole.append(b" ")?;
            whole.append(self.octets(piece))?;
        }
        Ok(Some(whole))
    }

    /// How the declaration begins, how its part does, and what is looked at before a token.
    pub fn pieces(&self, end: usize) -> [Statement; 3] {
        let first = self.statement.first;
        [
            piece_of(self.head),
            piece_of(self.neck),
            Statement { first, end },
        ]
    }

    /// The octets of tokens.
    fn octets(&self, tokens: Statement) -> &[u8] {
        if tokens.end <= tokens.first {
            return &[];
        }
        let text = self.file.text;
        let start = self.placed.start(text, tokens.first);
        cut(text, start, self.placed.end_before(tokens.end))
    }

    /// Whether the declaration can go on after the tokens before one of them.
    pub fn goes_on(&self, alloc: Global, end: usize) -> Result<bool, NoMemory> {
        self.part(alloc, end)?.goes_on(alloc)
    }

    /// The first end that is found after the tokens before one of them.
    pub fn first_end(&self, alloc: Global, end: usize) -> Result<Option<&'static [u8]>, NoMemory> {
        self.part(alloc, end)?.first_end(alloc)
    }

    /// The ends that are found after the tokens before one of them.
    pub fn ends(&self, alloc: Global, end: usize) -> Result<Ends, NoMemory> {
        if self.is_settled {
            return Ok(Ends::new(alloc));
        }
        self.part(alloc, end)?.ends(alloc)
    }

    /// Whether names are to be resolved in a long file.
    pub fn is_in_long(&self) -> bool {
        match self.before {
            Some(before) => before.len() > LONG,
            None => false,
        }
    }

    /// The number of the first token after the longest beginning that can go on; that after the last where all can.
    pub fn furthest(&self, alloc: Global) -> Result<usize, NoMemory> {
        let mut low = self.statement.first;
        if self.is_settled {
            return Ok(low);
        }
        if self.is_in_long() {
            low = self.halved(alloc, low)?;
            return Ok(self.ahead(alloc, low, AHEAD_IN_LONG)?.unwrap_or(low));
        }
        if self.is_short() && self.goes_on(alloc, self.statement.end)? {
            return Ok(self.statement.end);
        }
        let rounds = if self.is_short() { HALVES } else { 1 };
        for _ in 0..rounds {
            low = self.halved(alloc, low)?;
            match self.ahead(alloc, low, AHEAD)? {
                Some(next) => low = next,
                None => return Ok(low),
            }
        }
        Ok(low)
    }

    /// A token from `low` on where the declaration before can go on, and with it cannot.
    fn halved(&self, alloc: Global, low: usize) -> Result<usize, NoMemory> {
        let reached = self.doubled(alloc, low)?;
        let mut low = reached.first;
        let mut high = reached.end;
        for _ in 0..HALVES {
            let middle = low.saturating_add(high.saturating_sub(low) / 2);
            if middle <= low {
                return Ok(low);
            }
            if self.goes_on(alloc, middle)? {
                low = middle;
            } else {
                high = middle;
            }
        }
        Ok(low)
    }

    /// Tokens from `low` on, before the first of which the declaration can go on and before the last cannot.
    fn doubled(&self, alloc: Global, low: usize) -> Result<Statement, NoMemory> {
        let mut first = low;
        let mut many = FEW;
        for _ in 0..DOUBLES {
            let end = first.saturating_add(many);
            if end >= self.statement.end {
                let end = self.statement.end;
                return Ok(Statement { first, end });
            }
            if !self.goes_on(alloc, end)? {
                return Ok(Statement { first, end });
            }
            first = end;
            many = many.saturating_add(many);
        }
        Ok(Statement { first, end: first })
    }

    /// The furthest of the next tokens before which the declaration can go on.
    fn ahead(&self, alloc: Global, low: usize, many: usize) -> Result<Option<usize>, NoMemory> {
        let last = low.saturating_add(many).min(self.statement.end);
        for end in (low.saturating_add(2)..last.saturating_add(1)).rev() {
            if self.goes_on(alloc, end)? {
                return Ok(Some(end));
            }
        }
        Ok(None)
    }
}

/// The tokens, or none.
fn piece_of(tokens: Option<Statement>) -> Statement {
    match tokens {
        Some(tokens) => tokens,
        None => Statement { first: 0, end: 0 },
    }
}

/// Appends how a container begins.
fn put_opener(out: &mut Octets, container: Option<Container>) -> Result<(), NoMemory> {
    match container {
        Some(container) => out.append(opener(container)),
        None => Ok(()),
    }
}

/// Appends how the containers end, the innermost first.
pub fn put_closers(out: &mut Octets, open: &Open) -> Result<(), NoMemory> {
    for container in open.as_slice() {
        match container {
            Some(container) => out.append(closer(*container))?,
            None => {}
        }
    }
    Ok(())
}
