//! What a declaration of a long file depends on: the declarations before it whose names it has, and what they depend on.

use crate::completions::LONG;
use crate::files::{Placed, is_mark, is_word};
use crate::furthest::Question;
use crate::names::{declared, is_free};
use crate::statements::{Container, Statement, Statements, statements_of};
use crate::text::cut;
use idl_lex::{Front, TokenKind};
use kit_base::{Listed, NoMemory, Octets};
use std::alloc::Global;

/// The most names that are looked for.
const MOST_NAMES: usize = 256;

/// What is kept of the declarations before one.
#[derive(Drop)]
struct Kept<'q> {
    question: &'q Question<'q>,
    /// The names that are looked for.
    names: Listed<&'q [u8]>,
    /// Whether each brace is kept, by its number among the tokens, from 1.
    braces: Vec<bool>,
    /// Whether each declaration that opens no brace is kept, by its first token.
    firsts: Vec<bool>,
}

impl Question<'_> {
    /// The token after the longest beginning that can go on. In a long file it is looked for over what the declaration
    /// depends on alone, and counts where the whole file before cannot go on with it either.
    pub fn place(&self, alloc: Global) -> Result<usize, NoMemory> {
        if let Some(before) = self.few_before(alloc)? {
            let at = self.over_before(before.as_slice()).furthest(alloc)?;
            if at < self.statement.end && !self.goes_on(alloc, at.saturating_add(1))? {
                return Ok(at);
            }
        }
        self.furthest(alloc)
    }

    /// The same question, with other declarations before.
    fn over_before<'b>(&'b self, before: &'b [u8]) -> Question<'b> {
        Question {
            file: self.file,
            placed: self.placed,
            head: self.head,
            neck: self.neck,
            statement: self.statement,
            before: Some(before),
            is_settled: self.is_settled,
        }
    }

    /// What the declaration depends on, where the file before it is long and this is not.
    fn few_before(&self, alloc: Global) -> Result<Option<Octets>, NoMemory> {
        if !self.is_in_long() {
            return Ok(None);
        }
        let statements = statements_of(alloc, self.file.front, self.placed)?;
        let many = self.placed.len().saturating_add(1);
        let mut kept = Kept {
            question: self,
            names: Listed::new(alloc),
            braces: vec![in alloc; false; many]?,
            firsts: vec![in alloc; false; many]?,
        };
        for piece in self.pieces(self.statement.end) {
            kept.want(piece)?;
        }
        kept.keep_around(self.first());
        for statement in statements.as_slice().iter().rev() {
            if statement.end <= self.first() {
                kept.look(*statement)?;
            }
        }
        let before = kept.written(alloc, &statements)?;
        if before.len() > LONG || kept.names.len() >= MOST_NAMES {
            return Ok(None);
        }
        Ok(Some(before))
    }
}

impl<'q> Kept<'q> {
    /// Looks for the names of tokens too.
    fn want(&mut self, tokens: Statement) -> Result<(), NoMemory> {
        for i in tokens.first..tokens.end {
            if self.names.len() < MOST_NAMES && is_free(self.question, i) && !self.is_wanted(i) {
                self.names.push(name_of(self.question.placed, i))?;
            }
        }
        Ok(())
    }

    /// Whether the name at a token is looked for, in letters of any case.
    fn is_wanted(&self, i: usize) -> bool {
        let name = name_of(self.question.placed, i);
        for other in self.names.as_slice() {
            if other.eq_ignore_ascii_case(name) {
                return !name.is_empty();
            }
        }
        false
    }

    /// Keeps the braces around a token.
    fn keep_around(&mut self, i: usize) {
        let mut around = self.question.placed.around(i);
        for _ in 0..self.braces.len() {
            let brace = around.brace;
            if brace == 0 || brace >= self.braces.len() || self.braces[brace] {
                return;
            }
            self.braces[brace] = true;
            around = self.question.placed.around(brace.saturating_sub(1));
        }
    }

    /// Keeps a declaration where it has a name that is looked for, and then looks for its names too.
    fn look(&mut self, statement: Statement) -> Result<(), NoMemory> {
        let opened = self.question.placed.around(statement.end);
        let is_opener = opened.brace == statement.end;
        let is_kept = if statement.first == 0 && self.question.file.front == Front::Mig {
            true
        } else if is_opener {
            let is_interface = matches!(opened.container, Some(Container::Interface));
            is_interface && self.declares(statement) || self.has_brace(opened.brace)
        } else {
            self.declares(statement)
        };
        if !is_kept {
            return Ok(());
        }
        if is_opener {
            self.keep_around(statement.end);
        } else {
            self.keep_around(statement.first);
            if statement.first < self.firsts.len() {
                self.firsts[statement.first] = true;
            }
        }
        self.want(statement)
    }

    /// Whether a brace is kept.
    fn has_brace(&self, brace: usize) -> bool {
        match self.braces.get(brace) {
            Some(is_kept) => *is_kept,
            None => false,
        }
    }

    /// Whether a declaration declares a name that is looked for.
    fn declares(&self, statement: Statement) -> bool {
        let placed = self.question.placed;
        if self.is_wanted(declared(placed, statement)) {
            return true;
        }
        has_many(placed, statement) && (statement.first..statement.end).any(|i| self.is_wanted(i))
    }

    /// The declarations that are kept, in the containers that are.
    fn written(&self, alloc: Global, statements: &Statements) -> Result<Octets, NoMemory> {
        let first = self.question.first();
        let mut out = Octets::new(alloc);
        let mut end = 0usize;
        for statement in statements.as_slice() {
            self.put_ends(&mut out, end, statement.first.min(first))?;
            if statement.end > first {
                return Ok(out);
            }
            end = statement.end;
            if self.has_brace(end) || self.is_first(statement.first) {
                self.put(&mut out, statement.first, end)?;
            }
        }
        Ok(out)
    }

    /// Whether a declaration that opens no brace is kept.
    fn is_first(&self, first: usize) -> bool {
        match self.firsts.get(first) {
            Some(is_kept) => *is_kept,
            None => false,
        }
    }

    /// Appends the ends of containers that are kept, among tokens that are ends of containers.
    fn put_ends(&self, out: &mut Octets, first: usize, end: usize) -> Result<(), NoMemory> {
        let placed = self.question.placed;
        let mut is_kept = false;
        for i in first..end {
            if is_mark(placed.kind(i), b"}") {
                is_kept = self.has_brace(placed.around(i).brace);
            }
            if is_kept {
                self.put(out, i, i.saturating_add(1))?;
            }
        }
        Ok(())
    }

    /// Appends tokens.
    fn put(&self, out: &mut Octets, first: usize, end: usize) -> Result<(), NoMemory> {
        let placed = self.question.placed;
        let text = self.question.file.text;
        out.append(cut(text, placed.start(text, first), placed.end_before(end)))?;
        out.append(b" ")
    }
}

/// The name at a token, if it is one.
fn name_of(placed: &Placed, i: usize) -> &[u8] {
    match placed.kind(i) {
        Some(TokenKind::Name(name)) => name.as_slice(),
        _ => &[],
    }
}

/// Whether a declaration declares more than one name: it has no brackets, or an enum.
fn has_many(placed: &Placed, statement: Statement) -> bool {
    let mut is_plain = true;
    for i in statement.first..statement.end {
        let kind = placed.kind(i);
        if is_word(kind, b"enum") {
            return true;
        }
        if is_mark(kind, b"{") || is_mark(kind, b"(") {
            is_plain = false;
        }
    }
    is_plain
}
