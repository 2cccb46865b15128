//! The declarations of a file, counted as refusals count them, and what is open around them.

use crate::files::{Placed, is_mark, is_word};
use idl_lex::{Front, Token, TokenKind};
use kit_base::{Listed, NoMemory};
use std::alloc::Global;

/// What has declarations of its own between its braces.
#[derive(Clone, Copy)]
pub enum Container {
    /// A module of a CORBA file.
    Module,
    /// An interface of a CORBA file.
    Interface,
    /// A program of an ONC file.
    Program,
    /// A version of a program.
    Version,
}

/// The tokens of a declaration: up to its `;`, or to the `{` after which others begin.
#[derive(Clone, Copy)]
pub struct Statement {
    /// The number of its first token, from 0.
    pub first: usize,
    /// The number after that of its last token.
    pub end: usize,
}

impl Statement {
    /// Whether a token is one of them, but the first.
    pub fn has_inside(&self, i: usize) -> bool {
        self.first < i && i < self.end
    }
}

/// Declarations, in order.
pub type Statements = Listed<Statement>;

/// The innermost brace that is open before a token.
#[derive(Clone, Copy)]
pub struct Around {
    /// The number of the brace among the tokens, from 1; 0 where none is open.
    pub brace: usize,
    /// What has its declarations in it; the braces of types have none.
    pub container: Option<Container>,
}

/// The innermost braces before each token and behind the last.
pub type Arounds = Listed<Around>;

/// No brace.
pub const NO_BRACE: Around = Around {
    brace: 0,
    container: None,
};

/// A walk over tokens: which braces are open, and whether a declaration may begin.
#[derive(Drop)]
struct Walk {
    front: Front,
    open: Vec<Around>,
    next: Option<Container>,
    passed: usize,
    round: u32,
    fresh: bool,
}

impl Walk {
    /// A walk that is before the first token.
    fn new(alloc: Global, front: Front) -> Walk {
        Walk {
            front,
            open: Vec::new(alloc),
            next: None,
            passed: 0,
            round: 0,
            fresh: true,
        }
    }

    /// The innermost brace that is open.
    fn innermost(&self) -> Around {
        match self.open.as_slice().last() {
            Some(around) => *around,
            None => NO_BRACE,
        }
    }

    /// Whether a declaration begins at the token.
    fn begins_at(&self, kind: &TokenKind) -> bool {
        self.fresh && !is_mark(Some(kind), b"}")
    }

    /// Passes a token.
    fn pass(&mut self, kind: &TokenKind) -> Result<(), NoMemory> {
        self.passed = self.passed.saturating_add(1);
        if self.begins_at(kind) {
            self.next = container_of(self.front, kind);
            self.fresh = false;
        }
        if is_mark(Some(kind), b"{") {
            return self.enter();
        }
        self.pass_other(kind);
        Ok(())
    }

    /// Passes a `{`.
    fn enter(&mut self) -> Result<(), NoMemory> {
        self.fresh = self.next.is_some();
        self.open.push(Around {
            brace: self.passed,
            container: self.next,
        })?;
        self.next = None;
        Ok(())
    }

    /// Passes a token that opens no brace.
    fn pass_other(&mut self, kind: &TokenKind) {
        if is_mark(Some(kind), b"}") {
            self.open.pop();
            self.fresh = false;
        }
        if is_mark(Some(kind), b"(") {
            self.round = self.round.saturating_add(1);
        }
        if is_mark(Some(kind), b")") {
            self.round = self.round.saturating_sub(1);
        }
        if is_mark(Some(kind), b";") && self.round == 0 && self.is_among_containers() {
            self.fresh = true;
        }
    }

    /// Whether no brace of a type is open.
    fn is_among_containers(&self) -> bool {
        let around = self.innermost();
        around.brace == 0 || around.container.is_some()
    }
}

/// What the declarations are in that a word begins.
fn container_of(front: Front, kind: &TokenKind) -> Option<Container> {
    match front {
        Front::Onc if is_word(Some(kind), b"program") => Some(Container::Program),
        Front::Onc if is_word(Some(kind), b"version") => Some(Container::Version),
        Front::Corba if is_word(Some(kind), b"module") => Some(Container::Module),
        Front::Corba if is_word(Some(kind), b"interface") => Some(Container::Interface),
        _ => None,
    }
}

/// The innermost braces before each token of a file and behind the last.
pub fn arounds_of(alloc: Global, front: Front, tokens: &[Token]) -> Result<Arounds, NoMemory> {
    let mut walk = Walk::new(alloc, front);
    let mut arounds = Arounds::new(alloc);
    for token in tokens {
        arounds.push(walk.innermost())?;
        walk.pass(&token.kind)?;
    }
    arounds.push(walk.innermost())?;
    Ok(arounds)
}

/// The declarations of a file, in the order in which refusals count them.
pub fn statements_of(alloc: Global, front: Front, placed: &Placed) -> Result<Statements, NoMemory> {
    let mut walk = Walk::new(alloc, front);
    let mut statements = Statements::new(alloc);
    let mut begun = None;
    for (i, token) in placed.tokens().iter().enumerate() {
        if walk.begins_at(&token.kind) {
            begun = Some(i);
        }
        walk.pass(&token.kind)?;
        if walk.fresh {
            begun = put_statement(&mut statements, begun, i.saturating_add(1))?;
        }
    }
    put_statement(&mut statements, begun, placed.len())?;
    Ok(statements)
}

/// Appends the declaration that began at a token, if one did, and answers that none did since.
fn put_statement(
    statements: &mut Statements,
    begun: Option<usize>,
    end: usize,
) -> Result<Option<usize>, NoMemory> {
    if let Some(first) = begun {
        statements.push(Statement { first, end })?;
    }
    Ok(None)
}

/// The declaration of a number, counted from 1.
pub fn statement_of(
    alloc: Global,
    front: Front,
    placed: &Placed,
    number: u32,
) -> Result<Option<Statement>, NoMemory> {
    let statements = statements_of(alloc, front, placed)?;
    match (number as usize).checked_sub(1) {
        Some(i) => Ok(statements.get(i).copied()),
        None => Ok(None),
    }
}
