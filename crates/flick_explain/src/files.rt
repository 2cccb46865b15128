//! An interface file, its tokens, and where they are.

use crate::fronts::tokens_of;
use crate::statements::{Around, Arounds, Container, NO_BRACE, arounds_of};
use crate::text::cut;
use crate::tokens::{Spans, spans_of};
use idl_lex::{Front, Token, TokenKind, Tokens};
use kit_base::{Listed, NoMemory};
use std::alloc::Global;
use wire_def::Back;

/// An interface file that a run was over.
#[derive(Clone, Copy)]
pub struct File<'a> {
    /// Its language.
    pub front: Front,
    /// The back end of the run.
    pub back: Back,
    /// Its path, as the words give it.
    pub path: &'a [u8],
    /// Its octets.
    pub text: &'a [u8],
}

/// The tokens of a file, each with its span and the braces around it.
#[derive(Drop)]
pub struct Placed {
    tokens: Tokens,
    spans: Spans,
    arounds: Arounds,
}

/// The braces that are open at a place, the innermost first, each with what has its declarations in it.
pub type Open = Listed<Option<Container>>;

impl Placed {
    /// The tokens of a file, where it has some.
    pub fn of(alloc: Global, file: &File<'_>) -> Result<Option<Placed>, NoMemory> {
        match tokens_of(alloc, file.front, file.text)? {
            Some(tokens) => {
                let spans = spans_of(alloc, file.front, file.text, &tokens)?;
                let arounds = arounds_of(alloc, file.front, tokens.as_slice())?;
                Ok(Some(Placed {
                    tokens,
                    spans,
                    arounds,
                }))
            }
            None => Ok(None),
        }
    }

    /// How many tokens there are.
    pub fn len(&self) -> usize {
        self.tokens.len()
    }

    /// The tokens.
    pub fn tokens(&self) -> &[Token] {
        self.tokens.as_slice()
    }

    /// The token at a place among them, from 0.
    pub fn kind(&self, i: usize) -> Option<&TokenKind> {
        match self.tokens.get(i) {
            Some(token) => Some(&token.kind),
            None => None,
        }
    }

    /// The first octet of a token; the end of the text where there is none.
    pub fn start(&self, text: &[u8], i: usize) -> usize {
        match self.spans.get(i) {
            Some(span) => span.start,
            None => text.len(),
        }
    }

    /// The octet after the last of the tokens before one of them.
    pub fn end_before(&self, i: usize) -> usize {
        match i.checked_sub(1) {
            Some(last) => match self.spans.get(last) {
                Some(span) => span.end,
                None => 0,
            },
            None => 0,
        }
    }

    /// The innermost brace that is open before a token.
    pub fn around(&self, i: usize) -> Around {
        match self.arounds.get(i) {
            Some(around) => *around,
            None => NO_BRACE,
        }
    }

    /// The braces that are open before a token.
    pub fn open(&self, alloc: Global, i: usize) -> Result<Open, NoMemory> {
        let mut open = Open::new(alloc);
        let mut around = self.around(i);
        for _ in self.tokens() {
            let Some(brace) = around.brace.checked_sub(1) else {
                return Ok(open);
            };
            open.push(around.container)?;
            around = self.around(brace);
        }
        Ok(open)
    }

    /// The octets of a token.
    pub fn octets<'t>(&self, text: &'t [u8], i: usize) -> &'t [u8] {
        match self.spans.get(i) {
            Some(span) => cut(text, span.start, span.end),
            None => &[],
        }
    }
}

/// Whether a token is this mark.
pub fn is_mark(kind: Option<&TokenKind>, mark: &[u8]) -> bool {
    match kind {
        Some(TokenKind::Mark(octets)) => octets.as_slice() == mark,
        _ => false,
    }
}

/// Whether a token is this word.
pub fn is_word(kind: Option<&TokenKind>, word: &[u8]) -> bool {
    match kind {
        Some(TokenKind::Name(octets)) => octets.as_slice() == word,
        _ => false,
    }
}
