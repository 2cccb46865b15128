//! Tokens written anew: one blank after each, long ones as short ones of their kind; and what closes their brackets.

use crate::files::{Placed, is_mark};
use crate::furthest::Question;
use crate::statements::Statement;
use idl_lex::TokenKind;
use kit_base::{NoMemory, Octets};
use std::alloc::Global;

/// The most octets of a token that is written as it is.
const LONGEST: usize = 64;

/// How many brackets are open where those that models close are not enough.
const MANY: usize = 2;

/// Appends tokens.
pub fn put_tokens(
    out: &mut Octets,
    placed: &Placed,
    text: &[u8],
    tokens: Statement,
) -> Result<(), NoMemory> {
    for i in tokens.first..tokens.end {
        let octets = placed.octets(text, i);
        if octets.len() > LONGEST {
            out.append(short(placed.kind(i)))?;
        } else {
            out.append(octets)?;
        }
        out.append(b" ")?;
    }
    Ok(())
}

/// A short token of a kind that may be long.
fn short(kind: Option<&TokenKind>) -> &'static [u8] {
    match kind {
        Some(TokenKind::Name(_)) => b"qz3",
        Some(TokenKind::Number(_)) => b"1",
        Some(TokenKind::Text(_)) => b"\"q\"",
        _ => b"<q>",
    }
}

/// What closes what is open in a declaration.
#[derive(Drop)]
pub struct Closing {
    /// The brackets within the innermost brace, where models do not close so many.
    pub brackets: Octets,
    /// The braces of types.
    pub braces: Octets,
}

/// What closes what is open in a declaration before a token.
pub fn closing_before(
    alloc: Global,
    question: &Question<'_>,
    end: usize,
) -> Result<Closing, NoMemory> {
    let open = open_in(alloc, question, end)?;
    let mut brackets = Octets::new(alloc);
    let mut braces = Octets::new(alloc);
    for closer in open.as_slice().iter().rev() {
        if *closer == b'}' {
            braces.append(b" } ;")?;
        } else if braces.len() == 0 {
            brackets.append(b" ")?;
            brackets.push(*closer)?;
        }
    }
    Ok(Closing { brackets, braces })
}

/// What closes each bracket of a declaration that is open before a token, where they are many.
fn open_in(alloc: Global, question: &Question<'_>, end: usize) -> Result<Vec<u8>, NoMemory> {
    let mut open = Vec::new(alloc);
    for piece in question.pieces(end) {
        for i in piece.first..piece.end {
            pass(&mut open, question.placed, i)?;
        }
    }
    if open.len() <= MANY {
        open.clear();
    }
    Ok(open)
}

/// Passes a token.
fn pass(open: &mut Vec<u8>, placed: &Placed, i: usize) -> Result<(), NoMemory> {
    let Some(TokenKind::Mark(mark)) = placed.kind(i) else {
        return Ok(());
    };
    match mark.as_slice() {
        b"(" => open.push(b')')?,
        b"[" => open.push(b']')?,
        b"<" => open.push(b'>')?,
        b"{" if placed.around(i.saturating_add(1)).container.is_none() => open.push(b'}')?,
        b")" | b"]" | b">" | b"}" => {
            open.pop();
        }
        b">>" => {
            open.pop();
            open.pop();
        }
        _ => {}
    }
    Ok(())
}
