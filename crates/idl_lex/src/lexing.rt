//! The tokens of a text.

ghost use Rattle.std.specs.Prelude.{◌≡◌, ◌++◌, IfOk, IfErr, OnOk};
ghost use Rattle.idl_lex.specs.Lexed.{AreTokens, Explains, token_on};
ghost use Rattle.idl_lex.specs.declared.lexing.LexErr.TheVariants.{NoMemory as OutOfMemory};

use crate::files::imports_on;
use crate::lines::line_past;
use crate::pieces::piece;
use crate::{Front, Token, TokenKind, Tokens};
use kit_base::NoMemory;
use std::alloc::Global;
use thiserror::Error;

/// What is wrong with a text, and at which octet, counted from 0.
#[derive(Clone, Copy, Debug, PartialEq, Eq, Error)]
pub enum LexErr {
    /// An octet that begins no piece, or a digit string that is not a number.
    #[error("BadOctet")]
    BadOctet(usize),
    /// A comment that is not closed.
    #[error("OpenComment")]
    OpenComment(usize),
    /// A number above 2^127 - 1.
    #[error("Wide")]
    Wide(usize),
    /// A line of a preprocessor that is not a line marker.
    #[error("Directive")]
    Directive(usize),
    /// No memory was there.
    #[error("NoMemory")]
    NoMemory,
}

impl From<NoMemory> for LexErr {
    ghost from_gives = { λ _ e. e ≡ OutOfMemory };

    fn from(_: NoMemory) -> LexErr {
        LexErr::NoMemory
    }
}

/// The tokens of a text, or its first fault.
pub fn lex(alloc: Global, front: Front, text: &[u8]) -> Result<Tokens, LexErr>
    ensures value { IfOk result (λ tokens. AreTokens front text.now tokens) }
    ensures stop { IfErr result (λ fault. Explains front text.now fault) }
{
    let mut tokens = Tokens::new(alloc);
    let mut line = 1;
    let mut at = 0;
    let mut imports = false;
    'pieces: while at < text.len() {
        let (before, rest) = text.split_at(at);
        match piece(alloc, front, imports, before, rest) {
            Ok((kind, n)) => {
                imports = imports_on(imports, &kind);
                put(&mut tokens, kind, line)?;
                line = line_past(line, &rest[..n]);
                at += n;
            }
            Err(fault) => return Err(fault),
        }
    }
    Ok(tokens)
}

/// Appends the token that a piece is.
fn put(tokens: &mut Tokens, kind: Option<TokenKind>, line: u32) -> Result<(), NoMemory>
    ensures { OnOk result (tokens.new ≡ tokens.old ++ token_on line kind) }
{
    match kind {
        Some(kind) => tokens.push(Token { kind, line }),
        None => Ok(()),
    }
}
