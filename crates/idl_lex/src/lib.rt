//! The tokens of interface files.
//!
//! [`lex`] reads a text once from left to right and gives its tokens, each with its line, or the
//! first fault with its place. [`Front`] says by which language's rules.
#![tactic(auto)]

mod classes;
mod files;
mod kinds;
mod laws;
mod lexing;
mod lines;
mod numbers;
mod pieces;
mod quotes;

pub use kinds::{Front, Token, TokenKind, Tokens};
pub use laws::{
    fault_is_determined, pieces_are_determined, pieces_leave_no_fault, texts_are_decided,
};
pub use lexing::{LexErr, lex};
