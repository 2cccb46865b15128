//! Tokens, and the front ends that have them.

use kit_base::{Listed, Name, Octets};

/// The language of a file.
#[derive(Clone, Copy, Debug, PartialEq, Eq)]
pub enum Front {
    /// CORBA IDL (OMG CORBA, chapter on IDL syntax and semantics).
    Corba,
    /// The ONC RPC language (RFC 4506 and RFC 5531).
    Onc,
    /// Definition files of MIG, the Mach interface generator.
    Mig,
}

/// A token, and the line on which it begins.
#[derive(Debug, Drop)]
pub struct Token {
    /// What it is.
    pub kind: TokenKind,
    /// The line on which it begins, from 1.
    pub line: u32,
}

/// What a token is.
#[derive(Debug, Drop)]
pub enum TokenKind {
    /// An identifier, or a word of the front end.
    Name(Name),
    /// A number from 0 up.
    Number(i128),
    /// A character, by its code.
    Char(u8),
    /// The octets of a string, without its quotes.
    Text(Octets),
    /// The name of a file, without what encloses it.
    FileName(Octets),
    /// One or two octets that are not a word.
    Mark(Octets),
}

/// The tokens of a text, in order.
pub type Tokens = Listed<Token>;
