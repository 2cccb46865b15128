//! Lexes the text on standard input, or lexes and parses it, so that what an octet costs can be counted:
//! [onc|corba|parse].

#![tactic(auto)]

use anyhow::{Result, bail};
use corba_syntax::{SyntaxErr, parse};
use idl_lex::{Front, lex};
use std::env;
use std::io::Read;

/// What is done with the text.
#[derive(Clone, Copy, PartialEq, Eq)]
enum Verb {
    /// Lex it as ONC text.
    Onc,
    /// Lex it as CORBA text.
    Corba,
    /// Lex it as CORBA text, and parse the tokens.
    Parse,
}

fn verb_of(word: &str) -> Option<Verb> {
    match word {
        "onc" => Some(Verb::Onc),
        "corba" => Some(Verb::Corba),
        "parse" => Some(Verb::Parse),
        _ => None,
    }
}

fn main(rt: HostRuntime) -> Result<()> {
    let verb = match env::args(&rt)?.skip(1).next() {
        Some(word) => verb_of(word.as_str()),
        None => Some(Verb::Onc),
    };
    let Some(verb) = verb else {
        bail!("usage: bench_lex [onc|corba|parse]");
    };
    let mut text = Vec::new(rt.alloc());
    rt.reader().read_to_end(&mut text)?;
    let read = if verb == Verb::Onc {
        lex(rt.alloc(), Front::Onc, &text)
    } else {
        lex(rt.alloc(), Front::Corba, &text)
    };
    let tokens = match read {
        Ok(tokens) => tokens,
        Err(fault) => bail!("{fault:?}"),
    };
    if verb != Verb::Parse {
        println!(rt; "{} tokens", tokens.len())?;
        return Ok(());
    }
    match parse(rt.alloc(), &tokens) {
        Ok(tree) => println!(rt; "{} definitions", tree.len())?,
        Err(SyntaxErr::Syntax(line)) => println!(rt; "syntax {line}")?,
        Err(SyntaxErr::NoMemory) => bail!("no memory"),
    }
    Ok(())
}
