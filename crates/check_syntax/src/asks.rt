//! What is asked of a text.

ghost use Rattle.std.specs.Prelude.{◌≤◌, IfOk};

use crate::declared::put_declaration;
use crate::shown::{put_expr, put_token, put_type};
use aoi::{Field, Operation, Ty, Unit};
use check_rows::{Answers, Bad};
use corba_decls::{Declaration, declaration, type_name};
use corba_syntax::{SyntaxErr, parse};
use front_corba::{NameFault, files_are_whole, resolve};
use idl_exprs::expression;
use idl_lex::{Front, LexErr, Token, Tokens, lex};
use idl_read::Halt;
use serde_json::Value as Json;
use std::alloc::Global;

/// The cases of lexing and parsing.
pub struct Cases;

impl Answers for Cases {
    fn answer(alloc: Global, row: &Json) -> Result<String, Bad> {
        let text = text_of(alloc, row)?;
        match lex(alloc, front_of(row), text.as_bytes()) {
            Ok(tokens) => reported(alloc, row, &tokens),
            Err(LexErr::BadOctet(at)) => Ok(format!(in alloc; "BadOctet {at}")?),
            Err(LexErr::OpenComment(at)) => Ok(format!(in alloc; "OpenComment {at}")?),
            Err(LexErr::Wide(at)) => Ok(format!(in alloc; "Wide {at}")?),
            Err(LexErr::Directive(at)) => Ok(format!(in alloc; "Directive {at}")?),
            Err(LexErr::NoMemory) => Err(Bad::NoMemory),
        }
    }
}

/// The language of a case's text: CORBA IDL where the case names no other.
fn front_of(row: &Json) -> Front {
    match row.get("front") {
        Some(front) => match front.as_str() {
            Some("onc") => Front::Onc,
            Some("mig") => Front::Mig,
            _ => Front::Corba,
        },
        None => Front::Corba,
    }
}

/// The text of a case: a string, or strings one after the other.
fn text_of(alloc: Global, row: &Json) -> Result<String, Bad> {
    let mut text = String::new(alloc);
    let Some(part) = row.get("text") else {
        return Err(Bad::Row("no text"));
    };
    match (part.as_str(), part.as_array()) {
        (Some(whole), _) => text.push_str(whole)?,
        (None, Some(parts)) => {
            for one in parts.as_slice() {
                match one.as_str() {
                    Some(piece) => text.push_str(piece)?,
                    None => return Err(Bad::Row("no text")),
                }
            }
        }
        (None, None) => return Err(Bad::Row("no text")),
    }
    Ok(text)
}

/// How many levels a case gives: 32 where it says nothing.
fn levels_of(row: &Json) -> Result<u32, Bad>
    ensures { IfOk result (λ n. n ≤ 32) }
{
    match row.get("levels") {
        Some(levels) => match levels.as_u64() {
            Some(n) if n <= 32 => Ok(n as u32),
            _ => Err(Bad::Row("no number of levels")),
        },
        None => Ok(32),
    }
}

/// The answer to what a case asks about the tokens.
fn reported(alloc: Global, row: &Json, tokens: &Tokens) -> Result<String, Bad> {
    let levels = levels_of(row)?;
    let Some(ask) = row.get("ask") else {
        return Err(Bad::Row("nothing is asked"));
    };
    match ask.as_str() {
        Some("lex") => tokens_reported(alloc, tokens.as_slice()),
        Some("file") => file_reported(alloc, tokens),
        Some("corba unit") => unit_reported(alloc, tokens),
        Some("mig file") => mig_file_reported(alloc, tokens),
        Some("type") => type_reported(alloc, levels, tokens.as_slice()),
        Some("expression") => expression_reported(alloc, levels, tokens.as_slice()),
        Some("declaration") => declaration_reported(alloc, levels, tokens.as_slice()),
        _ => Err(Bad::Row("nothing is asked")),
    }
}

/// The tokens.
fn tokens_reported(alloc: Global, tokens: &[Token]) -> Result<String, Bad> {
    let mut out = String::new(alloc);
    for token in tokens {
        put_token(alloc, &mut out, token)?;
    }
    Ok(out)
}

/// `ok`, or the line where the first definition that fails begins.
fn file_reported(alloc: Global, tokens: &Tokens) -> Result<String, Bad> {
    match parse(alloc, tokens) {
        Ok(_) => Ok(format!(in alloc; "ok")?),
        Err(SyntaxErr::Syntax(line)) => Ok(format!(in alloc; "syntax {line}")?),
        Err(SyntaxErr::NoMemory) => Err(Bad::NoMemory),
    }
}

/// `ok`, or the first fault of the names and the number of its declaration, or the line where the text fails.
fn unit_reported(alloc: Global, tokens: &Tokens) -> Result<String, Bad> {
    files_are_whole();
    match parse(alloc, tokens) {
        Ok(tree) => match resolve(alloc, &tree) {
            Ok(unit) => units_reported(alloc, &unit),
            Err(fault) if fault.fault == NameFault::NoMemory => Err(Bad::NoMemory),
            Err(fault) => Ok(format!(in alloc; "name {} {}", fault.fault, fault.decl)?),
        },
        Err(SyntaxErr::Syntax(line)) => Ok(format!(in alloc; "syntax {line}")?),
        Err(SyntaxErr::NoMemory) => Err(Bad::NoMemory),
    }
}

/// The number of types, and each interface with its operations.
fn units_reported(alloc: Global, unit: &Unit) -> Result<String, Bad> {
    let mut out = format!(in alloc; "ok {}", unit.types().len())?;
    for i in unit.interfaces().as_slice() {
        let text = format!(in alloc;
            " {} {} {} {} {}:",
            shown(alloc, i.name.as_slice())?,
            i.program,
            i.version,
            i.base,
            i.slots
        )?;
        out.push_str(text.as_str())?;
        for o in i.ops.as_slice() {
            put_operation(alloc, &mut out, o)?;
        }
    }
    Ok(out)
}

/// An operation: its name, its numbers, its parameters, its exceptions, and whether it is oneway.
fn put_operation(alloc: Global, out: &mut String, o: &Operation) -> Result<(), Bad> {
    let text = format!(in alloc;
        " {}/{}/{}(",
        shown(alloc, o.name.as_slice())?,
        o.proc_no,
        o.slot
    )?;
    out.push_str(text.as_str())?;
    put_fields(alloc, out, o.ins.as_slice())?;
    out.push_str(")->(")?;
    put_fields(alloc, out, o.outs.as_slice())?;
    out.push_str(if o.oneway { ")oneway" } else { ")" })?;
    out.push_str(if matches!(o.result.get(), Ty::Void) {
        "void"
    } else {
        ""
    })?;
    for e in o.raises.as_slice() {
        out.push_str(" ")?;
        let name = e.name.get().whole(alloc)?;
        out.push_str(shown(alloc, name.as_slice())?.as_str())?;
        out.push_str("=")?;
        let id = e.id.get().whole(alloc)?;
        out.push_str(shown(alloc, id.as_slice())?.as_str())?;
        out.push_str("{")?;
        put_fields(alloc, out, e.members.get().as_slice())?;
        out.push_str("}")?;
    }
    Ok(())
}

/// The names of fields.
fn put_fields(alloc: Global, out: &mut String, fields: &[Field]) -> Result<(), Bad> {
    for field in fields {
        out.push_str(shown(alloc, field.name.as_slice())?.as_str())?;
        out.push_str(",")?;
    }
    Ok(())
}

/// A name as text.
fn shown(alloc: Global, name: &[u8]) -> Result<String, Bad> {
    match str::from_utf8(name) {
        Ok(text) => {
            let mut out = String::new(alloc);
            out.push_str(text)?;
            Ok(out)
        }
        Err(_) => Err(Bad::Row("no text")),
    }
}

/// `ok`, or the line where the first statement that fails begins.
fn mig_file_reported(alloc: Global, tokens: &Tokens) -> Result<String, Bad> {
    match mig_syntax::parse(alloc, tokens) {
        Ok(_) => Ok(format!(in alloc; "ok")?),
        Err(SyntaxErr::Syntax(line)) => Ok(format!(in alloc; "syntax {line}")?),
        Err(SyntaxErr::NoMemory) => Err(Bad::NoMemory),
    }
}

/// The type that comes first, and how many tokens come after it.
fn type_reported(alloc: Global, levels: u32, tokens: &[Token]) -> Result<String, Bad>
    requires { levels ≤ 32 }
{
    let mut out = String::new(alloc);
    match type_name(alloc, levels, tokens) {
        Ok((name, rest)) => {
            put_type(alloc, &mut out, &name)?;
            put_rest(alloc, &mut out, rest)?;
        }
        Err(halt) => put_halt(&mut out, halt)?,
    }
    Ok(out)
}

/// The expression that comes first, and how many tokens come after it.
fn expression_reported(alloc: Global, levels: u32, tokens: &[Token]) -> Result<String, Bad>
    requires { levels ≤ 32 }
{
    let mut out = String::new(alloc);
    match expression(alloc, levels, false, tokens) {
        Ok((expr, rest)) => {
            put_expr(alloc, &mut out, &expr)?;
            put_rest(alloc, &mut out, rest)?;
        }
        Err(halt) => put_halt(&mut out, halt)?,
    }
    Ok(out)
}

/// The declaration that comes first, and how many tokens come after it.
fn declaration_reported(alloc: Global, levels: u32, tokens: &[Token]) -> Result<String, Bad>
    requires { levels ≤ 32 }
{
    match declaration(alloc, levels, tokens) {
        Ok((item, rest)) => declared_reported(alloc, &item, rest),
        Err(Halt::Syntax) => Ok(format!(in alloc; "syntax")?),
        Err(Halt::NoMemory) => Err(Bad::NoMemory),
    }
}

/// A declaration, and how many tokens come after it.
fn declared_reported(alloc: Global, item: &Declaration, rest: &[Token]) -> Result<String, Bad> {
    let mut out = String::new(alloc);
    put_declaration(alloc, &mut out, item)?;
    put_rest(alloc, &mut out, rest)?;
    Ok(out)
}

fn put_rest(alloc: Global, out: &mut String, rest: &[Token]) -> Result<(), Bad> {
    let left = format!(in alloc; " {}", rest.len())?;
    out.push_str(left.as_str())?;
    Ok(())
}

fn put_halt(out: &mut String, halt: Halt) -> Result<(), Bad> {
    match halt {
        Halt::Syntax => Ok(out.push_str("syntax")?),
        Halt::NoMemory => Err(Bad::NoMemory),
    }
}
