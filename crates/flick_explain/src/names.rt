//! `? name`: the declaration, and the name at fault in it.

use crate::causes::name_cause;
use crate::completions::{first_word, past_word};
use crate::files::{File, Placed, is_mark, is_word};
use crate::furthest::Question;
use crate::lexing::put_cause;
use crate::models::models_of;
use crate::places::pointed;
use crate::statements::{Statement, statement_of};
use crate::text::{cut, number_in, shown};
use idl_lex::{Front, TokenKind};
use kit_base::NoMemory;
use std::alloc::Global;

/// What is said of `? name WORD DECL`.
pub fn name_reported(
    alloc: Global,
    file: &File<'_>,
    word: &[u8],
    number: &[u8],
) -> Result<Option<String>, NoMemory> {
    let Some(cause) = name_cause(word) else {
        return Ok(None);
    };
    let Some(number) = number_in(number) else {
        return Ok(None);
    };
    let Some(placed) = Placed::of(alloc, file)? else {
        return Ok(None);
    };
    let Some(statement) = statement_of(alloc, file.front, &placed, number)? else {
        return Ok(None);
    };
    let before = cut(file.text, 0, placed.start(file.text, statement.first));
    let question = Question::of(file, &placed, statement, Some(before));
    let is_joint = matches!(word, b"Twice" | b"CaseClash" | b"Limit");
    let narrowed = question.narrowed(alloc, is_joint)?;
    let at = if narrowed.is_settled {
        last_free(&narrowed)
    } else {
        name_at(&question, narrowed.place(alloc)?, cause.of_names)
    };
    let token = shown(alloc, scoped(&placed, file.text, at))?;
    let message = format!(in alloc; "{} '{token}'", cause.what)?;
    let start = placed.start(file.text, at);
    let mut out = pointed(alloc, file.path, file.text, start, message.as_str())?;
    put_declaration(alloc, &mut out, file, &placed, statement, number)?;
    put_cause(&mut out, &cause)?;
    Ok(Some(out))
}

/// The token at fault. Of names it is the first from a token on that is not a word of the language, or else the last
/// before.
fn name_at(question: &Question<'_>, at: usize, of_names: bool) -> usize {
    let statement = question.statement;
    let last = statement.end.saturating_sub(1);
    if at > last {
        return declared(question.placed, statement);
    }
    if !of_names {
        return at.min(last);
    }
    for i in at..statement.end {
        if is_free(question, i) {
            return i;
        }
    }
    for i in (statement.first..at.min(statement.end)).rev() {
        if is_free(question, i) {
            return i;
        }
    }
    at.min(last)
}

/// The last token of a part that is neither a mark nor a word of the language; the first where all are.
fn last_free(part: &Question<'_>) -> usize {
    for i in (part.statement.first..part.statement.end).rev() {
        if is_free(part, i) {
            return i;
        }
    }
    part.statement.first
}

/// Whether a token is neither a mark nor a word of the language.
pub fn is_free(question: &Question<'_>, i: usize) -> bool {
    match question.placed.kind(i) {
        Some(TokenKind::Name(name)) => !is_of_language(question.file.front, name.as_slice()),
        Some(TokenKind::Mark(_)) | None => false,
        Some(_) => true,
    }
}

/// Whether a word is one of those that the models of the language have.
fn is_of_language(front: Front, name: &[u8]) -> bool {
    let models = models_of(front);
    let mut rest = models;
    for _ in models {
        if first_word(rest) == name {
            return true;
        }
        rest = past_word(rest);
    }
    false
}

/// The name at a token with the names after it that `::` joins to it.
fn scoped<'t>(placed: &Placed, text: &'t [u8], at: usize) -> &'t [u8] {
    let mut end = at;
    for _ in at..placed.len() {
        let joint = end.saturating_add(1);
        if is_mark(placed.kind(end), b"::") {
            end = joint;
        } else if is_mark(placed.kind(joint), b"::") {
            end = end.saturating_add(2);
        } else {
            return cut(text, placed.start(text, at), placed.end_before(joint));
        }
    }
    cut(
        text,
        placed.start(text, at),
        placed.end_before(end.saturating_add(1)),
    )
}

/// Which declaration it is: its number and its name.
fn put_declaration(
    alloc: Global,
    out: &mut String,
    file: &File<'_>,
    placed: &Placed,
    statement: Statement,
    number: u32,
) -> Result<(), NoMemory> {
    let name = placed.octets(file.text, declared(placed, statement));
    let line = format!(in alloc; "  in declaration {number}, '{}'\n", shown(alloc, name)?)?;
    Ok(out.push_str(line.as_str())?)
}

/// The token that is the name of a declaration.
pub fn declared(placed: &Placed, statement: Statement) -> usize {
    let second = statement.first.saturating_add(1);
    if has_name_last(placed, statement.first) {
        return last_name(placed, statement);
    }
    for i in statement.first..statement.end {
        let last = i.saturating_sub(1);
        if is_mark(placed.kind(i), b"(")
            && !is_word(placed.kind(last), b"switch")
            && is_name(placed, last)
        {
            return last;
        }
    }
    second.min(statement.end.saturating_sub(1))
}

/// Whether a token is a name.
fn is_name(placed: &Placed, i: usize) -> bool {
    matches!(placed.kind(i), Some(TokenKind::Name(_)))
}

/// Whether a declaration begins with a word after which its name is the last.
fn has_name_last(placed: &Placed, first: usize) -> bool {
    let kind = placed.kind(first);
    is_word(kind, b"typedef")
        || is_word(kind, b"attribute")
        || is_word(kind, b"readonly")
        || is_word(kind, b"const") && !is_mark(placed.kind(first.saturating_add(2)), b"=")
}

/// The last name that is in no brackets and before a `=`.
fn last_name(placed: &Placed, statement: Statement) -> usize {
    let mut depth = 0u32;
    let mut found = statement.first;
    for i in statement.first..statement.end {
        let kind = placed.kind(i);
        if is_mark(kind, b"=") {
            return found;
        }
        if is_mark(kind, b"<") || is_mark(kind, b"[") {
            depth = depth.saturating_add(1);
        }
        if is_mark(kind, b">") || is_mark(kind, b"]") {
            depth = depth.saturating_sub(1);
        }
        if depth == 0 && is_name(placed, i) {
            found = i;
        }
    }
    found
}
