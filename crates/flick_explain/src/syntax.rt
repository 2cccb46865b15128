//! `? syntax`: the definition without a tree, and the token at which it cannot go on.

use crate::completions::{Ends, first_word};
use crate::files::{File, Placed, is_mark};
use crate::furthest::Question;
use crate::places::pointed;
use crate::statements::{Statement, statements_of};
use crate::text::{number_in, shown};
use idl_lex::{Front, TokenKind};
use kit_base::NoMemory;
use std::alloc::Global;

/// What is said of `? syntax LINE`.
pub fn syntax_reported(
    alloc: Global,
    file: &File<'_>,
    line: &[u8],
) -> Result<Option<String>, NoMemory> {
    let Some(line) = number_in(line) else {
        return Ok(None);
    };
    let Some(placed) = Placed::of(alloc, file)? else {
        return Ok(None);
    };
    let Some(first) = first_on(alloc, file.front, &placed, line)? else {
        return Ok(None);
    };
    let end = placed.len();
    let question = Question::of_text(file, &placed, Statement { first, end });
    let narrowed = question.narrowed(alloc, false)?;
    Ok(Some(reported(alloc, &narrowed, line)?))
}

/// The first token on a line at which a definition may begin: that of a declaration, or a brace that closes none.
fn first_on(
    alloc: Global,
    front: Front,
    placed: &Placed,
    line: u32,
) -> Result<Option<usize>, NoMemory> {
    let statements = statements_of(alloc, front, placed)?;
    let mut next = 0usize;
    for (i, token) in placed.tokens().iter().enumerate() {
        let mut is_first = is_mark(Some(&token.kind), b"}");
        if let Some(statement) = statements.get(next) {
            if statement.first == i {
                is_first = true;
                next = next.saturating_add(1);
            }
        }
        if is_first && token.line == line && placed.around(i).brace == 0 {
            return Ok(Some(i));
        }
    }
    Ok(none_in(placed))
}

/// The place of the first token where there is none.
fn none_in(placed: &Placed) -> Option<usize> {
    if placed.tokens().is_empty() {
        Some(0)
    } else {
        None
    }
}

/// The least number of brackets and operators that may be too many levels.
const MANY_LEVELS: usize = 20;

/// Whether a token would have too many levels: it continues brackets or operators, of which many are around it.
fn is_deep(question: &Question<'_>, at: usize) -> bool {
    let mut brackets = 0usize;
    let mut operators = 0usize;
    let mut is_done = false;
    for piece in question.pieces(at) {
        for i in piece.first..piece.end {
            let kind = question.placed.kind(i);
            match role_of(kind) {
                Role::Opens => brackets = brackets.saturating_add(1),
                Role::Closes => brackets = brackets.saturating_sub(1),
                Role::Joins => operators = operators.saturating_add(1),
                Role::Parts => operators = 0,
                Role::Stands => {}
            }
            is_done = matches!(role_of(kind), Role::Stands | Role::Closes);
        }
    }
    let continues = match role_of(question.placed.kind(at)) {
        Role::Opens | Role::Joins => true,
        Role::Stands => !is_done,
        Role::Closes | Role::Parts => false,
    };
    at < question.placed.len() && continues && brackets.saturating_add(operators) >= MANY_LEVELS
}

/// What a token is among brackets and operators.
#[derive(Clone, Copy)]
enum Role {
    /// It opens a bracket.
    Opens,
    /// It closes one.
    Closes,
    /// It is an operator.
    Joins,
    /// It stands between parts.
    Parts,
    /// It is a word, a number, or another token that is no mark.
    Stands,
}

/// What a token is among brackets and operators.
fn role_of(kind: Option<&TokenKind>) -> Role {
    let Some(TokenKind::Mark(mark)) = kind else {
        return Role::Stands;
    };
    match mark.as_slice() {
        b"(" | b"{" | b"<" | b"[" => Role::Opens,
        b")" | b"}" | b">" | b"]" => Role::Closes,
        b";" | b"," | b"=" | b":" | b"::" => Role::Parts,
        _ => Role::Joins,
    }
}

/// What is said of a definition without a tree, which begins on a line.
fn reported(alloc: Global, question: &Question<'_>, line: u32) -> Result<String, NoMemory> {
    let text = question.file.text;
    let placed = question.placed;
    let at = question.furthest(alloc)?;
    let message = if at < placed.len() {
        let token = shown(alloc, placed.octets(text, at))?;
        format!(in alloc; "no definition goes on here with '{token}'")?
    } else {
        format!(in alloc; "the file ends inside a definition")?
    };
    let mut out = pointed(
        alloc,
        question.file.path,
        text,
        placed.start(text, at),
        message.as_str(),
    )?;
    if is_deep(question, at) {
        let cause = format!(in alloc;
            "  cause: the definition that begins on line {line} has no tree; nothing in it has more than 32 levels.\n"
        )?;
        out.push_str(cause.as_str())?;
        out.push_str(
            "  repair: nest fewer brackets and operators; docs/GRAMMAR.md has the levels.\n",
        )?;
        return Ok(out);
    }
    let cause = format!(in alloc;
        "  cause: the definition that begins on line {line} has no tree; up to here it could have one.\n"
    )?;
    out.push_str(cause.as_str())?;
    put_ends(alloc, &mut out, &question.ends(alloc, at)?)?;
    Ok(out)
}

/// What may come next, as far as it was found.
fn put_ends(alloc: Global, out: &mut String, ends: &Ends) -> Result<(), NoMemory> {
    let mut between = "here may come ";
    out.push_str("  repair: ")?;
    for end in ends.as_slice() {
        out.push_str(between)?;
        put_word(alloc, out, first_word(end))?;
        between = ", ";
    }
    if ends.len() > 0 {
        out.push_str("; ")?;
    }
    out.push_str("docs/GRAMMAR.md has the grammar.\n")?;
    Ok(())
}

/// A word of a model, as what it stands for.
fn put_word(alloc: Global, out: &mut String, word: &[u8]) -> Result<(), NoMemory> {
    match word {
        [b'q', b'z', ..] => Ok(out.push_str("a name")?),
        [b'0'..=b'9', ..] => Ok(out.push_str("a number")?),
        _ => {
            let word = format!(in alloc; "'{}'", shown(alloc, word)?)?;
            Ok(out.push_str(word.as_str())?)
        }
    }
}
