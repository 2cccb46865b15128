//! `? lex`: the octet at which the tokens of a text end.

use crate::causes::{Cause, lex_cause};
use crate::files::File;
use crate::places::pointed;
use crate::text::{cut, number_in, shown};
use kit_base::NoMemory;
use std::alloc::Global;

/// What is said of `? lex WORD AT`.
pub fn lex_reported(
    alloc: Global,
    file: &File<'_>,
    word: &[u8],
    at: &[u8],
) -> Result<Option<String>, NoMemory> {
    let Some(at) = number_in(at) else {
        return Ok(None);
    };
    let Some(cause) = lex_cause(word) else {
        return Ok(None);
    };
    let at = at as usize;
    let octets = cut(file.text, at, at.saturating_add(1).min(file.text.len()));
    let message = format!(in alloc; "{}: '{}'", cause.what, shown(alloc, octets)?)?;
    let mut out = pointed(alloc, file.path, file.text, at, message.as_str())?;
    put_cause(&mut out, &cause)?;
    Ok(Some(out))
}

/// The sentences of cause and repair, a line each.
pub fn put_cause(out: &mut String, cause: &Cause) -> Result<(), NoMemory> {
    out.push_str("  cause: ")?;
    out.push_str(cause.why)?;
    out.push_str("\n  repair: ")?;
    out.push_str(cause.repair)?;
    out.push('\n')?;
    Ok(())
}
