//! `--octets`: the tables of the messages on standard input.

use crate::answers::{binding, next_line, write};
use crate::command::{Run, Verb, run_in};
use crate::ended::Ended;
use crate::octets::{digits_reported, message_of};
use crate::records::dotted;
use crate::shelved::Shelved;
use crate::text::shown;
use flick_octets::{Table, print_table, tell_reply, tell_request};
use json_shape::reply_named;
use kit_base::limits::{LONGEST_LINE, MOST_INPUT};
use kit_base::{Line, Lines, NoMemory, Octets, Shelf, Sink, Source, Words};
use pres::Bound;
use std::alloc::Global;

/// What is told of messages over a file.
#[derive(Clone, Copy)]
pub struct Telling<'a> {
    run: Run<'a>,
    /// The name of the operation to which they are replies; without one they are requests.
    reply: Option<&'a [u8]>,
}

/// What the words name: `--octets FRONT BACK FILE`, and `--reply OPERATION` or nothing.
pub fn telling_of(words: &Words) -> Option<Telling<'_>> {
    match words.as_slice() {
        [option, front, back, path] => telling_in(option, front, back, path, None),
        [option, front, back, path, reply, name] => {
            if reply.as_slice() != b"--reply".as_slice() {
                return None;
            }
            telling_in(option, front, back, path, Some(name.as_slice()))
        }
        _ => None,
    }
}

/// What is told of the messages of the words, where the first is the option.
fn telling_in<'a>(
    option: &Octets,
    front: &Octets,
    back: &Octets,
    path: &'a Octets,
    reply: Option<&'a [u8]>,
) -> Option<Telling<'a>> {
    if option.as_slice() != b"--octets".as_slice() {
        return None;
    }
    let run = run_in(Verb::Unmarshal, front, back, path)?;
    Some(Telling { run, reply })
}

/// Writes the table of each message on standard input.
pub fn tell_all<F: Shelf, S: Source, K: Sink>(
    alloc: Global,
    telling: &Telling<'_>,
    shelf: &mut F,
    input: &mut S,
    output: &mut K,
) -> Result<(), Ended> {
    let shelved = Shelved::of(alloc, &telling.run, shelf)?;
    let Some(bound) = binding(alloc, &telling.run, shelved.file())? else {
        return refused(
            alloc,
            telling.run.path,
            "the file is not there or is refused",
            output,
        );
    };
    match telling.reply {
        None => tell_lines(alloc, &bound, None, input, output),
        Some(name) => match reply_named(alloc, &bound, name)? {
            Some(op) => tell_lines(alloc, &bound, Some(op), input, output),
            None => refused(
                alloc,
                name,
                "no operation with a reply has this name",
                output,
            ),
        },
    }
}

/// Says why nothing is told.
fn refused<K: Sink>(alloc: Global, name: &[u8], why: &str, output: &mut K) -> Result<(), Ended> {
    let line = refusal_line(alloc, name, why)?;
    write(output, line.as_bytes())?;
    Err(Ended::Refused)
}

/// The line of a name and what is wrong with it.
fn refusal_line(alloc: Global, name: &[u8], why: &str) -> Result<String, NoMemory> {
    let name = shown(alloc, name)?;
    Ok(format!(in alloc; "{name}: {why}\n")?)
}

/// Writes the table of each line, as a request or as a reply to an operation.
fn tell_lines<S: Source, K: Sink>(
    alloc: Global,
    bound: &Bound,
    op: Option<u32>,
    input: &mut S,
    output: &mut K,
) -> Result<(), Ended> {
    let mut lines = Lines::new(alloc, LONGEST_LINE, MOST_INPUT);
    let mut number = 0u64;
    for _ in 0..MOST_INPUT {
        number = number.saturating_add(1);
        if !tell_line(alloc, bound, op, number, &mut lines, input, output)? {
            return Ok(());
        }
    }
    Ok(())
}

/// Writes the table of the next message, and whether there was one.
fn tell_line<S: Source, K: Sink>(
    alloc: Global,
    bound: &Bound,
    op: Option<u32>,
    number: u64,
    lines: &mut Lines,
    input: &mut S,
    output: &mut K,
) -> Result<bool, Ended> {
    let line = next_line(lines, input)?;
    let text = line_text(alloc, bound, op, number, &line)?;
    write(output, text.as_bytes())?;
    Ok(!line.is_end())
}

/// What is written for a line.
fn line_text(
    alloc: Global,
    bound: &Bound,
    op: Option<u32>,
    number: u64,
    line: &Line,
) -> Result<String, NoMemory> {
    match line {
        Line::Text(digits) => message_text(alloc, bound, op, number, digits.as_slice()),
        Line::Long => Ok(format!(in alloc; "message {number}: the line is too long\n\n")?),
        Line::End => Ok(String::new(alloc)),
    }
}

/// The table of a message in digits, under its number.
fn message_text(
    alloc: Global,
    bound: &Bound,
    op: Option<u32>,
    number: u64,
    digits: &[u8],
) -> Result<String, NoMemory> {
    let Some(message) = message_of(alloc, digits)? else {
        let why = digits_reported(alloc, 0, digits)?;
        return Ok(format!(in alloc; "message {number}: {why}\n\n")?);
    };
    let message = message.as_slice();
    let table = table_of(alloc, bound, op, message)?;
    let name = operation_of(alloc, bound, &table)?;
    let text = print_table(alloc, &table, message)?;
    Ok(format!(in alloc;
        "message {number}: {name}{} octets\n{text}\n",
        message.len()
    )?)
}

/// The table of a message, as a request or as a reply to an operation.
fn table_of(
    alloc: Global,
    bound: &Bound,
    op: Option<u32>,
    message: &[u8],
) -> Result<Table, NoMemory> {
    match op {
        Some(op) if (op as usize) < bound.ops().len() => tell_reply(alloc, bound, op, message),
        _ => tell_request(alloc, bound, message),
    }
}

/// The name of a table's operation and a comma, where it has one.
fn operation_of(alloc: Global, bound: &Bound, table: &Table) -> Result<String, NoMemory> {
    let Some(op) = table.op else {
        return Ok(String::new(alloc));
    };
    match bound.ops().get(op as usize) {
        Some(op) => {
            let name = shown(alloc, dotted(alloc, bound, op)?.as_slice())?;
            Ok(format!(in alloc; "{name}, ")?)
        }
        None => Ok(String::new(alloc)),
    }
}
