//! The answers of a run, each with what is said of it where it is a refusal.

use crate::command::{Run, run_of};
use crate::ended::Ended;
use crate::fronts::bound_of;
use crate::inputs::Inputs;
use crate::known::Known;
use crate::shelved::Shelved;
use crate::tables::{tell_all, telling_of};
use kit_base::limits::{LONGEST_LINE, MOST_INPUT};
use kit_base::{Line, LineErr, Lines, NoMemory, Shelf, Sink, Source, Words, write_whole};
use pres::Bound;
use std::alloc::Global;

/// The page for words that name no run.
const USAGE: &[u8] = b"usage: flick_explain COMMAND FRONT BACK FILE [--lines INPUT]\n\
\x20      flick_explain serve FRONT BACK FILE REPLIES [--lines INPUT]\n\
\x20      flick_explain check FRONT BACK FILE STUBFILE\n\
\x20      flick_explain show FRONT FILE\n\
\x20      flick_explain make FRONT BACK FILE NUMBER N\n\
\x20      flick_explain --octets FRONT BACK FILE [--reply OPERATION]\n\
\n\
The words before --lines are those of a run of flick. Standard input is what the run wrote.\n\
For each line that begins with `?` or `!` it says where and why.\n\
INPUT is the file that the run read; with it each `!` is said of its line.\n\
With --octets standard input has messages in hexadecimal digits, and it writes what each octet is.\n";

/// Says of each refusal of a run where and why, and answers a status.
pub fn explain<F: Shelf, S: Source, K: Sink>(
    alloc: Global,
    words: &Words,
    shelf: &mut F,
    input: &mut S,
    output: &mut K,
) -> u8 {
    match explained(alloc, words, shelf, input, output) {
        Ok(()) => 0,
        Err(ended) => ended as u8,
    }
}

fn explained<F: Shelf, S: Source, K: Sink>(
    alloc: Global,
    words: &Words,
    shelf: &mut F,
    input: &mut S,
    output: &mut K,
) -> Result<(), Ended> {
    if let Some(telling) = telling_of(words) {
        return tell_all(alloc, &telling, shelf, input, output);
    }
    let Some(run) = run_of(words) else {
        write(output, USAGE)?;
        return Err(Ended::Usage);
    };
    let shelved = Shelved::of(alloc, &run, shelf)?;
    over(alloc, &run, &shelved, input, output)
}

/// Says of each answer over some files what there is to say.
fn over<S: Source, K: Sink>(
    alloc: Global,
    run: &Run<'_>,
    shelved: &Shelved,
    input: &mut S,
    output: &mut K,
) -> Result<(), Ended> {
    let mut inputs = Inputs::of_run(run.verb, shelved.lines());
    let bound = binding(alloc, run, shelved.file())?;
    let known = Known {
        run: *run,
        text: shelved.file(),
        replies: shelved.replies(),
        stubs: shelved.stubs(),
        bound: bound.as_ref(),
    };
    say_all(alloc, &known, &mut inputs, input, output)
}

/// The file bound to the back end of the run, where it is accepted.
pub fn binding(
    alloc: Global,
    run: &Run<'_>,
    text: Option<&[u8]>,
) -> Result<Option<Bound>, NoMemory> {
    match text {
        Some(text) => match bound_of(alloc, run.front, run.back, text)? {
            Ok(bound) => Ok(Some(bound)),
            Err(_) => Ok(None),
        },
        None => Ok(None),
    }
}

/// Writes what is said.
pub fn write<K: Sink>(output: &mut K, text: &[u8]) -> Result<(), Ended> {
    match write_whole(output, text) {
        Ok(()) => Ok(()),
        Err(_) => Err(Ended::Sink),
    }
}

/// Says of each line of standard input what there is to say.
fn say_all<S: Source, K: Sink>(
    alloc: Global,
    known: &Known<'_>,
    inputs: &mut Inputs<'_>,
    input: &mut S,
    output: &mut K,
) -> Result<(), Ended> {
    let mut lines = Lines::new(alloc, LONGEST_LINE, MOST_INPUT);
    for _ in 0..MOST_INPUT {
        if !say_one(alloc, known, inputs, &mut lines, input, output)? {
            return Ok(());
        }
    }
    Ok(())
}

/// Says what there is to say of the next line, and whether there was one.
fn say_one<S: Source, K: Sink>(
    alloc: Global,
    known: &Known<'_>,
    inputs: &mut Inputs<'_>,
    lines: &mut Lines,
    input: &mut S,
    output: &mut K,
) -> Result<bool, Ended> {
    let line = next_line(lines, input)?;
    let reported = known.line(alloc, &line, inputs)?;
    write(output, reported.as_bytes())?;
    Ok(!line.is_end())
}

/// The next line of an input, or how a failing input ends the work.
pub fn next_line<S: Source>(lines: &mut Lines, input: &mut S) -> Result<Line, Ended> {
    match lines.next(input) {
        Ok(line) => Ok(line),
        Err(LineErr::Failed) => Err(Ended::Source),
        Err(LineErr::TooMuch) => Err(Ended::Length),
        Err(LineErr::NoMemory) => Err(Ended::NoMemory),
    }
}
