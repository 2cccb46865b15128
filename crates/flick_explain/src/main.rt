//! The program: the words and the ends of the process, handed to `explain`.

#![tactic(auto)]

mod answers;
mod befores;
mod bindings;
mod bodies;
mod causes;
mod checked;
mod command;
mod completions;
mod descent;
mod ended;
mod files;
mod fronts;
mod furthest;
mod given;
mod heads;
mod inputs;
mod known;
mod lexing;
mod messages;
mod misfits;
mod models;
mod names;
mod narrowing;
mod octets;
mod places;
mod records;
mod refusals;
mod reply_records;
mod respelled;
mod scalars;
mod separators;
mod shelved;
mod statements;
mod stub_cuts;
mod stub_items;
mod stub_lack;
mod stub_parts;
mod stub_paths;
mod stub_units;
mod syntax;
mod tables;
mod text;
mod tokens;
mod unreplies;

use crate::answers::explain;
use kit_base::{NoMemory, Octets, StdShelf, StdSink, StdSource, Words};
use std::alloc::Global;
use std::process::ExitCode;
use std::{env, io};

/// The status where the process cannot give its arguments as text.
const NO_ARGUMENTS: u8 = 9;

/// The status where memory ran out.
const NO_MEMORY: u8 = 7;

/// The arguments as words, without the program's name.
fn words_of(alloc: Global, arguments: env::Args) -> Result<Words, NoMemory> {
    let mut words = Words::new(alloc);
    for argument in arguments.skip(1) {
        let mut word = Octets::new(alloc);
        word.append(argument.as_bytes())?;
        words.push(word)?;
    }
    Ok(words)
}

/// The status where the process does not give its arguments.
fn status_of(error: &io::Error) -> u8 {
    match error.kind() {
        io::ErrorKind::OutOfMemory => NO_MEMORY,
        _ => NO_ARGUMENTS,
    }
}

fn main(rt: HostRuntime) -> ExitCode {
    let alloc = rt.alloc();
    let arguments = match env::args(&rt) {
        Ok(arguments) => arguments,
        Err(error) => return ExitCode::from(status_of(&error)),
    };
    let Ok(words) = words_of(alloc, arguments) else {
        return ExitCode::from(NO_MEMORY);
    };
    let mut shelf = StdShelf::new(&rt);
    let mut input = StdSource::new(rt.reader());
    let mut output = StdSink::new(io::writer(&rt));
    ExitCode::from(explain(alloc, &words, &mut shelf, &mut input, &mut output))
}
