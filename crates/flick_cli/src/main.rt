//! The program: the words and the ends of the process, handed to the library.

#![tactic(auto)]

use flick_top::flick;
use kit_base::{NoMemory, Octets, StdShelf, StdSink, StdSource, Words};
use raw_buf::SendBuf;
use std::alloc::Global;
use std::process::ExitCode;
use std::{env, io};

/// The status where the process does not give its arguments. `flick` never answers it.
const NO_ARGUMENTS: u8 = 9;

/// The status where memory ran out, as `flick` answers it.
const NO_MEMORY: u8 = 7;

/// The arguments as words, without the program's name.
fn words_of(alloc: Global, arguments: env::Args) -> Result<Words, NoMemory> {
    let mut words = Words::new(alloc);
    for argument in arguments.skip(1) {
        let mut word = Octets::new(alloc);
        word.append(argument.as_bytes())?;
        words.push(word)?;
    }
    Ok(words)
}

fn main(rt: HostRuntime) -> ExitCode {
    let alloc = rt.alloc();
    let Ok(arguments) = env::args(&rt) else {
        return ExitCode::from(NO_ARGUMENTS);
    };
    let Ok(words) = words_of(alloc, arguments) else {
        return ExitCode::from(NO_MEMORY);
    };
    let Ok(mut buf) = SendBuf::new(alloc) else {
        return ExitCode::from(NO_MEMORY);
    };
    let mut shelf = StdShelf::new(&rt);
    let mut input = StdSource::new(rt.reader());
    let mut output = StdSink::new(io::writer(&rt));
    let status = flick(
        alloc,
        &words,
        &mut shelf,
        &mut input,
        &mut output,
        &mut buf,
        &mut None,
    );
    ExitCode::from(status)
}
