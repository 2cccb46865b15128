//! The rows of the standard input, and their answers.

use crate::Bad;
use anyhow::bail;
use serde_json::{Category, Value as Json};
use std::alloc::Global;
use std::io::{self, BufRead, BufReader, BufWriter, Write};

/// What a program answers to rows.
pub trait Answers {
    /// The answer to a row.
    fn answer(alloc: Global, row: &Json) -> Result<String, Bad>;
}

/// The answer to a line that is a row.
fn answer_of<A: Answers>(alloc: Global, line: &str) -> Result<String, Bad> {
    match Json::from_str(alloc, line) {
        Ok(row) => A::answer(alloc, &row),
        Err(error) if error.classify() == Category::Memory => Err(Bad::NoMemory),
        Err(_) => Err(Bad::Row("no JSON")),
    }
}

/// The answers to the lines of standard input, a line each on standard output.
pub fn answer_rows<A: Answers>(rt: &HostRuntime) -> anyhow::Result<()> {
    let alloc = rt.alloc();
    let mut out = BufWriter::new(alloc, io::writer(rt))?;
    for line in BufReader::new(alloc, rt.reader())?.lines(alloc) {
        let line = line?;
        match answer_of::<A>(alloc, line.as_str()) {
            Ok(reported) => writeln!(out, "{reported}")?,
            Err(Bad::Row(why)) => writeln!(out, "? {why}")?,
            Err(Bad::NoMemory) => bail!("no memory"),
        }
    }
    out.flush()?;
    Ok(())
}
