//! Makes the code of a type and puts ensures into it, so that what an operation costs can be counted:
//! PASS SHAPE SIZE. Or reads a message, so that what a number costs can be: READING CONTENT SIZE. Or sends and
//! receives a row, so that what an octet costs can be: STEP MATTER COUNT.

#![tactic(auto)]

mod counting;
mod in_rows;
mod receiving;
mod shapes;

use crate::counting::count;
use crate::in_rows::{matter_of, run_row, step_of};
use crate::receiving::{content_of, read, reading_of};
use crate::shapes::{Shape, shape_of, table_of};
use anyhow::{Result, bail};
use back_xdr::lower_send;
use copy_inline::inline;
use hoist::hoist;
use std::alloc::Global;
use std::env;
use storage_class::classify;
use wire_def::Encoding;

/// How far a run goes, so that the cost of a pass is the difference of two runs.
#[derive(Clone, Copy, PartialEq, Eq)]
enum Pass {
    Make,
    Lower,
    Inline,
    Classify,
    Hoist,
}

fn pass_of(word: &str) -> Option<Pass> {
    match word {
        "make" => Some(Pass::Make),
        "lower" => Some(Pass::Lower),
        "inline" => Some(Pass::Inline),
        "classify" => Some(Pass::Classify),
        "hoist" => Some(Pass::Hoist),
        _ => None,
    }
}

/// The numbers of operations after each pass, 0 where it was not made.
#[derive(Clone, Copy)]
struct Operations {
    lowered: u64,
    inlined: u64,
    hoisted: u64,
}

/// Makes the passes, as far as the last goes.
fn run(alloc: Global, last: Pass, shape: Shape, size: u32) -> Result<Operations> {
    let mut operations = Operations {
        lowered: 0,
        inlined: 0,
        hoisted: 0,
    };
    let Ok((table, id)) = table_of(alloc, shape, size) else {
        bail!("no table");
    };
    if last == Pass::Make || id as usize >= table.len() {
        return Ok(operations);
    }
    let Ok(subs) = lower_send(alloc, &table) else {
        bail!("no memory to lower");
    };
    for code in subs.as_slice() {
        operations.lowered = operations.lowered.saturating_add(count(code));
    }
    if last == Pass::Lower {
        return Ok(operations);
    }
    table.types_are_sound();
    let Ok(code) = inline(alloc, &subs, id) else {
        bail!("no memory to inline");
    };
    operations.inlined = count(&code.ops);
    if last == Pass::Inline {
        return Ok(operations);
    }
    let Ok(classes) = classify(alloc, Encoding::Xdr, &table) else {
        bail!("no memory to classify");
    };
    if last == Pass::Classify {
        return Ok(operations);
    }
    match hoist(alloc, code, &table, id, &classes) {
        Ok(code) => {
            operations.hoisted = count(&code.ops);
            Ok(operations)
        }
        Err(_) => bail!("no memory to hoist"),
    }
}

fn main(rt: HostRuntime) -> Result<()> {
    let mut words = env::args(&rt)?.skip(1);
    let Some(first) = words.next() else {
        bail!("{USAGE}");
    };
    let Some(second) = words.next() else {
        bail!("{USAGE}");
    };
    let size = words
        .next()
        .and_then(|word| word.as_str().parse::<u32>().ok());
    let Some(size) = size else {
        bail!("{USAGE}");
    };
    if let (Some(last), Some(shape)) = (pass_of(first.as_str()), shape_of(second.as_str())) {
        let made = run(rt.alloc(), last, shape, size)?;
        println!(rt;
            "operations: {} lowered, {} inlined, {} hoisted",
            made.lowered, made.inlined, made.hoisted
        )?;
        return Ok(());
    }
    if let (Some(last), Some(matter)) = (step_of(first.as_str()), matter_of(second.as_str())) {
        let octets = run_row(rt.alloc(), last, matter, size)?;
        println!(rt; "{octets} octets")?;
        return Ok(());
    }
    match (reading_of(first.as_str()), content_of(second.as_str())) {
        (Some(reading), Some(content)) => {
            let value = read(rt.alloc(), reading, content, size)?;
            println!(rt; "{}", if value { "a value" } else { "no value" })?;
            Ok(())
        }
        _ => bail!("{USAGE}"),
    }
}

const USAGE: &str =
    "usage: bench_stubs make|lower|inline|classify|hoist fields|lists|deep|bounded|pairs|arms SIZE, prepare|receive|walk ints|structs|twenty|claim SIZE, or make|send|read ints|opaque|text COUNT";
