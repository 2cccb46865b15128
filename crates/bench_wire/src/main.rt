//! Sends and reads large values, so that what an octet costs can be counted: VERB SHAPE COUNT [ENCODING].

#![tactic(auto)]

use anyhow::{Result, bail};
use kit_base::limits::LONGEST_MESSAGE;
use kit_base::{NoMemory, Octets};
use mint::fits::fits;
use mint::kind::{Count, Kind};
use mint::node::{Node, NodeIds};
use mint::row::Row;
use mint::table::Mint;
use mint::value::{Value, Values};
use plain_wire::{Read, plain_read, plain_send};
use std::alloc::Global;
use std::env;
use wire_def::Encoding;

/// How far a run goes, so that the cost of a step is the difference of two runs.
#[derive(Clone, Copy, PartialEq, Eq)]
enum Verb {
    Make,
    Send,
    Read,
}

/// What is sent.
#[derive(Clone, Copy)]
enum Shape {
    /// A row of `int`.
    Ints,
    /// A list of structs of two `int`.
    Structs,
    /// An opaque.
    Opaque,
    /// A row of characters.
    Chars,
    /// A text.
    Text,
}

fn verb_of(word: &str) -> Option<Verb> {
    match word {
        "make" => Some(Verb::Make),
        "send" => Some(Verb::Send),
        "read" => Some(Verb::Read),
        _ => None,
    }
}

fn shape_of(word: &str) -> Option<Shape> {
    match word {
        "ints" => Some(Shape::Ints),
        "structs" => Some(Shape::Structs),
        "opaque" => Some(Shape::Opaque),
        "chars" => Some(Shape::Chars),
        "text" => Some(Shape::Text),
        _ => None,
    }
}

/// The encoding of a word: XDR where there is none.
fn encoding_of(word: Option<&str>) -> Option<Encoding> {
    match word {
        None => Some(Encoding::Xdr),
        Some("xdr") => Some(Encoding::Xdr),
        Some("cdr-be") => Some(Encoding::CdrBig),
        Some("cdr-le") => Some(Encoding::CdrLittle),
        Some("mach") => Some(Encoding::Mach),
        Some(_) => None,
    }
}

/// The table of a shape, whose last node is the shape's.
fn table_of(alloc: Global, shape: Shape) -> Result<(Mint, u32)> {
    let mut table = Mint::new(alloc);
    let id = match shape {
        Shape::Ints => table.add(Node::Row(Kind::I32, Count::Any)),
        Shape::Opaque => table.add(Node::Row(Kind::Octet, Count::Any)),
        Shape::Chars => table.add(Node::Row(Kind::Char, Count::Any)),
        Shape::Text => table.add(Node::Text(Count::Any)),
        Shape::Structs => {
            let Ok(number) = table.add(Node::Num(Kind::I32)) else {
                bail!("no number");
            };
            let mut fields = NodeIds::new(alloc);
            if fields.push(number).is_err() || fields.push(number).is_err() {
                bail!("no memory");
            }
            let Ok(pair) = table.add(Node::Group(fields)) else {
                bail!("no struct");
            };
            table.add(Node::Items(pair, Count::Any))
        }
    };
    match id {
        Ok(id) => Ok((table, id)),
        Err(_) => bail!("no table"),
    }
}

fn row_of_ints(alloc: Global, count: u32) -> Result<Value, NoMemory> {
    let mut row = Row::new(alloc, Kind::I32);
    for n in 0..count {
        let number = i128::from(n);
        if row.kind().has(number) {
            row.push(number)?;
        }
    }
    Ok(Value::Row(row))
}

fn list_of_structs(alloc: Global, count: u32) -> Result<Value, NoMemory> {
    let mut items = Values::new(alloc);
    for n in 0..count / 2 {
        let mut fields = Values::new(alloc);
        fields.push(Value::Num(i128::from(n)))?;
        fields.push(Value::Num(-1))?;
        items.push(Value::Group(fields))?;
    }
    Ok(Value::Items(items))
}

fn octets_of(alloc: Global, count: u32) -> Result<Value, NoMemory> {
    let mut row = Row::new(alloc, Kind::Octet);
    let octets = vec![in alloc; 7u8; count as usize]?;
    row.append_image(&octets)?;
    Ok(Value::Row(row))
}

fn letters_of(alloc: Global, count: u32) -> Result<Value, NoMemory> {
    let mut row = Row::new(alloc, Kind::Char);
    let letters = vec![in alloc; 97u8; count as usize]?;
    row.append_image(&letters)?;
    Ok(Value::Row(row))
}

fn value_of(alloc: Global, shape: Shape, count: u32) -> Result<Value, NoMemory> {
    match shape {
        Shape::Ints => row_of_ints(alloc, count),
        Shape::Structs => list_of_structs(alloc, count),
        Shape::Opaque => octets_of(alloc, count),
        Shape::Chars | Shape::Text => letters_of(alloc, count),
    }
}

/// Sends a value and reads it back, as far as the verb goes; answers how many octets that took.
fn run(alloc: Global, verb: Verb, shape: Shape, count: u32, enc: Encoding) -> Result<usize> {
    let (table, id) = table_of(alloc, shape)?;
    let Ok(value) = value_of(alloc, shape, count) else {
        bail!("no memory for the value");
    };
    if verb == Verb::Make {
        return Ok(0);
    }
    if id as usize >= table.len() || !fits(&table, id, &value) {
        bail!("the value is not of the type");
    }
    let mut message = Octets::new(alloc);
    if plain_send(enc, &table, id, 0, &value, &mut message).is_err() {
        bail!("no memory for the message");
    }
    if verb == Verb::Send {
        return Ok(message.len());
    }
    if message.len() > LONGEST_MESSAGE {
        bail!("the message is too long");
    }
    match plain_read(alloc, enc, &table, id, 0, message.as_slice()) {
        Ok(Read::Value(_, used)) => Ok(used),
        Ok(Read::Stop(_)) => bail!("a fault"),
        Err(NoMemory) => bail!("no memory to read"),
    }
}

fn main(rt: HostRuntime) -> Result<()> {
    let mut words = env::args(&rt)?.skip(1);
    let verb = words.next().and_then(|word| verb_of(word.as_str()));
    let shape = words.next().and_then(|word| shape_of(word.as_str()));
    let count = words
        .next()
        .and_then(|word| word.as_str().parse::<u32>().ok());
    let last = words.next();
    let enc = encoding_of(match &last {
        Some(word) => Some(word.as_str()),
        None => None,
    });
    match (verb, shape, count, enc) {
        (Some(verb), Some(shape), Some(count), Some(enc)) => {
            let used = run(rt.alloc(), verb, shape, count, enc)?;
            println!(rt; "{used} octets")?;
            Ok(())
        }
        _ => bail!(
            "usage: bench_wire make|send|read ints|structs|opaque|chars|text COUNT [xdr|cdr-be|cdr-le|mach]"
        ),
    }
}
