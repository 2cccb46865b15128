//! The outside as traits, octets and lists of them, and the lines of an input.
//!
//! A program that reads a [`Source`], writes a [`Sink`] and takes files from a [`Shelf`] can be
//! proved against what these report: their contents, where they report any, and their counts of
//! faults.
#![tactic(auto)]

mod boxed;
mod decimal;
mod errors;
pub mod limits;
mod line_text;
mod lines;
mod listed;
mod mem_shelf;
mod mem_sink;
mod mem_source;
mod outside;
mod plan;
mod reading;
mod std_ends;

pub use boxed::Boxed;
pub use decimal::decimal_value;
pub use errors::{Failed, NoMemory};
pub use lines::{Line, LineErr, Lines};
pub use listed::{Listed, Name, Octets, Words, make_room};
pub use mem_shelf::MemShelf;
pub use mem_sink::{MemSink, SureSink};
pub use mem_source::{MemSource, MemSure};
pub use outside::{Shelf, ShelfErr, Sink, Source, write_whole};
pub use std_ends::{StdShelf, StdSink, StdSource};

#[cfg(test)]
mod tests;
