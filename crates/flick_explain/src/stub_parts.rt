//! The stubs of a file, and the lines at which they begin.

use crate::text::{cut, from};
use kit_base::NoMemory;
use std::alloc::Global;
use stub_read::{Stub, StubErr, read_stub};

/// A stub of a file: its text, and the line at which it begins.
#[derive(Clone, Copy)]
pub struct Part<'a> {
    /// Its text.
    pub text: &'a [u8],
    /// The line at which it begins, from 1.
    pub line: usize,
}

/// The stub of a text that begins with one.
pub fn stub_in(alloc: Global, text: &[u8]) -> Result<Option<Stub>, NoMemory> {
    match read_stub(alloc, text) {
        Ok(stub) => Ok(Some(stub)),
        Err(StubErr::Text) => Ok(None),
        Err(StubErr::NoMemory) => Err(NoMemory),
    }
}

/// The stub of this number, from 1, among those of a file that send.
pub fn part_of(alloc: Global, text: &[u8], number: usize) -> Result<Option<Part<'_>>, NoMemory> {
    let mut rest = text;
    let mut line = 1usize;
    let mut count = 0usize;
    for _ in 0..text.len() {
        let used = if rest.starts_with(b"recv ") {
            passed(rest)
        } else {
            let Some(stub) = stub_in(alloc, rest)? else {
                return Ok(None);
            };
            count = count.saturating_add(1);
            if count == number {
                return Ok(Some(Part {
                    text: cut(rest, 0, stub.used),
                    line,
                }));
            }
            stub.used
        };
        line = line.saturating_add(feeds(cut(rest, 0, used)));
        rest = from(rest, used);
    }
    Ok(None)
}

/// How many octets come before the next line that begins as a stub does, or before the end.
fn passed(text: &[u8]) -> usize {
    for i in 0..text.len() {
        let rest = from(text, i);
        if rest.starts_with(b"\nsend ") || rest.starts_with(b"\nrecv ") {
            return i.saturating_add(1);
        }
    }
    text.len()
}

/// How many lines end in octets.
pub fn feeds(text: &[u8]) -> usize {
    text.iter().filter(|o| **o == b'\n').count()
}

/// The octets up to the end of a line.
pub fn line_at(text: &[u8], at: usize) -> &[u8] {
    let rest = from(text, at);
    let length = rest.iter().take_while(|o| **o != b'\n').count();
    cut(rest, 0, length)
}
