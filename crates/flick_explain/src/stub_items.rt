//! The items of a stub's text: what is left without ensures and the borders of chunks, octet for octet.

use crate::completions::{first_word, past_word};
use crate::stub_parts::line_at;
use crate::text::{from, number_in};
use kit_base::{Listed, NoMemory};
use std::alloc::Global;

/// The most items that are compared.
const MOST_ITEMS: usize = 4_194_304;

/// An octet of a chunk, a zero up to a multiple, or a line of another operation.
#[derive(Clone, Copy)]
pub struct Item {
    /// Where its line begins.
    pub start: usize,
    /// How many lines come before that.
    pub lines: usize,
    /// Which octet of its put it is, from 0.
    pub octet: usize,
    /// The octet, where the text fixes it.
    pub value: Option<u32>,
    /// Its place in the message, where nothing before it has a length of its own.
    pub at: Option<usize>,
}

/// The items of a text, in order.
pub type Items = Listed<Item>;

/// A walk over the lines of a text.
#[derive(Drop)]
struct Reading<'a> {
    text: &'a [u8],
    next: usize,
    lines: usize,
    at: Option<usize>,
    items: Items,
}

/// The items of a text, where they are not too many.
pub fn items_of(alloc: Global, text: &[u8]) -> Result<Option<Items>, NoMemory> {
    let mut reading = Reading {
        text,
        next: 0,
        lines: 0,
        at: Some(0),
        items: Items::new(alloc),
    };
    reading.line();
    for _ in 0..text.len() {
        if from(text, reading.next).is_empty() {
            return Ok(Some(reading.items));
        }
        if !reading.read(alloc)? {
            return Ok(None);
        }
    }
    Ok(None)
}

/// A word of a line, by its place from 0.
pub fn word_in(line: &[u8], place: usize) -> &[u8] {
    let mut rest = line;
    for _ in 0..place {
        rest = past_word(rest);
    }
    first_word(rest)
}

/// The number at a place of a line, 0 where there is none.
fn number_at(line: &[u8], place: usize) -> usize {
    match number_in(word_in(line, place)) {
        Some(number) => number as usize,
        None => 0,
    }
}

/// How many octets a put stores.
fn width_of(put: &[u8]) -> usize {
    match word_in(put, 2) {
        b"const" => word_in(put, 3).len() / 2,
        b"short" => 4,
        b"count" => number_at(put, 6),
        _ => number_at(put, 4),
    }
}

/// An octet of a put, where the text fixes it.
fn value_of(put: &[u8], octet: usize) -> Option<u32> {
    if word_in(put, 2) != b"const".as_slice() {
        return None;
    }
    let digits = from(word_in(put, 3), octet.saturating_add(octet));
    match digits {
        [high, low, ..] => Some(digit(*high).saturating_mul(16).saturating_add(digit(*low))),
        _ => None,
    }
}

/// The number of a hexadecimal digit.
fn digit(octet: u8) -> u32 {
    if octet < b'a' {
        u32::from(octet.saturating_sub(b'0'))
    } else {
        u32::from(octet.saturating_sub(b'a')).saturating_add(10)
    }
}

impl<'a> Reading<'a> {
    /// The next line, which is passed.
    fn line(&mut self) -> &'a [u8] {
        let line = line_at(self.text, self.next);
        self.next = self.next.saturating_add(line.len()).saturating_add(1);
        self.lines = self.lines.saturating_add(1);
        line
    }

    /// The item that the next line is.
    fn item(&self) -> Item {
        Item {
            start: self.next,
            lines: self.lines,
            octet: 0,
            value: None,
            at: self.at,
        }
    }

    /// Reads the items of a line, and of the puts after it; whether they are not too many.
    fn read(&mut self, alloc: Global) -> Result<bool, NoMemory> {
        let item = self.item();
        let line = self.line();
        let number = number_at(line, 1);
        match first_word(line) {
            b"ensure" | b"ensure_row" => {}
            b"chunk" => return self.chunk(alloc, item, number),
            b"align" if number > 0 && self.at.is_some() => return self.zeros(item, number),
            _ => {
                if !matches!(first_word(line), b"patch" | b"align" | b"end") {
                    self.at = None;
                }
                self.items.push(item)?;
            }
        }
        Ok(true)
    }

    /// Appends zeros up to a multiple.
    fn zeros(&mut self, item: Item, multiple: usize) -> Result<bool, NoMemory> {
        for _ in 0..multiple.min(8) {
            let Some(at) = self.at else {
                return Ok(true);
            };
            if multiple > 0 && at % multiple == 0 {
                return Ok(true);
            }
            let mut zero = item;
            zero.value = Some(0);
            self.put(zero)?;
        }
        Ok(true)
    }

    /// Appends an octet of the message.
    fn put(&mut self, item: Item) -> Result<(), NoMemory> {
        let mut item = item;
        item.at = self.at;
        self.items.push(item)?;
        if let Some(at) = self.at {
            self.at = Some(at.saturating_add(1));
        }
        Ok(())
    }

    /// Appends the octets of a chunk, each of the last put that stores it.
    fn chunk(&mut self, alloc: Global, item: Item, size: usize) -> Result<bool, NoMemory> {
        if self.items.len().saturating_add(size) > MOST_ITEMS {
            return Ok(false);
        }
        let mut octets = vec![in alloc; item; size]?;
        for _ in 0..self.text.len() {
            let put = self.item();
            let line = self.line();
            if first_word(line) != b"at".as_slice() {
                break;
            }
            store(octets.as_mut_slice(), put, line);
        }
        for octet in octets.as_slice() {
            self.put(*octet)?;
        }
        Ok(true)
    }
}

/// Stores the octets of a put into those of its chunk.
fn store(octets: &mut [Item], put: Item, line: &[u8]) {
    let offset = number_at(line, 1);
    for octet in 0..width_of(line) {
        if let Some(place) = octets.get_mut(offset.saturating_add(octet)) {
            let mut item = put;
            item.octet = octet;
            item.value = value_of(line, octet);
            *place = item;
        }
    }
}
