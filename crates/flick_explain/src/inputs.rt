//! The lines that a run read, beside its answers.

use crate::command::Verb;
use crate::text::{cut, from};

/// The line that ends what `count` writes before its answers.
const MARK: &[u8] = b"--";

/// What is left of the lines that a run read.
#[derive(Clone, Copy)]
pub struct Inputs<'a> {
    rest: &'a [u8],
    number: usize,
    has_begun: bool,
}

impl<'a> Inputs<'a> {
    /// The lines of some octets.
    pub fn of(octets: &'a [u8]) -> Inputs<'a> {
        Inputs {
            rest: octets,
            number: 0,
            has_begun: true,
        }
    }

    /// The lines that a run read, where they are there.
    pub fn of_run(verb: Verb, octets: Option<&'a [u8]>) -> Inputs<'a> {
        let mut inputs = match octets {
            Some(octets) => Inputs::of(octets),
            None => Inputs::of(&[]),
        };
        inputs.has_begun = verb != Verb::Count;
        inputs
    }

    /// Whether a line of the run is ahead of its answers, up to the mark before the first.
    pub fn is_ahead(&mut self, answer: &[u8]) -> bool {
        let is_ahead = !self.has_begun;
        if answer == MARK {
            self.has_begun = true;
        }
        is_ahead
    }

    /// The number of the last line that was given, from 1; of the last answer where no lines are left.
    pub fn number(&self) -> usize {
        self.number
    }

    /// The next line that is not empty, without the carriage return at its end.
    pub fn next(&mut self) -> Option<&'a [u8]> {
        for _ in 0..self.rest.len() {
            let length = self.rest.iter().take_while(|o| **o != b'\n').count();
            let line = without_return(cut(self.rest, 0, length));
            self.rest = from(self.rest, length.saturating_add(1));
            self.number = self.number.saturating_add(1);
            if !line.is_empty() {
                return Some(line);
            }
        }
        self.number = self.number.saturating_add(1);
        None
    }
}

/// A line without the carriage return at its end.
fn without_return(line: &[u8]) -> &[u8] {
    match line.strip_suffix(b"\r") {
        Some(line) => line,
        None => line,
    }
}
