//! Whether a part of a declaration can be completed, and by what.

use crate::fronts::{has_tree, is_resolved};
use crate::models::models_of;
use crate::respelled::Closing;
use crate::text::{cut, from};
use idl_lex::Front;
use kit_base::{Listed, NoMemory, Octets};
use std::alloc::Global;

/// A part of a declaration, which the ends of others are to complete.
#[derive(Drop)]
pub struct Part {
    /// The language.
    pub front: Front,
    /// The declaration up to a token, in containers of names of their own.
    pub own: Octets,
    /// The file up to that token, where its names are to be resolved too.
    pub whole: Option<Octets>,
    /// What closes what is open in the declaration.
    pub closing: Closing,
    /// What closes the containers that are open.
    pub closers: Octets,
}

/// The end of what is whole.
const NOTHING: &[u8] = b"";

/// What may come before brackets are closed, where more than two are open.
const INNER: [&[u8]; 4] = [b"", b"1 ", b"long ", b"< long > "];

/// What may come after brackets are closed.
const OUTER: [&[u8]; 2] = [b" ;", b" qz1 ;"];

/// The octets of a file up to which each end is tried, and not the first one alone.
pub const LONG: usize = 16_384;

/// Ends of declarations that complete a part.
pub type Ends = Listed<&'static [u8]>;

/// What comes of an end.
#[derive(Clone, Copy, PartialEq, Eq)]
enum Tried {
    /// There is no tree.
    NoTree,
    /// There is a tree, and a name of it is not resolved.
    Unresolved,
    /// It completes the part.
    Whole,
}

impl Part {
    /// Whether an end completes it.
    pub fn ends_by(&self, alloc: Global, end: &[u8]) -> Result<bool, NoMemory> {
        match &self.whole {
            Some(whole) => {
                let text = self.with_end(alloc, whole, end)?;
                is_resolved(alloc, self.front, text.as_slice())
            }
            None => self.has_tree(alloc, end),
        }
    }

    /// Whether it has a tree with an end.
    fn has_tree(&self, alloc: Global, end: &[u8]) -> Result<bool, NoMemory> {
        let text = self.with_end(alloc, &self.own, end)?;
        has_tree(alloc, self.front, text.as_slice())
    }

    /// What comes of an end.
    fn tried(&self, alloc: Global, end: &[u8]) -> Result<Tried, NoMemory> {
        if !self.has_tree(alloc, end)? {
            return Ok(Tried::NoTree);
        }
        if self.whole.is_none() || self.ends_by(alloc, end)? {
            return Ok(Tried::Whole);
        }
        Ok(Tried::Unresolved)
    }

    /// What is there, an end, and what closes the containers.
    fn with_end(&self, alloc: Global, there: &Octets, end: &[u8]) -> Result<Octets, NoMemory> {
        let mut text = Octets::from_slice(alloc, there.as_slice())?;
        text.append(b" ")?;
        text.append(end)?;
        text.append(self.closers.as_slice())?;
        Ok(text)
    }

    /// Whether a tree is as much as may be asked: the file is long, and one end has to stand for all.
    fn is_long(&self) -> bool {
        match &self.whole {
            Some(whole) => whole.len() > LONG,
            None => false,
        }
    }

    /// Whether some end completes it.
    pub fn goes_on(&self, alloc: Global) -> Result<bool, NoMemory> {
        if self.first_end(alloc)?.is_some() {
            return Ok(true);
        }
        self.closes(alloc)
    }

    /// Whether it is completed where its brackets are closed.
    fn closes(&self, alloc: Global) -> Result<bool, NoMemory> {
        if self.closing.brackets.len() == 0 || self.is_long() {
            return Ok(false);
        }
        for inner in INNER {
            for outer in OUTER {
                let mut end = Octets::from_slice(alloc, inner)?;
                end.append(self.closing.brackets.as_slice())?;
                end.append(outer)?;
                end.append(self.closing.braces.as_slice())?;
                if self.tried(alloc, end.as_slice())? == Tried::Whole {
                    return Ok(true);
                }
            }
        }
        Ok(false)
    }

    /// The first end that completes it; of a long file the first one that gives a tree, if it does.
    pub fn first_end(&self, alloc: Global) -> Result<Option<&'static [u8]>, NoMemory> {
        let mut end = NOTHING;
        let mut rest = models_of(self.front);
        for _ in models_of(self.front) {
            let tried = self.tried(alloc, end)?;
            if tried == Tried::Whole {
                return Ok(Some(end));
            }
            if tried == Tried::Unresolved && self.is_long() || rest.is_empty() {
                return Ok(None);
            }
            end = first_line(rest);
            rest = past_word(rest);
        }
        Ok(None)
    }

    /// The ends that give a tree, each of another first word.
    pub fn ends(&self, alloc: Global) -> Result<Ends, NoMemory> {
        let models = models_of(self.front);
        let mut ends = Ends::new(alloc);
        let mut rest = models;
        for _ in models {
            let end = first_line(rest);
            if !rest.is_empty() && !is_there(&ends, end) && self.has_tree(alloc, end)? {
                ends.push(end)?;
            }
            rest = past_word(rest);
        }
        Ok(ends)
    }
}

/// What a word of a model stands for: a name, a number, or itself.
fn kind_of(word: &[u8]) -> &[u8] {
    match word {
        [b'q', b'z', ..] => b"a name",
        [b'0'..=b'9', ..] => b"a number",
        _ => word,
    }
}

/// Whether one of the ends begins with a word that stands for the same.
fn is_there(ends: &Ends, end: &[u8]) -> bool {
    for other in ends.as_slice() {
        if kind_of(first_word(other)) == kind_of(first_word(end)) {
            return true;
        }
    }
    false
}

/// The first word.
pub fn first_word(end: &[u8]) -> &[u8] {
    let length = end.iter().take_while(|o| **o > b' ').count();
    cut(end, 0, length)
}

/// What is left of the first line.
fn first_line(rest: &[u8]) -> &[u8] {
    let length = rest.iter().take_while(|o| **o != b'\n').count();
    cut(rest, 0, length)
}

/// What comes after the first word and the octet after it.
pub fn past_word(rest: &[u8]) -> &[u8] {
    from(rest, first_word(rest).len().saturating_add(1))
}
