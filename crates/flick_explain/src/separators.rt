//! What stands between the parts of a long declaration: fields, items, parameters.

use crate::files::is_mark;
use crate::furthest::Question;

/// What may stand between parts.
const MARKS: [&[u8]; 2] = [b";", b","];

/// What may stand between them where none of these does: labels, the names of scopes, arrays of arrays.
const INNER_MARKS: [&[u8]; 3] = [b":", b"::", b"]"];

/// Within how many brackets parts are looked for, from 0.
const DEPTHS: usize = 6;

/// What stands between parts.
#[derive(Clone, Copy)]
pub struct Separator {
    /// The mark.
    pub mark: &'static [u8],
    /// Within how many brackets.
    pub depth: usize,
    /// How often it is there.
    pub count: usize,
}

impl Question<'_> {
    /// What is there most often, where that is more than twice.
    pub fn separator(&self) -> Option<Separator> {
        let mut most = None;
        for mark in MARKS {
            most = self.most_frequent(most, mark);
        }
        if most.is_none() {
            for mark in INNER_MARKS {
                most = self.most_frequent(most, mark);
            }
        }
        most
    }

    /// The most frequent of one, and of a mark within each number of brackets.
    fn most_frequent(&self, most: Option<Separator>, mark: &'static [u8]) -> Option<Separator> {
        let mut most = most;
        for (depth, count) in self.counts(mark).iter().enumerate() {
            let found = Separator {
                mark,
                depth,
                count: *count,
            };
            most = more_frequent(most, found);
        }
        most
    }

    /// How often a mark is there within each number of brackets.
    fn counts(&self, mark: &[u8]) -> [usize; DEPTHS] {
        let mut counts = [0usize; DEPTHS];
        let mut depth = 0usize;
        for i in self.statement.first..self.statement.end {
            depth = self.depth_after(i, depth);
            if depth < DEPTHS && is_mark(self.placed.kind(i), mark) {
                counts[depth] = counts[depth].saturating_add(1);
            }
        }
        counts
    }

    /// How many brackets are open after a token, where so many are before it.
    pub fn depth_after(&self, i: usize, depth: usize) -> usize {
        let kind = self.placed.kind(i);
        if is_mark(kind, b"{") || is_mark(kind, b"(") {
            return depth.saturating_add(1);
        }
        if is_mark(kind, b"}") || is_mark(kind, b")") {
            return depth.saturating_sub(1);
        }
        depth
    }
}

/// The more frequent of two, of which the first is there more than twice.
fn more_frequent(most: Option<Separator>, found: Separator) -> Option<Separator> {
    let least = match most {
        Some(other) => other.count,
        None => 2,
    };
    if found.count > least {
        Some(found)
    } else {
        most
    }
}
