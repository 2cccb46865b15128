//! `! cover`: the operation at which what is ensured ends, and how many octets lack.

use crate::stub_cuts::{Cut, Cuts, cuts_of, put_ends};
use crate::stub_parts::{Part, line_at, stub_in};
use crate::text::{cut, from, shown, text_of};
use kit_base::{NoMemory, Octets};
use mint::table::{Mint, NodeId};
use std::alloc::Global;
use stub_compare::compare_calls::find_spots;
use stub_places::steps_of;
use stub_rooms::covers_code;

/// No search takes more steps.
const STEPS: usize = 64;

/// A stub whose room is asked for: its text, where it may be cut, and over which types it goes.
#[derive(Clone, Copy)]
struct Roomed<'a> {
    text: &'a [u8],
    cuts: &'a Cuts,
    mint: &'a Mint,
    id: NodeId,
    spots: &'a [Option<NodeId>],
}

/// The line of a stub at which its room ends, from the first of its text, and what is said of it.
#[derive(Drop)]
pub struct Lacking {
    /// How many lines come before it.
    pub lines: usize,
    /// What is said of it.
    pub reported: String,
}

/// The operation of a stub at which its room ends.
pub fn lack_of(
    alloc: Global,
    part: &Part<'_>,
    mint: &Mint,
    id: NodeId,
) -> Result<Option<Lacking>, NoMemory> {
    let Some(stub) = stub_in(alloc, part.text)? else {
        return Ok(None);
    };
    let mut left = steps_of(part.text.len());
    let Some(spots) = find_spots(alloc, mint, id, &stub.code, &mut left)? else {
        return Ok(None);
    };
    let cuts = cuts_of(alloc, part.text)?;
    let roomed = Roomed {
        text: part.text,
        cuts: &cuts,
        mint,
        id,
        spots: spots.as_slice(),
    };
    roomed.lack(alloc)
}

impl Roomed<'_> {
    /// What stands behind the operations: the codes that calls name, and the last line.
    fn tail(&self) -> &[u8] {
        match self.cuts.get(self.cuts.len().saturating_sub(1)) {
            Some(last) => from(self.text, last.at),
            None => &[],
        }
    }

    /// Whether the text up to a place, and lines after it, is covered.
    fn is_covered(
        &self,
        alloc: Global,
        place: &Cut,
        lines: &[u8],
        open: usize,
    ) -> Result<bool, NoMemory> {
        let mut text = Octets::from_slice(alloc, cut(self.text, 0, place.at))?;
        text.append(lines)?;
        put_ends(&mut text, open)?;
        text.append(self.tail())?;
        match stub_in(alloc, text.as_slice())? {
            Some(stub) => {
                let mut left = steps_of(text.len());
                covers_code(alloc, &stub.code, self.mint, self.id, self.spots, &mut left)
            }
            None => Ok(false),
        }
    }

    /// Whether the text up to a place, with a line and a block after it, is covered.
    fn has_room(&self, alloc: Global, place: &Cut, octets: u32) -> Result<bool, NoMemory> {
        let lines = format!(in alloc; "chunk {octets}\nend\n")?;
        self.is_covered(alloc, place, lines.as_bytes(), place.open)
    }

    /// Whether the text up to a place is covered, where so many octets are ensured before its last operation.
    fn suffices(
        &self,
        alloc: Global,
        before: &Cut,
        place: &Cut,
        octets: u32,
    ) -> Result<bool, NoMemory> {
        let line = format!(in alloc; "ensure {octets}\n")?;
        let mut lines = Octets::from_slice(alloc, line.as_bytes())?;
        lines.append(cut(self.text, before.at, place.at))?;
        self.is_covered(alloc, before, lines.as_slice(), place.open)
    }

    /// The last place up to which the text is covered, and the next one.
    fn ends(&self, alloc: Global) -> Result<Option<(Cut, Cut)>, NoMemory> {
        let mut low = 0usize;
        let mut high = self.cuts.len().saturating_sub(1);
        for _ in 0..STEPS {
            let middle = low.saturating_add(high.saturating_sub(low) / 2);
            if middle <= low {
                return Ok(self.pair(low, high));
            }
            let Some(place) = self.cuts.get(middle) else {
                return Ok(None);
            };
            if self.is_covered(alloc, place, &[], place.open)? {
                low = middle;
            } else {
                high = middle;
            }
        }
        Ok(None)
    }

    /// Two places.
    fn pair(&self, low: usize, high: usize) -> Option<(Cut, Cut)> {
        match (self.cuts.get(low), self.cuts.get(high)) {
            (Some(before), Some(place)) => Some((*before, *place)),
            _ => None,
        }
    }

    /// How many octets are left at a place, at most.
    fn room(&self, alloc: Global, place: &Cut) -> Result<u32, NoMemory> {
        let mut low = 0u32;
        let mut high = u32::MAX;
        for _ in 0..STEPS {
            let middle = low.saturating_add(high.saturating_sub(low) / 2);
            if middle <= low {
                return Ok(low);
            }
            if self.has_room(alloc, place, middle)? {
                low = middle;
            } else {
                high = middle;
            }
        }
        Ok(low)
    }

    /// How many octets have to be ensured for the operation after a place, where some number is enough.
    fn needed(&self, alloc: Global, before: &Cut, place: &Cut) -> Result<Option<u32>, NoMemory> {
        if !self.suffices(alloc, before, place, u32::MAX)? {
            return Ok(None);
        }
        let mut low = 0u32;
        let mut high = u32::MAX;
        for _ in 0..STEPS {
            let middle = low.saturating_add(high.saturating_sub(low) / 2);
            if middle <= low {
                return Ok(Some(high));
            }
            if self.suffices(alloc, before, place, middle)? {
                high = middle;
            } else {
                low = middle;
            }
        }
        Ok(Some(high))
    }

    /// The operation at which room ends, and how much lacks.
    fn lack(&self, alloc: Global) -> Result<Option<Lacking>, NoMemory> {
        let Some((before, place)) = self.ends(alloc)? else {
            return Ok(None);
        };
        let words = shown(alloc, line_at(self.text, before.at))?;
        let room = self.room(alloc, &before)?;
        let lack = match self.needed(alloc, &before, &place)? {
            Some(needed) => {
                let lack = needed.saturating_sub(room);
                format!(in alloc; "{lack} more are needed")?
            }
            None => text_of(alloc, "they are too few")?,
        };
        let reported = format!(in alloc; "at '{words}' {room} octets are left, and {lack}")?;
        Ok(Some(Lacking {
            lines: before.lines,
            reported,
        }))
    }
}
