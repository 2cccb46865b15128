//! The files of a run, as they are now.

use crate::command::Run;
use crate::ended::Ended;
use kit_base::limits::{LONGEST_FILE, LONGEST_REPLIES, LONGEST_STUBS, MOST_INPUT};
use kit_base::{Octets, Shelf, ShelfErr};
use std::alloc::Global;

/// The files of a run, each where it is there.
#[derive(Drop)]
pub struct Shelved {
    file: Option<Octets>,
    replies: Option<Octets>,
    stubs: Option<Octets>,
    lines: Option<Octets>,
}

impl Shelved {
    /// The files that a run names. Of those that are too long, one octet more than they may have.
    pub fn of<F: Shelf>(alloc: Global, run: &Run<'_>, shelf: &mut F) -> Result<Shelved, Ended> {
        let file = content(alloc, run.path, LONGEST_FILE + 1, shelf)?;
        let replies = content_at(alloc, run.replies, LONGEST_REPLIES + 1, shelf)?;
        let stubs = content_at(alloc, run.stubs, LONGEST_STUBS + 1, shelf)?;
        let lines = content_at(alloc, run.lines, MOST_INPUT as u32, shelf)?;
        Ok(Shelved {
            file,
            replies,
            stubs,
            lines,
        })
    }

    /// The octets of the interface file.
    pub fn file(&self) -> Option<&[u8]> {
        octets_of(&self.file)
    }

    /// The octets of the file of replies.
    pub fn replies(&self) -> Option<&[u8]> {
        octets_of(&self.replies)
    }

    /// The octets of the file of stubs.
    pub fn stubs(&self) -> Option<&[u8]> {
        octets_of(&self.stubs)
    }

    /// The octets of what the run read.
    pub fn lines(&self) -> Option<&[u8]> {
        octets_of(&self.lines)
    }
}

/// The octets of a file that is there.
fn octets_of(file: &Option<Octets>) -> Option<&[u8]> {
    match file {
        Some(octets) => Some(octets.as_slice()),
        None => None,
    }
}

/// The octets of the file at a path, where the run has one and it is there.
fn content_at<F: Shelf>(
    alloc: Global,
    path: Option<&[u8]>,
    most: u32,
    shelf: &mut F,
) -> Result<Option<Octets>, Ended> {
    match path {
        Some(path) => content(alloc, path, most, shelf),
        None => Ok(None),
    }
}

/// The octets of a file, where it is there.
fn content<F: Shelf>(
    alloc: Global,
    path: &[u8],
    most: u32,
    shelf: &mut F,
) -> Result<Option<Octets>, Ended> {
    match shelf.read_file(alloc, path, most) {
        Ok(octets) => Ok(Some(octets)),
        Err(ShelfErr::Absent) => Ok(None),
        Err(ShelfErr::Failed) => Err(Ended::Shelf),
        Err(ShelfErr::NoMemory) => Err(Ended::NoMemory),
    }
}
