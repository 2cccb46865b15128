//! What is said of an answer of `check`: the line of the file of stubs, and what is there.

use crate::causes::Cause;
use crate::command::Run;
use crate::lexing::put_cause;
use crate::records::{dotted, unknown_reported};
use crate::refusals::Refusal;
use crate::stub_lack::lack_of;
use crate::stub_parts::{Part, part_of, stub_in};
use crate::stub_units::{first_other, own_text};
use crate::text::{number_in, shown, text_of};
use kit_base::{Name, NoMemory};
use mint::table::NodeId;
use pres::Bound;
use std::alloc::Global;

/// A run of `check` over files that are there.
#[derive(Clone, Copy)]
pub struct Checked<'a> {
    /// The run.
    pub run: Run<'a>,
    /// The path of the file of stubs.
    pub path: &'a [u8],
    /// Its octets.
    pub stubs: &'a [u8],
    /// The octets of the interface file.
    pub text: &'a [u8],
    /// That file bound to the back end of the run.
    pub bound: &'a Bound,
}

/// A line of the file of stubs, and what is said of it.
#[derive(Drop)]
struct Said {
    line: usize,
    reported: String,
}

/// What is said of a file of stubs as a whole.
pub fn stubs_reported(alloc: Global, path: &[u8], word: &[u8]) -> Result<Option<String>, NoMemory> {
    let what = match word {
        b"file" => "there is no such file",
        b"size" => "a file of stubs has at most 8388608 octets",
        _ => return Ok(None),
    };
    let path = shown(alloc, path)?;
    Ok(Some(format!(in alloc; "{path}: {what}\n")?))
}

impl Checked<'_> {
    /// What is said of a refusal, which is the answer of this number, from 1.
    pub fn reported(
        &self,
        alloc: Global,
        refusal: &Refusal<'_>,
        number: usize,
        cause: &Cause,
    ) -> Result<Option<String>, NoMemory> {
        match self.said(alloc, refusal, number)? {
            Some(said) => {
                let path = shown(alloc, self.path)?;
                let mut out = format!(in alloc; "{path}:{}: {}\n", said.line, said.reported)?;
                put_cause(&mut out, cause)?;
                Ok(Some(out))
            }
            None => Ok(None),
        }
    }

    /// The line of a refusal, and what is there.
    fn said(
        &self,
        alloc: Global,
        refusal: &Refusal<'_>,
        number: usize,
    ) -> Result<Option<Said>, NoMemory> {
        if refusal.word == b"text".as_slice() {
            return self.none_begins(alloc, refusal.kind);
        }
        match part_of(alloc, self.stubs, number)? {
            Some(part) => self.part_said(alloc, refusal, &part),
            None => Ok(None),
        }
    }

    /// The line at which no stub begins.
    fn none_begins(&self, alloc: Global, line: &[u8]) -> Result<Option<Said>, NoMemory> {
        match number_in(line) {
            Some(line) => Ok(Some(Said {
                line: line as usize,
                reported: text_of(alloc, "no text of code that sends begins here")?,
            })),
            None => Ok(None),
        }
    }

    /// What is said of a stub that was refused.
    fn part_said(
        &self,
        alloc: Global,
        refusal: &Refusal<'_>,
        part: &Part<'_>,
    ) -> Result<Option<Said>, NoMemory> {
        let Some(stub) = stub_in(alloc, part.text)? else {
            return Ok(None);
        };
        match self.request_of(alloc, &stub.name)? {
            Some(id) if refusal.word == b"cover".as_slice() => self.cover_said(alloc, part, id),
            Some(id) => self.meaning_said(alloc, part, &stub.name, id),
            None => Ok(Some(Said {
                line: part.line,
                reported: unknown_reported(alloc, self.bound, stub.name.as_slice())?,
            })),
        }
    }

    /// The node of the requests of the first operation of a name.
    fn request_of(&self, alloc: Global, name: &Name) -> Result<Option<NodeId>, NoMemory> {
        for op in self.bound.ops().as_slice() {
            if dotted(alloc, self.bound, op)?.as_slice() == name.as_slice() {
                return Ok(Some(op.request));
            }
        }
        Ok(None)
    }

    /// Where the room of a stub ends.
    fn cover_said(
        &self,
        alloc: Global,
        part: &Part<'_>,
        id: NodeId,
    ) -> Result<Option<Said>, NoMemory> {
        match lack_of(alloc, part, self.bound.mint(), id)? {
            Some(found) => Ok(Some(Said {
                line: part.line.saturating_add(found.lines),
                reported: found.reported,
            })),
            None => Ok(Some(Said {
                line: part.line,
                reported: text_of(alloc, "a code that is called lacks room")?,
            })),
        }
    }

    /// Where a stub is written otherwise than our own.
    fn meaning_said(
        &self,
        alloc: Global,
        part: &Part<'_>,
        name: &Name,
        id: NodeId,
    ) -> Result<Option<Said>, NoMemory> {
        if let Some(own) = own_text(alloc, &self.run, self.text, name)? {
            if let Some(found) = first_other(alloc, self.bound, id, part.text, own.as_slice())? {
                return Ok(Some(Said {
                    line: part.line.saturating_add(found.lines),
                    reported: found.reported,
                }));
            }
        }
        Ok(Some(Said {
            line: part.line,
            reported: text_of(
                alloc,
                "an offset, a chunk or an octet is not as in our own code",
            )?,
        }))
    }
}
