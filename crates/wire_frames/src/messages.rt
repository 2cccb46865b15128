//! The messages of a source.

ghost use Rattle.std.specs.Prelude.{◌≡◌, ◌≢◌, ◌<◌, ◌≤◌, ◌-◌, ◌+◌, ◌^◌, ◌↔◌, [], ◌++◌, length, drop, take, List, ℕ, Ok, Err, Some, None, IfOk, IfErr, OnOk, OnErr, IfSome, true, false};
ghost use Rattle.std.specs.Io.KnownBytes.{Consumes, IsAtEnd, Keeps};
ghost use Rattle.kit_base.specs.Causes.{Rose};
ghost use Rattle.kit_base.specs.declared.lines.LineErr.{LineErr};
ghost use Rattle.wire_frames.specs.First.{first, left, more};
ghost use Rattle.wire_frames.specs.Reading.{Reader, Reads, found_in, is_end, work};

use crate::frames::{FrameErr, Frames};
use crate::taking::fed_from;
use kit_base::{LineErr, NoMemory, Octets, Source};
use std::alloc::Global;
use std::marker::Model;
use wire_def::Back;

/// How many octets are read at once.
const PIECE: usize = 65_536;

/// A part of a stream.
#[derive(Debug, Drop)]
pub enum Part {
    /// A message.
    Message(Octets),
    /// A fault, behind which there are no messages.
    Fault(FrameErr),
    /// The beginning of a message, with which the stream ends.
    Cut,
}

/// The messages of a source, and what was read of the next ones. Each is given as soon as it is whole.
#[derive(Drop)]
pub struct Messages {
    frames: Frames,
    piece: Vec<u8>,
    taken: u64,
    most: u64,
    over: bool,
}

impl Model for Messages {
    ghost use Rattle.std.specs.Prelude.{◌≤◌, ◌+◌, ◌<◌, ◌^◌, ◌-◌};
    ghost use Rattle.wire_frames.specs.Reading.{Reader};

    ghost Value = { Reader };

    ghost view = { λ m. record { back = m.frames.back; kept = m.frames.kept; taken = m.taken; most = m.most; over = m.over } };

    // At most one octet above `most` is taken.
    ghost invariant = { λ m. (m.taken ≤ m.most + 1) × (m.most < 2 ^ 64 - 1) };
}

impl Messages {
    /// The messages of a stream of this back end, of which nothing was read, and `most` octets may be.
    pub fn new(alloc: Global, back: Back, most: u64) -> Messages
        requires { most < 2 ^ 64 - 1 }
        ensures { result ≡ record { back = back; kept = []; taken = 0; most = most; over = false } }
    {
        Messages {
            frames: Frames::new(alloc, back),
            piece: Vec::new(alloc),
            taken: 0,
            most,
            over: false,
        }
    }

    /// The next part, or none at the end: each message, and then perhaps why there are no more. Without a message or
    /// a fault in what is kept, the source is read.
    pub fn next<S: Source>(&mut self, source: &mut S) -> Result<Option<Part>, LineErr>
        // What was taken and given.
        ensures reads { self.old.over ≡ false
            → Reads (S.left source.old) (S.left source.new) self.old self.new result }
        ensures over { self.old.over ≡ true → (result ≡ Ok None) × (S.left source.new ≡ S.left source.old) }
        ensures falls { IfOk result (λ o. IfSome o (λ p. work self.new < work self.old)) }
        // Whether the source failed.
        ensures later { S.faults source.old ≤ S.faults source.new }
        ensures reported { result ≢ Err LineErr.Failed → S.faults source.old ≡ S.faults source.new }
        ensures failed { result ≡ Err LineErr.Failed → Rose (S.faults source.old) (S.faults source.new) }
    {
        if self.is_over() {
            return Ok(None);
        }
        self.read_on(source)
    }

    fn read_on<S: Source>(&mut self, source: &mut S) -> Result<Option<Part>, LineErr>
        requires { self.old.over ≡ false }
        ensures reads { Reads (S.left source.old) (S.left source.new) self.old self.new result }
        ensures falls { IfOk result (λ o. IfSome o (λ p. work self.new < work self.old)) }
        // Whether the source failed.
        ensures later { S.faults source.old ≤ S.faults source.new }
        ensures reported { result ≢ Err LineErr.Failed → S.faults source.old ≡ S.faults source.new }
        ensures failed { result ≡ Err LineErr.Failed → Rose (S.faults source.old) (S.faults source.new) }
    {
        loop {
            if self.took_more() {
                return Err(LineErr::TooMuch);
            }
            match self.found() {
                Ok(Some(part)) => {
                    self.close(&part);
                    return Ok(Some(part));
                }
                Ok(None) => {}
                Err(NoMemory) => return Err(LineErr::NoMemory),
            }
            let count = match self.refill(source) {
                Ok(count) => count,
                Err(error) => return Err(error),
            };
            if count == 0 {
                return Ok(self.last());
            }
        }
    }

    /// What is found at the front of what is kept.
    fn found(&mut self) -> Result<Option<Part>, NoMemory>
        ensures value { IfOk result (λ o. o ≡ found_in (first self.old.back self.old.kept)) }
        ensures kept { OnOk result (self.new
            ≡ record self.old { kept = left self.old.kept (first self.old.back self.old.kept) }) }
        ensures err { OnErr result (self.new ≡ self.old) }
    {
        match self.frames.next() {
            Ok(Some(message)) => Ok(Some(Part::Message(message))),
            Ok(None) => Ok(None),
            Err(FrameErr::NoMemory) => Err(NoMemory),
            Err(fault) => Ok(Some(Part::Fault(fault))),
        }
    }

    /// What is left at the end of a stream.
    fn last(&mut self) -> Option<Part>
        ensures none { result ≡ None → (self.old.kept ≡ []) × (self.new ≡ self.old) }
        ensures some { IfSome result (λ p. (p ≡ Part.Cut) × (self.old.kept ≢ [])
            × (self.new ≡ record self.old { over = true })) }
    {
        if self.frames.idle() {
            return None;
        }
        self.over = true;
        Some(Part::Cut)
    }

    /// Keeps whether the stream ends with a part.
    fn close(&mut self, part: &Part)
        ensures { self.new ≡ record self.old { over = is_end part.now } }
    {
        self.over = is_end(part);
    }

    fn is_over(&self) -> bool
        ensures { result ≡ self.now.over }
    {
        self.over
    }

    fn took_more(&self) -> bool
        ensures over { result ≡ true → self.now.most < self.now.taken }
        ensures within { result ≡ false → self.now.taken ≤ self.now.most }
    {
        self.taken > self.most
    }

    /// Reads once, and appends what came to what is kept. At most one octet above the greatest number is taken.
    fn refill<S: Source>(&mut self, source: &mut S) -> Result<usize, LineErr>
        requires room { self.old.taken ≤ self.old.most }
        // What was read.
        ensures kept { OnOk result (take (length self.old.kept) self.new.kept ≡ self.old.kept) }
        ensures got { OnOk result (Consumes (S.left source.old) (S.left source.new)
            (drop (length self.old.kept) self.new.kept)) }
        ensures count { IfOk result (λ n. (length self.new.kept ≡ length self.old.kept + n)
            × (self.new.taken ≡ self.old.taken + n)) }
        ensures same { (self.new.back ≡ self.old.back) × (self.new.most ≡ self.old.most)
            × (self.new.over ≡ self.old.over) }
        ensures bound { self.new.taken ≤ self.new.most + 1 }
        // When the source is at its end.
        ensures end { IfOk result (λ n. n ≡ 0 → IsAtEnd (S.left source.new)) }
        // When it fails.
        ensures none { result ≡ Err LineErr.Failed → (self.new ≡ self.old)
            × Keeps (S.left source.old) (S.left source.new) }
        ensures few { result ≡ Err LineErr.NoMemory → (got : List ℕ)
            × Consumes (S.left source.old) (S.left source.new) got
            × (self.old.taken + length got ≤ self.old.most) }
        ensures too_much { result ≡ Err LineErr.TooMuch → (got : List ℕ)
            × Consumes (S.left source.old) (S.left source.new) got
            × (self.old.most < self.old.taken + length got) }
        ensures later { S.faults source.old ≤ S.faults source.new }
        ensures reported { result ≢ Err LineErr.Failed → S.faults source.old ≡ S.faults source.new }
        ensures failed { result ≡ Err LineErr.Failed → Rose (S.faults source.old) (S.faults source.new) }
    {
        if self.piece.resize(PIECE, 0).is_err() {
            return Err(LineErr::NoMemory);
        }
        let room = self.most - self.taken;
        let wanted = (room + 1).min(PIECE as u64) as usize;
        let piece = &mut self.piece.as_mut_slice()[..wanted];
        match fed_from(source, piece, room, &mut self.frames) {
            Ok(count) => {
                self.taken += count as u64;
                Ok(count)
            }
            Err(LineErr::TooMuch) => {
                self.taken = self.most + 1;
                Err(LineErr::TooMuch)
            }
            Err(error) => Err(error),
        }
    }
}

/// Whether a stream ends with a part.
fn is_end(part: &Part) -> bool
    ensures { result ≡ is_end part.now }
{
    match part {
        Part::Message(_) => false,
        Part::Fault(_) | Part::Cut => true,
    }
}
