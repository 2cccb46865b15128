//! A stream that is fed in pieces, and gives its messages.

ghost use Rattle.std.specs.Prelude.{◌≡◌, ◌≢◌, ◌≤◌, [], ◌++◌, ◌↔◌, length, take, drop, true, List, ℕ, Some, Ok, Err, IfOk, IfErr, IfSome, OnOk, OnErr};
ghost use Rattle.wire_frames.specs.First.{answered, end_of, first, IsMessage, left};
ghost use Rattle.wire_frames.specs.Passed.{Stream};

use crate::finding::{Mark, giop_end, mach_end, record_end, rest_from};
use crate::joining::first_message;
use kit_base::{NoMemory, Octets};
use std::alloc::Global;
use std::marker::Model;
use wire_def::Back;

/// Why a stream gives no message.
#[derive(Clone, Copy, Debug, PartialEq, Eq)]
pub enum FrameErr {
    /// Twelve octets that do not begin with the letters GIOP.
    Magic,
    /// A size below that of a Mach header.
    Size,
    /// A message above the greatest length.
    TooLong,
    /// Out of memory.
    NoMemory,
}

/// The octets of a stream that were fed and not given yet.
///
/// Each octet of a header is looked at once to find where a record ends, whatever the pieces, and each message is copied
/// once.
#[derive(Drop)]
pub struct Frames {
    alloc: Global,
    back: Back,
    octets: Vec<u8>,
    start: usize,
    at: usize,
    sum: usize,
}

impl Model for Frames {
    ghost use Rattle.std.specs.Prelude.{◌≤◌, drop, length};
    ghost use Rattle.wire_frames.specs.Passed.{Passed, Stream};

    ghost Value = { Stream };

    ghost view = { λ f. record { back = f.back; kept = drop f.start f.octets.items } };

    ghost invariant = { λ f. (f.start ≤ length f.octets.items) × Passed (drop f.start f.octets.items) f.at f.sum };
}

impl Frames {
    /// A stream of messages of this back end, of which nothing was fed.
    pub fn new(alloc: Global, back: Back) -> Frames
        ensures { result ≡ record { back = back; kept = [] } }
    {
        Frames {
            alloc,
            back,
            octets: Vec::new(alloc),
            start: 0,
            at: 0,
            sum: 0,
        }
    }

    /// Appends a piece to what is kept. Where memory runs out, nothing is changed.
    pub fn feed(&mut self, piece: &[u8]) -> Result<(), NoMemory>
        ensures ok { OnOk result (self.new ≡ record self.old { kept = self.old.kept ++ piece.now }) }
        ensures err { OnErr result (self.new ≡ self.old) }
    {
        self.settle();
        self.append(piece)
    }

    /// The first message of what is kept, which is taken off it; none where it is not whole yet. A fault is the answer
    /// for good. Where memory runs out, nothing is changed.
    pub fn next(&mut self) -> Result<Option<Octets>, FrameErr>
        ensures value { result ≢ Err FrameErr.NoMemory
            → result ≡ answered (first self.old.back self.old.kept) }
        ensures kept { result ≢ Err FrameErr.NoMemory
            → self.new ≡ record self.old { kept = left self.old.kept (first self.old.back self.old.kept) } }
        ensures memory { result ≡ Err FrameErr.NoMemory → (self.new ≡ self.old)
            × ((message : List ℕ) × (used : ℕ) × IsMessage (first self.old.back self.old.kept) message used) }
    {
        match self.find() {
            Ok(Some(used)) => match self.take_first(used) {
                Ok(message) => Ok(Some(message)),
                Err(NoMemory) => Err(FrameErr::NoMemory),
            },
            Ok(None) => Ok(None),
            Err(error) => Err(error),
        }
    }

    /// Whether nothing is kept.
    pub fn idle(&self) -> bool
        ensures { (result ≡ true) ↔ (self.now.kept ≡ []) }
    {
        self.start == self.octets.len()
    }

    /// The place where the first frame ends, counted in what is kept.
    fn find(&mut self) -> Result<Option<usize>, FrameErr>
        ensures value { result ≡ end_of (first self.old.back self.old.kept) }
        ensures same { self.new ≡ self.old }
    {
        let kept = rest_from(self.octets.as_slice(), self.start);
        match self.back {
            Back::Xdr => {
                let mut mark = Mark {
                    at: self.at,
                    sum: self.sum,
                };
                let end = record_end(kept, &mut mark);
                self.at = mark.at;
                self.sum = mark.sum;
                end
            }
            Back::CdrBig | Back::CdrLittle => giop_end(kept),
            Back::Mach => mach_end(kept),
        }
    }

    /// The first message, whose frame has so many octets: it is taken off what is kept.
    fn take_first(&mut self, used: usize) -> Result<Octets, NoMemory>
        requires { (message : List ℕ) × IsMessage (first self.old.back self.old.kept) message used }
        ensures ok { IfOk result (λ message. IsMessage (first self.old.back self.old.kept) message used) }
        ensures kept { OnOk result (self.new ≡ record self.old { kept = drop used self.old.kept }) }
        ensures err { OnErr result (self.new ≡ self.old) }
    {
        let message = first_message(self.alloc(), self.back(), self.kept(), used)?;
        self.pass(used);
        Ok(message)
    }

    fn alloc(&self) -> Global {
        self.alloc
    }

    fn back(&self) -> Back
        ensures { result ≡ self.now.back }
    {
        self.back
    }

    fn kept(&self) -> &[u8]
        ensures { result.now ≡ self.now.kept }
    {
        rest_from(self.octets.as_slice(), self.start)
    }

    /// Takes so many octets off what is kept.
    fn pass(&mut self, used: usize)
        requires { used ≤ length self.old.kept }
        ensures { self.new ≡ record self.old { kept = drop used self.old.kept } }
    {
        self.start += used;
        self.at = 0;
        self.sum = 0;
    }

    /// Moves what is kept to the beginning, where at least as many octets were given.
    fn settle(&mut self)
        ensures { self.new ≡ self.old }
    {
        let kept = self.octets.len() - self.start;
        if kept <= self.start {
            self.octets.copy_within(self.start.., 0);
            self.octets.truncate(kept);
            self.start = 0;
        }
    }

    /// Appends a piece to what is kept.
    fn append(&mut self, piece: &[u8]) -> Result<(), NoMemory>
        ensures ok { OnOk result (self.new ≡ record self.old { kept = self.old.kept ++ piece.now }) }
        ensures err { OnErr result (self.new ≡ self.old) }
    {
        self.octets.extend_from_slice(piece)?;
        Ok(())
    }
}
