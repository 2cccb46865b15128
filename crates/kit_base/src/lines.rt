//! The lines of a source.
ghost use Rattle.std.specs.Prelude.{◌≡◌, ◌≢◌, ◌<◌, ◌≤◌, ◌-◌, ◌+◌, ◌^◌, [], ◌∷◌, ◌++◌, length, take, drop, OnOk, OnErr, IfOk, IfErr, IfSome, IfNone, Some, None, true, false, option_to_list, if◌then◌else◌};
ghost use Rattle.kit_base.specs.Causes.{Rose};
ghost use Rattle.kit_base.specs.Lines.{State, Passed, Advances, answered, pending, HasNoEnd, KnowsEnd, line_of, line_in, IsFound, work};
ghost use Rattle.std.specs.Io.KnownBytes.{Consumes};
ghost use Rattle.kit_base.specs.declared.lines.Line.TheVariants.{Long};
ghost use Rattle.kit_base.specs.declared.lines.LineErr.{LineErr};

use crate::line_text::{find_end, read_line};
use crate::reading::{discard_prefix, read_after};
use crate::{Octets, Source};
use std::alloc::Global;
use std::marker::Model;

const PIECE: usize = 65_536;

/// A line of an input, without the line feed and the carriage return at its end.
#[derive(Debug, Drop)]
pub enum Line {
    /// The octets of a line that is neither empty nor too long.
    Text(Octets),
    /// A line above the greatest length. Its octets are passed over.
    Long,
    /// The input has ended.
    End,
}

impl Line {
    /// Whether the input has ended.
    pub fn is_end(&self) -> bool
        ensures end { result ≡ true → self.now ≡ Line.End }
        ensures line { result ≡ false → self.now ≢ Line.End }
    {
        matches!(self, Line::End)
    }
}

/// Why no line is given. After an error each call gives the same error.
#[derive(Clone, Copy, Debug, PartialEq, Eq)]
pub enum LineErr {
    /// A read failed.
    Failed,
    /// The input has more octets than are allowed.
    TooMuch,
    /// Out of memory.
    NoMemory,
}

/// The lines of an input, and what was read of the next ones.
#[derive(Drop)]
pub struct Lines {
    alloc: Global,
    longest: u32,
    most: u64,
    piece: Vec<u8>,
    buffer: Vec<u8>,
    from: usize,
    searched: usize,
    skips: bool,
    ended: bool,
    taken: u64,
    error: Option<LineErr>,
}

impl Model for Lines {
    ghost use Rattle.std.specs.Prelude.{◌≤◌, ◌+◌, ◌<◌, ◌^◌, ◌-◌, drop, take, length};
    ghost use Rattle.kit_base.specs.Lines.{State, HasNoEnd};

    ghost Value = { State };

    ghost view = { λ s. record { longest = s.longest; most = s.most; kept = drop s.from s.buffer.items; skips = s.skips; ended = s.ended; taken = s.taken; error = s.error } };

    // From `from` on `searched` octets have no line feed. At most one octet above `most` is taken.
    // The buffer holds at most a longest line, its carriage return and a piece.
    ghost invariant = { λ s. (s.from ≤ length s.buffer.items) × (s.taken ≤ s.most + 1) × (s.most < 2 ^ 64 - 1)
        × (s.from + s.searched ≤ length s.buffer.items) × HasNoEnd (take s.searched (drop s.from s.buffer.items))
        × (length s.buffer.items ≤ s.longest + 65537) };
}

impl Lines {
    /// The lines of an input of which nothing was read. A line may have `longest` octets, and the
    /// whole input `most`.
    pub fn new(alloc: Global, longest: u32, most: u64) -> Lines
        requires { most < 2 ^ 64 - 1 }
        ensures { result ≡ record {
          longest = longest;
          most = most;
          kept = [];
          skips = false;
          ended = false;
          taken = 0;
          error = None;
        } }
    {
        Lines {
            alloc,
            longest,
            most,
            piece: Vec::new(alloc),
            buffer: Vec::new(alloc),
            from: 0,
            searched: 0,
            skips: false,
            ended: false,
            taken: 0,
            error: None,
        }
    }

    /// Does nothing. It states that at most a longest line, a carriage return and a piece are kept.
    pub fn keeps_little(&self)
        ensures { length self.now.kept ≤ self.now.longest + 65537 }
    {
        let _ = &self.buffer;
    }

    /// The next line that is not empty, or the end.
    pub fn next<S: Source>(&mut self, source: &mut S) -> Result<Line, LineErr>
        ensures lines { Advances (S.left source.old) (S.left source.new) self.old self.new (answered result) }
        ensures knows_end { KnowsEnd self.old (S.left source.old) → KnowsEnd self.new (S.left source.new) }
        // Whether the source failed.
        ensures later { S.faults source.old ≤ S.faults source.new }
        ensures reported { result ≢ Err LineErr.Failed → S.faults source.old ≡ S.faults source.new }
        ensures falls { IfOk result (λ line. line ≢ Line.End → work self.new < work self.old) }
        // What is kept of an error, and what holds at the end.
        ensures again { (e : LineErr) → self.old.error ≡ Some e → (result ≡ Err e) × (self.new ≡ self.old) }
        ensures fresh { OnOk result (self.new.error ≡ None) }
        ensures stands { IfErr result (λ e. self.new.error ≡ Some e) }
        ensures end { result ≡ Ok Line.End → (pending self.new [] ≡ []) × (self.new.ended ≡ true) }
        // When each error comes.
        ensures failed { self.old.error ≡ None → result ≡ Err LineErr.Failed
            → Rose (S.faults source.old) (S.faults source.new) × HasNoEnd self.new.kept
            × (self.new.ended ≡ false) }
        ensures too_much { self.old.error ≡ None → result ≡ Err LineErr.TooMuch
            → self.new.most < self.new.taken }
        ensures within { self.old.error ≡ None → result ≢ Err LineErr.TooMuch
            → self.new.taken ≤ self.new.most }
    {
        if let Some(error) = self.error {
            return Err(error);
        }
        match self.step_on(source) {
            Ok(line) => Ok(line),
            Err(error) => {
                self.error = Some(error);
                Err(error)
            }
        }
    }

    fn step_on<S: Source>(&mut self, source: &mut S) -> Result<Line, LineErr>
        // What the line is.
        ensures lines { Advances (S.left source.old) (S.left source.new) self.old self.new (answered result) }
        ensures knows_end { KnowsEnd self.old (S.left source.old) → KnowsEnd self.new (S.left source.new) }
        ensures end { result ≡ Ok Line.End → (pending self.new [] ≡ []) × (self.new.ended ≡ true) }
        // Whether the source failed.
        ensures later { S.faults source.old ≤ S.faults source.new }
        ensures reported { result ≢ Err LineErr.Failed → S.faults source.old ≡ S.faults source.new }
        ensures failed { result ≡ Err LineErr.Failed → Rose (S.faults source.old) (S.faults source.new)
            × HasNoEnd self.new.kept × (self.new.ended ≡ false) }
        ensures too_much { result ≡ Err LineErr.TooMuch → self.new.most < self.new.taken }
        ensures within { result ≢ Err LineErr.TooMuch → self.new.taken ≤ self.new.most }
        ensures falls { IfOk result (λ line. line ≢ Line.End → work self.new < work self.old) }
        ensures same { self.new.error ≡ self.old.error }
    {
        loop {
            if self.is_over() {
                return Err(LineErr::TooMuch);
            }
            match self.cut()? {
                Cut::Found(Some(line)) => return Ok(line),
                Cut::Found(None) => {}
                Cut::NoEnd => {
                    if self.ended() {
                        return self.last();
                    }
                    if let Err(error) = self.refill(source) {
                        return Err(error);
                    }
                }
            }
        }
    }

    /// Cuts the first line off what is kept. Without its end, a line that is too long is dropped.
    #[tactic(auto, using(crate::proofs::Cutting::cutting))]
    fn cut(&mut self) -> Result<Cut, LineErr>
        ensures lines { IfOk result (λ c. Passed self.old self.new [] (option_to_list (line_in c))) }
        ensures no_end { IfOk result (λ c. c ≢ Cut.Found (Some Line.End)) }
        ensures err { IfErr result (λ e. (e ≡ LineErr.NoMemory) × (self.new ≡ self.old)) }
        // What is left.
        ensures whole { IfOk result (λ c. IsFound c → work self.new < work self.old) }
        ensures open_end { IfOk result
            (λ c. c ≡ Cut.NoEnd → HasNoEnd self.new.kept × (work self.new ≤ work self.old)) }
        ensures small { IfOk result (λ c. c ≡ Cut.NoEnd → length self.new.kept ≤ self.new.longest + 1) }
        ensures same { (self.new.ended ≡ self.old.ended) × (self.new.error ≡ self.old.error) }
    {
        let Some(end) = self.find() else {
            if self.skips() || self.kept().len() > self.longest() as usize + 1 {
                self.skip_all();
            }
            return Ok(Cut::NoEnd);
        };
        let line = self.line_to(end)?;
        self.drop_line(end + 1);
        Ok(Cut::Found(line))
    }

    /// The place of the first line feed that is kept. What was searched is not searched again.
    fn find(&mut self) -> Option<usize>
        ensures found { IfSome result (λ i. (i < length self.old.kept) × HasNoEnd (take i self.old.kept)
            × (self.old.kept ≡ take i self.old.kept ++ 10 ∷ drop (i + 1) self.old.kept)) }
        ensures none { IfNone result (HasNoEnd self.old.kept) }
        ensures fits { IfSome result (λ i. i < 2 ^ 63) }
        ensures same { self.new ≡ self.old }
    {
        let kept = &self.buffer.as_slice()[self.from..];
        let found = find_end(kept, self.searched);
        if found.is_none() {
            self.searched = kept.len();
        }
        found
    }

    /// The answer for the line that ends after the first `end` octets that are kept.
    fn line_to(&self, end: usize) -> Result<Option<Line>, LineErr>
        requires { end ≤ length self.now.kept }
        ensures lines { IfOk result (λ o. option_to_list o
            ≡ (if self.now.skips then Long ∷ [] else line_of self.now.longest (take end self.now.kept))) }
        ensures no_end { IfOk result (λ o. o ≢ Some Line.End) }
        ensures err { IfErr result (λ e. e ≡ LineErr.NoMemory) }
    {
        if self.skips() {
            return Ok(Some(Line::Long));
        }
        read_line(self.alloc, self.longest, &self.kept()[..end])
    }

    /// What is kept, as the last line, or the end where it is empty.
    fn last(&mut self) -> Result<Line, LineErr>
        requires open_end { HasNoEnd self.old.kept }
        requires ended { self.old.ended ≡ true }
        ensures lines { Passed self.old self.new [] (answered result) }
        ensures falls { IfOk result (λ line. line ≢ Line.End → work self.new < work self.old) }
        ensures none { OnOk result (self.new ≡ record self.old { kept = []; skips = false }) }
        ensures err { IfErr result (λ e. (e ≡ LineErr.NoMemory) × (self.new ≡ self.old)) }
    {
        let end = self.kept().len();
        let line = self.line_to(end)?;
        self.drop_line(end);
        match line {
            Some(line) => Ok(line),
            None => Ok(Line::End),
        }
    }

    fn kept(&self) -> &[u8]
        ensures { result.now ≡ self.now.kept }
    {
        &self.buffer.as_slice()[self.from..]
    }

    fn skips(&self) -> bool
        ensures { result ≡ self.now.skips }
    {
        self.skips
    }

    fn ended(&self) -> bool
        ensures { result ≡ self.now.ended }
    {
        self.ended
    }

    fn is_over(&self) -> bool
        ensures over { result ≡ true → self.now.most < self.now.taken }
        ensures within { result ≡ false → self.now.taken ≤ self.now.most }
    {
        self.taken > self.most
    }

    fn longest(&self) -> u32
        ensures { result ≡ self.now.longest }
    {
        self.longest
    }

    fn drop_line(&mut self, n: usize)
        requires { n ≤ length self.old.kept }
        ensures { self.new ≡ record self.old { kept = drop n self.old.kept; skips = false } }
    {
        self.skips = false;
        self.from += n;
        self.searched = 0;
    }

    fn skip_all(&mut self)
        ensures { self.new ≡ record self.old { kept = []; skips = true } }
    {
        self.skips = true;
        self.from = self.buffer.len();
        self.searched = 0;
    }

    /// Reads once, and appends what came to what is kept. Where nothing came, the input has ended.
    fn refill<S: Source>(&mut self, source: &mut S) -> Result<(), LineErr>
        requires room { self.old.taken ≤ self.old.most }
        requires more { self.old.ended ≡ false }
        requires small { length self.old.kept ≤ self.old.longest + 1 }
        // What is kept.
        ensures kept { take (length self.old.kept) self.new.kept ≡ self.old.kept }
        ensures got { Consumes (S.left source.old) (S.left source.new)
            (drop (length self.old.kept) self.new.kept) }
        ensures count { self.new.taken + length self.old.kept ≡ self.old.taken + length self.new.kept }
        ensures bound { self.new.taken ≤ self.new.most + 1 }
        ensures falls { OnOk result (work self.new < work self.old) }
        ensures grows { OnOk result (self.new.ended ≡ false → length self.old.kept < length self.new.kept) }
        ensures stays { OnOk result (self.new.ended ≡ true → self.new.kept ≡ self.old.kept) }
        ensures none { OnErr result (self.new.kept ≡ self.old.kept) }
        ensures end { OnOk result (KnowsEnd self.new (S.left source.new)) }
        // What stays the same.
        ensures same { (self.new.longest ≡ self.old.longest) × (self.new.most ≡ self.old.most)
            × (self.new.skips ≡ self.old.skips) × (self.new.error ≡ self.old.error) }
        ensures err { OnErr result (self.new.ended ≡ self.old.ended) }
        // When each error comes.
        ensures later { S.faults source.old ≤ S.faults source.new }
        ensures reported { result ≢ Err LineErr.Failed → S.faults source.old ≡ S.faults source.new }
        ensures failed { result ≡ Err LineErr.Failed → Rose (S.faults source.old) (S.faults source.new) }
        ensures too_much { result ≢ Err LineErr.TooMuch }
    {
        discard_prefix(&mut self.buffer, self.from);
        self.from = 0;
        if self.piece.resize(PIECE, 0).is_err() {
            return Err(LineErr::NoMemory);
        }
        let wanted = (self.most + 1 - self.taken).min(PIECE as u64) as usize;
        let piece = &mut self.piece.as_mut_slice()[..wanted];
        let count = read_after(source, piece, &mut self.buffer)?;
        self.taken += count as u64;
        self.ended = count == 0;
        Ok(())
    }
}

#[derive(Drop)]
enum Cut {
    Found(Option<Line>),
    NoEnd,
}
