//! What gives the items of an input.

ghost use Rattle.std.specs.Prelude.{◌≡◌, ◌≢◌, ◌<◌, ◌≤◌, [], None, Err, IfOk, IfSome, List};
ghost use Rattle.kit_base.specs.Causes.{Rose};
ghost use Rattle.flick_top.specs.Answer.{cutting_of};
ghost use Rattle.flick_top.specs.Giving.{Goes, IsGiven, work};
ghost use Rattle.flick_top.specs.Items.{Cutting};
ghost use Rattle.flick_top.specs.Outside.{Input};
ghost use Rattle.flick_top.specs.declared.cutter.Cutter.TheVariants as cutters;
ghost use Rattle.flick_top.specs.declared.items.Item.{Item as SpecItem};

use crate::items::Item;
use crate::job::Job;
use kit_base::limits::{LONGEST_LINE, MOST_INPUT};
use kit_base::{LineErr, Lines, Source};
use std::alloc::Global;
use wire_frames::Messages;

/// What gives the items of an input.
#[derive(Drop)]
pub enum Cutter {
    /// The lines of an input.
    Lines(Lines),
    /// The messages of a raw stream.
    Messages(Messages),
}

impl Cutter {
    /// What gives the items that a job answers, of an input of which nothing was read.
    pub fn new(alloc: Global, job: &Job) -> Cutter
        ensures { (left : Input) → IsGiven (cutting_of job.now) result left left [] }
    {
        if job.reads_stream() {
            Cutter::Messages(Messages::new(alloc, job.engine().bound().back(), MOST_INPUT))
        } else {
            Cutter::Lines(Lines::new(alloc, LONGEST_LINE, MOST_INPUT))
        }
    }

    /// The next item, or none at the end.
    pub fn next<S: Source>(&mut self, source: &mut S) -> Result<Option<Item>, LineErr>
        ensures goes { Goes self.old self.new (S.left source.old) (S.left source.new) result }
        ensures falls { IfOk result (λ o. IfSome o (λ i. work self.new < work self.old)) }
        // Whether the source failed.
        ensures later { S.faults source.old ≤ S.faults source.new }
        ensures reported { result ≢ Err LineErr.Failed → S.faults source.old ≡ S.faults source.new }
        ensures failed { (c : Cutting) (before : Input) (given : List SpecItem)
            → IsGiven c self.old before (S.left source.old) given
            → result ≡ Err LineErr.Failed → Rose (S.faults source.old) (S.faults source.new) }
    {
        match self {
            Cutter::Lines(lines) => next_line(lines, source),
            Cutter::Messages(messages) => next_part(messages, source),
        }
    }
}

/// The next line, or none at the end.
fn next_line<S: Source>(lines: &mut Lines, source: &mut S) -> Result<Option<Item>, LineErr>
    ensures goes { Goes (cutters.Lines lines.old) (cutters.Lines lines.new)
        (S.left source.old) (S.left source.new) result }
    ensures falls { IfOk result (λ o. IfSome o (λ i.
        work (cutters.Lines lines.new) < work (cutters.Lines lines.old))) }
    // Whether the source failed.
    ensures later { S.faults source.old ≤ S.faults source.new }
    ensures reported { result ≢ Err LineErr.Failed → S.faults source.old ≡ S.faults source.new }
    ensures failed { lines.old.error ≡ None → result ≡ Err LineErr.Failed
        → Rose (S.faults source.old) (S.faults source.new) }
{
    let line = lines.next(source)?;
    if line.is_end() {
        return Ok(None);
    }
    Ok(Some(Item::Line(line)))
}

/// The next part of a stream, or none at the end.
fn next_part<S: Source>(messages: &mut Messages, source: &mut S) -> Result<Option<Item>, LineErr>
    ensures goes { Goes (cutters.Messages messages.old) (cutters.Messages messages.new)
        (S.left source.old) (S.left source.new) result }
    ensures falls { IfOk result (λ o. IfSome o (λ i.
        work (cutters.Messages messages.new) < work (cutters.Messages messages.old))) }
    // Whether the source failed.
    ensures later { S.faults source.old ≤ S.faults source.new }
    ensures reported { result ≢ Err LineErr.Failed → S.faults source.old ≡ S.faults source.new }
    ensures failed { result ≡ Err LineErr.Failed → Rose (S.faults source.old) (S.faults source.new) }
{
    match messages.next(source)? {
        Some(part) => Ok(Some(Item::Part(part))),
        None => Ok(None),
    }
}
