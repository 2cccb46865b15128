//! The items of the input, and what is written of them.

ghost use Rattle.std.specs.Prelude.{◌≡◌, ◌≢◌, [], ◌||◌, Some, IfSome, if◌then◌else◌};
ghost use Rattle.raw_buf.specs.Buf.{NoneFell};
ghost use Rattle.stub_codes.specs.Stubs.{IsCoded};
ghost use Rattle.flick_top.specs.Answer.{Answering, IsAnswering};
ghost use Rattle.flick_top.specs.Dispatch.{AreAnswered};
ghost use Rattle.flick_top.specs.Outside.{TakesPrefix, ComesBy, StandsUnless};
ghost use Rattle.flick_top.specs.Statement as statement;
ghost use Rattle.flick_top.specs.Statement.{TakesMore, TakesAtMost, TakesNothing};
ghost use Rattle.flick_top.specs.Status.{number_of, sink_failed, source_failed};
ghost use Rattle.flick_top.specs.Task.{answering_task, engine_in, engine_of, task_in};
ghost use Rattle.flick_top.specs.Turn.{status_at, CanReply, IsReady};

use crate::answer::answer_to;
use crate::cutter::Cutter;
use crate::job::Job;
use crate::prepared::Prepared;
use crate::status::Status;
use json_shape::Scratch;
use kit_base::{Failed, LineErr, Sink, Source, write_whole};
use raw_buf::SendBuf;
use std::alloc::Global;

/// Does what is prepared: writes its text, and then answers the items of the input, where they are answered.
pub fn perform<S: Source, K: Sink>(
    alloc: Global,
    prepared: &Prepared,
    input: &mut S,
    output: &mut K,
    buf: &mut SendBuf,
) -> Status
    requires ready { IsReady prepared.now }
    // What was done.
    ensures done { (f : Answering) → AreAnswered prepared.now.feed f → IfSome (engine_of prepared.now) IsCoded
        → statement.Done (task_in prepared.now []) f (engine_of prepared.now)
        (S.left input.old) (S.left input.new) (S.faults input.old) (S.faults input.new)
        (K.held output.old) (K.held output.new) buf.old buf.new (number_of result) }
    ensures spent { NoneFell buf.old.spent buf.new.spent }
    // What was taken.
    ensures taken { TakesPrefix (S.left input.old) (S.left input.new) }
    ensures more { TakesMore (S.left input.old) (S.left input.new) (number_of result) }
    ensures at_most { TakesAtMost (S.left input.old) (S.left input.new) (number_of result) }
    ensures none_taken { TakesNothing (S.left input.old) (S.left input.new) (number_of result) }
    // Which status came.
    ensures source { ComesBy source_failed (S.faults input.old) (S.faults input.new) (number_of result) }
    ensures sink { ComesBy sink_failed (K.faults output.old) (K.faults output.new) (number_of result) }
    ensures source_reported { StandsUnless source_failed
        (S.faults input.old) (S.faults input.new) (number_of result) }
    ensures sink_reported { StandsUnless sink_failed
        (K.faults output.old) (K.faults output.new) (number_of result) }
    ensures usage { result ≢ Status.Usage }
    ensures shelf { result ≢ Status.Shelf }
{
    if let Err(Failed) = write_whole(output, prepared.text.as_slice()) {
        return Status::Sink;
    }
    match &prepared.feed {
        Some(job) => answer_items(alloc, job, input, output, buf),
        None => prepared.status,
    }
}

/// Answers the items of the input, each by one write.
fn answer_items<S: Source, K: Sink>(
    alloc: Global,
    job: &Job,
    input: &mut S,
    output: &mut K,
    buf: &mut SendBuf,
) -> Status
    requires replies { CanReply job.now }
    // What was done.
    ensures done { (f : Answering) → IsAnswering job.now f → IsCoded (engine_in job.now)
        → statement.Done (answering_task [] job.now) f (Some (engine_in job.now))
        (S.left input.old) (S.left input.new) (S.faults input.old) (S.faults input.new)
        (K.held output.old) (K.held output.new) buf.old buf.new (number_of result) }
    ensures spent { NoneFell buf.old.spent buf.new.spent }
    // What was taken, and which status came.
    ensures taken { TakesPrefix (S.left input.old) (S.left input.new) }
    ensures more { TakesMore (S.left input.old) (S.left input.new) (number_of result) }
    ensures at_most { TakesAtMost (S.left input.old) (S.left input.new) (number_of result) }
    ensures source { ComesBy source_failed (S.faults input.old) (S.faults input.new) (number_of result) }
    ensures sink { ComesBy sink_failed (K.faults output.old) (K.faults output.new) (number_of result) }
    ensures source_reported { StandsUnless source_failed
        (S.faults input.old) (S.faults input.new) (number_of result) }
    ensures sink_reported { StandsUnless sink_failed
        (K.faults output.old) (K.faults output.new) (number_of result) }
    ensures others { (result ≢ Status.Usage) × (result ≢ Status.File) × (result ≢ Status.Shelf) }
{
    let mut items = Cutter::new(alloc, job);
    // What reading needs is made once, and not for each line.
    let mut scratch = Scratch::new(alloc);
    let mut refused = false;
    'turns: loop {
        let item = match items.next(input) {
            Ok(Some(item)) => item,
            Ok(None) => return finished(refused),
            Err(error) => return status_at(error),
        };
        let Ok(answer) = answer_to(alloc, job, &item, &mut scratch, buf) else {
            return Status::Memory;
        };
        refused = either(refused, answer.refused);
        if let Err(Failed) = write_whole(output, answer.octets.as_slice()) {
            return Status::Sink;
        }
    }
}

/// How the work ends when all is answered.
fn finished(refused: bool) -> Status
    ensures { result ≡ (if refused then Status.Refused else Status.Done) }
{
    if refused {
        Status::Refused
    } else {
        Status::Done
    }
}

/// How the work ends where the input cannot be read on.
fn status_at(error: LineErr) -> Status
    ensures { result ≡ status_at error }
{
    match error {
        LineErr::Failed => Status::Source,
        LineErr::NoMemory => Status::Memory,
        LineErr::TooMuch => Status::Length,
    }
}

/// Whether one of the two holds.
fn either(a: bool, b: bool) -> bool
    ensures { result ≡ (a || b) }
{
    a || b
}
