//! The answer to an item.

ghost use Rattle.std.specs.Prelude.{◌≡◌, IfOk};
ghost use Rattle.raw_buf.specs.Buf.{NoneFell};
ghost use Rattle.flick_top.specs.Answer.{frame_name, frame_refusal, AnswersIn, IsPartLine};
ghost use Rattle.flick_top.specs.Turn.{CanReply};
ghost use Rattle.flick_top.specs.declared.items.Item.TheVariants as items;

use crate::answered::{Answered, as_answer};
use crate::items::Item;
use crate::job::Job;
use flick_engine::Engine;
use flick_lines::{copied, ended, record_of};
use json_shape::Scratch;
use kit_base::{Line, NoMemory, Octets};
use raw_buf::SendBuf;
use std::alloc::Global;
use wire_frames::{FrameErr, Part};

/// The answer to an item. The scratch is for reading.
pub fn answer_to(
    alloc: Global,
    job: &Job,
    item: &Item,
    scratch: &mut Scratch,
    buf: &mut SendBuf,
) -> Result<Answered, NoMemory>
    requires replies { CanReply job.now }
    ensures answers { IfOk result (λ a. AnswersIn job.now item.now a.octets a.refused buf.old buf.new) }
    ensures spent { NoneFell buf.old.spent buf.new.spent }
{
    match item {
        Item::Line(line) => line_answer(alloc, job, line, scratch, buf),
        Item::Part(part) => {
            let line = part_line(alloc, job.engine(), part)?;
            Ok(as_answer(line))
        }
    }
}

/// The answer to a line.
fn line_answer(
    alloc: Global,
    job: &Job,
    line: &Line,
    scratch: &mut Scratch,
    buf: &mut SendBuf,
) -> Result<Answered, NoMemory>
    requires replies { CanReply job.now }
    ensures answers { IfOk result
        (λ a. AnswersIn job.now (items.Line line.now) a.octets a.refused buf.old buf.new) }
    ensures spent { NoneFell buf.old.spent buf.new.spent }
{
    match line {
        Line::End => Ok(as_answer(Octets::new(alloc))),
        Line::Long => job.too_long(alloc),
        Line::Text(text) => job.answer(alloc, text.as_slice(), scratch, buf),
    }
}

/// The line that answers a part of a stream.
fn part_line(alloc: Global, engine: &Engine, part: &Part) -> Result<Octets, NoMemory>
    ensures { IfOk result (λ o. IsPartLine engine.now part.now o) }
{
    match part {
        Part::Message(message) => {
            let text = record_of(alloc, engine, message.as_slice())?;
            ended(text)
        }
        Part::Fault(fault) => copied(alloc, fault_line(*fault)),
        Part::Cut => copied(alloc, b"! frame Cut\n"),
    }
}

/// The line of a fault of a stream.
fn fault_line(fault: FrameErr) -> &'static [u8]
    ensures { result.now ≡ frame_refusal (frame_name fault) }
{
    match fault {
        FrameErr::Magic => b"! frame Magic\n",
        FrameErr::Size => b"! frame Size\n",
        FrameErr::TooLong => b"! frame TooLong\n",
        FrameErr::NoMemory => b"! frame NoMemory\n",
    }
}
