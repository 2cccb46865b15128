//! The top call.

ghost use Rattle.std.specs.Prelude.{◌≡◌, ◌≤◌, Some};
ghost use Rattle.kit_base.specs.Causes.{Rose};
ghost use Rattle.raw_buf.specs.Buf.{NoneFell};
ghost use Rattle.flick_top.specs.Dispatch.{Files};
ghost use Rattle.flick_top.specs.Outside.{TakesPrefix, ComesBy, StandsUnless};
ghost use Rattle.flick_top.specs.Statement.{Works, YesIsKept, RepliesAreCoded, LeavesNothing, IsUsage, NeedsFile, NeedsItems, TakesMore, TakesAtMost, TakesNothing, Completes};
ghost use Rattle.flick_top.specs.Status.{source_failed, sink_failed, shelf_failed, too_much};

use crate::command::command_of;
use crate::dispatch::prepare;
use crate::file::TaskErr;
use crate::status::Status;
use crate::turns::perform;
use flick_engine::Engine;
use kit_base::{Shelf, Sink, Source, Words};
use raw_buf::SendBuf;
use std::alloc::Global;

/// Runs the command of the words, and answers its status.
///
/// The words are those of a command line without the program's name. Messages are made in `buf`,
/// which may hold anything. Each answer is written as a whole, with its line feed. The engine of a
/// command over a back end is left in `made`; what was there before is dropped first.
pub fn flick<F: Shelf, S: Source, K: Sink>(
    alloc: Global,
    words: &Words,
    shelf: &mut F,
    input: &mut S,
    output: &mut K,
    buf: &mut SendBuf,
    made: &mut Option<Engine>,
) -> u8
    // What was done: written, taken, left and sent.
    ensures work { (files : Files) → F.files shelf.old ≡ Some files
        → Works made.new words.now files (S.left input.old) (S.left input.new)
        (S.faults input.old) (S.faults input.new) (K.held output.old) (K.held output.new)
        buf.old buf.new result }
    // What a yes of `check` says of a stub, and which codes the engine has that is left.
    ensures yes { YesIsKept made.new words.now }
    ensures replies { RepliesAreCoded made.new words.now }
    // What a status says of the words, of what was left, and of what was taken.
    ensures usage { IsUsage words.now result }
    ensures nothing { LeavesNothing made.new (K.held output.old) (K.held output.new) result }
    ensures file { NeedsFile words.now result }
    ensures reads { NeedsItems source_failed words.now result }
    ensures exceeds { NeedsItems too_much words.now result }
    ensures taken { TakesPrefix (S.left input.old) (S.left input.new) }
    ensures more { TakesMore (S.left input.old) (S.left input.new) result }
    ensures at_most { TakesAtMost (S.left input.old) (S.left input.new) result }
    ensures unread { TakesNothing (S.left input.old) (S.left input.new) result }
    // What failed.
    ensures source { ComesBy source_failed (S.faults input.old) (S.faults input.new) result }
    ensures sink { ComesBy sink_failed (K.faults output.old) (K.faults output.new) result }
    ensures shelf { ComesBy shelf_failed (F.faults shelf.old) (F.faults shelf.new) result }
    ensures source_reported { StandsUnless source_failed (S.faults input.old) (S.faults input.new) result }
    ensures sink_reported { StandsUnless sink_failed (K.faults output.old) (K.faults output.new) result }
    ensures shelf_reported { StandsUnless shelf_failed (F.faults shelf.old) (F.faults shelf.new) result }
    ensures completes { Completes (S.left input.old) (S.left input.new)
        (Rose (S.faults input.old) (S.faults input.new)) (Rose (K.faults output.old) (K.faults output.new))
        (Rose (F.faults shelf.old) (F.faults shelf.new)) result }
    ensures files { F.files shelf.new ≡ F.files shelf.old }
    ensures spent { NoneFell buf.old.spent buf.new.spent }
    ensures range { result ≤ 8 }
{
    *made = None;
    let Some(command) = command_of(words) else {
        return Status::Usage.number();
    };
    match prepare(alloc, words, command, shelf, buf) {
        Ok(prepared) => {
            prepared.items_are_answered();
            prepared.yes_is_sent();
            prepared.codes_match_operations();
            let status = perform(alloc, &prepared, input, output, buf);
            *made = prepared.into_engine();
            status.number()
        }
        Err(TaskErr::Shelf) => Status::Shelf.number(),
        Err(TaskErr::NoMemory) => Status::Memory.number(),
    }
}
