//! What a command comes to, once its words and its files are read.

ghost use Rattle.std.specs.Prelude.{◌≡◌, ◌≢◌, ◌≤◌, [], true, Some, IfOk, IfErr, IfSome};
ghost use Rattle.kit_base.specs.Causes.{Rose};
ghost use Rattle.raw_buf.specs.Buf.{NoneFell};
ghost use Rattle.flick_top.specs.Dispatch.{Files, BridgesFile, ChecksFile, ServesFile, ServesText, showing_task, text_before};
ghost use Rattle.flick_top.specs.Command.{AnswersItems, IsOverItems, ReadsFiles, SendsReplies, sends_replies};
ghost use Rattle.flick_top.specs.File.{plainly};
ghost use Rattle.flick_top.specs.Made.{codes_of};
ghost use Rattle.flick_top.specs.Task.{answering_task, engine_of, task_in};
ghost use Rattle.flick_top.specs.Turn.{ActsIn, ComesIn, IsReady};

use crate::command::{Action, Command, Named, sends_replies, word_at};
use crate::file::{NoBridge, TaskErr, bridge_at, engine_at, unit_at};
use crate::job::Job;
use crate::prepared::Prepared;
use crate::report::Report;
use aoi::Unit;
use flick_check::check_stubs;
use flick_engine::{Engine, Wire};
use flick_lines::Verb;
use flick_serve::{Server, WrongReplies};
use flick_texts::{counted_text, make_text, show_text, stubs_text};
use kit_base::limits::{LONGEST_REPLIES, LONGEST_STUBS};
use kit_base::{NoMemory, Octets, Shelf, ShelfErr, Words};
use raw_buf::SendBuf;
use std::alloc::Global;

/// The place of the file's word where no back end is named.
const SHOWN: usize = 2;

/// What is left to do of a command, once its files are read.
pub fn prepare<F: Shelf>(
    alloc: Global,
    words: &Words,
    command: Command,
    shelf: &mut F,
    buf: &mut SendBuf,
) -> Result<Prepared, TaskErr>
    // What it comes to, and what becomes of the buffer.
    ensures comes { IfOk result (λ p. (files : Files) → F.files shelf.old ≡ Some files
        → ComesIn (Some command) words.now files p buf.old buf.new) }
    ensures ready { IfOk result IsReady }
    ensures items { IfOk result (λ p. IfSome p.feed (λ job. AnswersItems (Some command))) }
    ensures replies { IfOk result
        (λ p. SendsReplies (Some command) → IfSome (engine_of p) (λ e. e.answers ≡ true)) }
    ensures spent { NoneFell buf.old.spent buf.new.spent }
    // Whether the shelf failed.
    ensures files { F.files shelf.new ≡ F.files shelf.old }
    ensures later { F.faults shelf.old ≤ F.faults shelf.new }
    ensures cause { IfErr result (λ e. e ≡ TaskErr.Shelf → Rose (F.faults shelf.old) (F.faults shelf.new)) }
    ensures file { IfErr result (λ e. e ≡ TaskErr.Shelf → ReadsFiles (Some command)) }
    ensures stands { result ≢ Err TaskErr.Shelf → F.faults shelf.old ≡ F.faults shelf.new }
{
    match command {
        Command::Help => Ok(Prepared::of_report(alloc, Report::Help, None)?),
        Command::Version => Ok(Prepared::of_report(alloc, Report::Version, None)?),
        Command::Show(front) => {
            let read = unit_at(alloc, front, word_at(words, SHOWN), shelf)?;
            Ok(shown(alloc, read)?)
        }
        Command::Over(action, named) => {
            let answers = sends_replies(action);
            match engine_at(alloc, &named, answers, word_at(words, named.file), shelf)? {
                Ok(engine) => run_action(alloc, action, engine, words, shelf, buf),
                Err(report) => Ok(Prepared::of_report(alloc, report, None)?),
            }
        }
        Command::Bridge(named, to) => {
            bridging(alloc, &named, to, word_at(words, named.file), shelf)
        }
    }
}

/// To bridge the messages of the file at a path to those of a second format, or what is said instead.
fn bridging<F: Shelf>(
    alloc: Global,
    named: &Named,
    to: Wire,
    path: &[u8],
    shelf: &mut F,
) -> Result<Prepared, TaskErr>
    // What it comes to.
    ensures bridges { IfOk result (λ p. (files : Files) → F.files shelf.old ≡ Some files
        → BridgesFile (codes_of (engine_of p)) named.now to (files path.now) (task_in p [])) }
    ensures ready { IfOk result IsReady }
    // Whether the shelf failed.
    ensures files { F.files shelf.new ≡ F.files shelf.old }
    ensures later { F.faults shelf.old ≤ F.faults shelf.new }
    ensures cause { IfErr result (λ e. e ≡ TaskErr.Shelf → Rose (F.faults shelf.old) (F.faults shelf.new)) }
    ensures stands { result ≢ Err TaskErr.Shelf → F.faults shelf.old ≡ F.faults shelf.new }
{
    match bridge_at(alloc, named, to, path, shelf)? {
        Ok(bridge) => Ok(Prepared::of_job(Octets::new(alloc), Job::Bridge(bridge))),
        Err(none) => {
            let NoBridge { report, engine } = none;
            Ok(Prepared::of_report(alloc, report, engine)?)
        }
    }
}

/// To write the text of what was read, or what is said instead.
fn shown(alloc: Global, read: Result<Unit, Report>) -> Result<Prepared, NoMemory>
    ensures value { IfOk result (λ p. task_in p [] ≡ showing_task (plainly read)) }
    ensures ready { IfOk result IsReady }
    ensures items { IfOk result (λ p. p.feed ≡ None) }
{
    match read {
        Ok(unit) => Ok(Prepared::of_text(show_text(alloc, &unit)?, None)),
        Err(report) => Ok(Prepared::of_report(alloc, report, None)?),
    }
}

/// What an action comes to over an engine.
fn run_action<F: Shelf>(
    alloc: Global,
    action: Action,
    engine: Engine,
    words: &Words,
    shelf: &mut F,
    buf: &mut SendBuf,
) -> Result<Prepared, TaskErr>
    requires answers { sends_replies action ≡ true → engine.answers ≡ true }
    // What it comes to, and what becomes of the buffer.
    ensures acts { IfOk result (λ p. (files : Files) → F.files shelf.old ≡ Some files
        → ActsIn action engine words.now files p buf.old buf.new) }
    ensures engine { IfOk result (λ p. engine_of p ≡ Some engine) }
    ensures ready { IfOk result IsReady }
    ensures items { IfOk result (λ p. IfSome p.feed (λ job. IsOverItems action)) }
    ensures spent { NoneFell buf.old.spent buf.new.spent }
    // Whether the shelf failed.
    ensures files { F.files shelf.new ≡ F.files shelf.old }
    ensures later { F.faults shelf.old ≤ F.faults shelf.new }
    ensures cause { IfErr result (λ e. e ≡ TaskErr.Shelf → Rose (F.faults shelf.old) (F.faults shelf.new)) }
    ensures stands { result ≢ Err TaskErr.Shelf → F.faults shelf.old ≡ F.faults shelf.new }
{
    match action {
        Action::Answer(verb) => Ok(answering(alloc, verb, engine)?),
        Action::Pipe => Ok(Prepared::of_job(Octets::new(alloc), Job::Pipe(engine))),
        Action::Unpipe => Ok(Prepared::of_job(Octets::new(alloc), Job::Unpipe(engine))),
        Action::Serve(replies) => serve_file(alloc, engine, word_at(words, replies), shelf),
        Action::Check(stubs) => check_file(alloc, engine, word_at(words, stubs), shelf),
        Action::Stubs => {
            let text = stubs_text(alloc, &engine)?;
            Ok(Prepared::of_text(text, Some(engine)))
        }
        Action::Make(number, many) => {
            let text = make_text(alloc, &engine, number, many, buf)?;
            Ok(Prepared::of_text(text, Some(engine)))
        }
    }
}

/// To serve by the replies of the file at a path, or what is said instead. One octet more than the greatest
/// length is read, which shows that a file is longer.
fn serve_file<F: Shelf>(
    alloc: Global,
    engine: Engine,
    path: &[u8],
    shelf: &mut F,
) -> Result<Prepared, TaskErr>
    requires answers { engine.answers ≡ true }
    // What it comes to.
    ensures serves { IfOk result (λ p. (files : Files) → F.files shelf.old ≡ Some files
        → ServesFile engine (files path.now) (task_in p [])) }
    ensures engine { IfOk result (λ p. engine_of p ≡ Some engine) }
    ensures ready { IfOk result IsReady }
    // Whether the shelf failed.
    ensures files { F.files shelf.new ≡ F.files shelf.old }
    ensures later { F.faults shelf.old ≤ F.faults shelf.new }
    ensures cause { IfErr result (λ e. e ≡ TaskErr.Shelf → Rose (F.faults shelf.old) (F.faults shelf.new)) }
    ensures stands { result ≢ Err TaskErr.Shelf → F.faults shelf.old ≡ F.faults shelf.new }
{
    match shelf.read_file(alloc, path, LONGEST_REPLIES + 1) {
        Ok(text) => Ok(serve_text(alloc, engine, text)?),
        Err(ShelfErr::Absent) => Ok(Prepared::of_report(alloc, Report::NoReplies, Some(engine))?),
        Err(ShelfErr::Failed) => Err(TaskErr::Shelf),
        Err(ShelfErr::NoMemory) => Err(TaskErr::NoMemory),
    }
}

/// To serve by the replies that a text gives, unless it is too large.
fn serve_text(alloc: Global, engine: Engine, text: Octets) -> Result<Prepared, NoMemory>
    requires answers { engine.answers ≡ true }
    ensures serves { IfOk result (λ p. ServesFile engine (Some text) (task_in p [])) }
    ensures engine { IfOk result (λ p. engine_of p ≡ Some engine) }
    ensures ready { IfOk result IsReady }
{
    if text.len() > LONGEST_REPLIES as usize {
        return Prepared::of_report(alloc, Report::LargeReplies, Some(engine));
    }
    server_from(alloc, engine, text)
}

/// To serve by the replies that a text gives, or to say which of its lines is wrong.
fn server_from(alloc: Global, engine: Engine, text: Octets) -> Result<Prepared, NoMemory>
    requires answers { engine.answers ≡ true }
    ensures serves { IfOk result (λ p. ServesText engine text (task_in p [])) }
    ensures engine { IfOk result (λ p. engine_of p ≡ Some engine) }
    ensures ready { IfOk result IsReady }
{
    match Server::new(alloc, engine, text)? {
        Ok(server) => Ok(Prepared::of_job(Octets::new(alloc), Job::Serve(server))),
        Err(wrong) => {
            let WrongReplies { line, engine } = wrong;
            Prepared::of_report(alloc, Report::WrongReply(line.0), Some(engine))
        }
    }
}

/// To write the answers to the stubs of the file at a path, or what is said instead. One octet more than the greatest
/// length is read, which shows that a file is longer.
fn check_file<F: Shelf>(
    alloc: Global,
    engine: Engine,
    path: &[u8],
    shelf: &mut F,
) -> Result<Prepared, TaskErr>
    // What it comes to.
    ensures checks { IfOk result (λ p. (files : Files) → F.files shelf.old ≡ Some files
        → ChecksFile engine (files path.now) (task_in p [])) }
    ensures engine { IfOk result (λ p. engine_of p ≡ Some engine) }
    ensures ready { IfOk result IsReady }
    ensures items { IfOk result (λ p. p.feed ≡ None) }
    // Whether the shelf failed.
    ensures files { F.files shelf.new ≡ F.files shelf.old }
    ensures later { F.faults shelf.old ≤ F.faults shelf.new }
    ensures cause { IfErr result (λ e. e ≡ TaskErr.Shelf → Rose (F.faults shelf.old) (F.faults shelf.new)) }
    ensures stands { result ≢ Err TaskErr.Shelf → F.faults shelf.old ≡ F.faults shelf.new }
{
    match shelf.read_file(alloc, path, LONGEST_STUBS + 1) {
        Ok(text) => Ok(check_text(alloc, engine, text.as_slice())?),
        Err(ShelfErr::Absent) => Ok(Prepared::of_report(alloc, Report::NoStubs, Some(engine))?),
        Err(ShelfErr::Failed) => Err(TaskErr::Shelf),
        Err(ShelfErr::NoMemory) => Err(TaskErr::NoMemory),
    }
}

/// To write the answers to the stubs of a text, unless it is too large.
fn check_text(alloc: Global, engine: Engine, text: &[u8]) -> Result<Prepared, NoMemory>
    ensures checks { IfOk result (λ p. ChecksFile engine (Some text.now) (task_in p [])) }
    ensures engine { IfOk result (λ p. engine_of p ≡ Some engine) }
    ensures ready { IfOk result IsReady }
    ensures items { IfOk result (λ p. p.feed ≡ None) }
{
    if text.len() > LONGEST_STUBS as usize {
        return Prepared::of_report(alloc, Report::LargeStubs, Some(engine));
    }
    let answers = check_stubs(alloc, &engine, text)?;
    Ok(Prepared::of_answers(answers, engine))
}

/// To answer the items of the input by a verb.
fn answering(alloc: Global, verb: Verb, engine: Engine) -> Result<Prepared, NoMemory>
    requires answers { (verb ≡ Verb.Reply) → engine.answers ≡ true }
    ensures value { IfOk result (λ p.
        task_in p [] ≡ answering_task (text_before verb engine) (Job.Over verb engine)) }
    ensures ready { IfOk result IsReady }
{
    let text = text_before(alloc, verb, &engine)?;
    Ok(Prepared::of_job(text, Job::Over(verb, engine)))
}

/// What is written before the answers of a verb.
fn text_before(alloc: Global, verb: Verb, engine: &Engine) -> Result<Octets, NoMemory>
    ensures { IfOk result (λ t. t ≡ text_before verb engine.now) }
{
    match verb {
        Verb::Count => counted_text(alloc, engine),
        Verb::Marshal | Verb::Unmarshal | Verb::Reply | Verb::Unreply => Ok(Octets::new(alloc)),
    }
}
