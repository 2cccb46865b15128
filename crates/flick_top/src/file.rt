//! What a file comes to: a unit, and an engine over a back end.

ghost use Rattle.std.specs.Prelude.{◌≡◌, ◌≢◌, ◌≤◌, Some, IfOk, IfErr};
ghost use Rattle.kit_base.specs.Causes.{Rose};
ghost use Rattle.aoi.specs.Plain.{plain, IsSoundPlain};
ghost use Rattle.flick_engine.specs.Backs.{back_in};
ghost use Rattle.pres.specs.Faults.{bind_fault};
ghost use Rattle.flick_top.specs.Dispatch.{Files, IsBridgeOf, IsMadeIn, IsMadeOf, bridge_of};
ghost use Rattle.flick_top.specs.File.{FileSays, BindSays, BoundSays, IsSoundly, codes_in, plainly};

use crate::command::Named;
use crate::fronts::unit_of;
use crate::report::Report;
use aoi::Unit;
use flick_bridge::Bridge;
use flick_engine::{Engine, Wire};
use idl_lex::Front;
use kit_base::limits::LONGEST_FILE;
use kit_base::{NoMemory, Shelf, ShelfErr};
use pres::{BindErr, bind};
use std::alloc::Global;

/// Why there is no bridge: what is said instead, and the engine of the messages that are read, where one was made.
#[derive(Drop)]
pub struct NoBridge {
    /// What is said.
    pub report: Report,
    /// The engine of the messages that are read.
    pub engine: Option<Engine>,
}

/// Why there is no task.
#[derive(Clone, Copy, Debug, PartialEq, Eq)]
pub enum TaskErr {
    /// The shelf failed.
    Shelf,
    /// Memory ran out.
    NoMemory,
}

impl From<NoMemory> for TaskErr {
    ghost use Rattle.std.specs.Prelude.{◌≡◌};
    ghost use Rattle.flick_top.specs.declared.file.TaskErr.TheVariants.{NoMemory as NoTask};

    ghost from_gives = { λ _ e. e ≡ NoTask };

    fn from(_: NoMemory) -> TaskErr {
        TaskErr::NoMemory
    }
}

/// The engine of the file at a path, with the codes of replies where they are sent, or what is said instead.
pub fn engine_at<F: Shelf>(
    alloc: Global,
    named: &Named,
    answers: bool,
    path: &[u8],
    shelf: &mut F,
) -> Result<Result<Engine, Report>, TaskErr>
    ensures reported { IfOk result (λ reported. (files : Files) → F.files shelf.old ≡ Some files
        → IsMadeOf (codes_in reported) named.now (files path.now) reported) }
    ensures answers { IfOk result (λ reported. IfOk reported (λ e. e.answers ≡ answers)) }
    ensures files { F.files shelf.new ≡ F.files shelf.old }
    ensures later { F.faults shelf.old ≤ F.faults shelf.new }
    ensures cause { IfErr result (λ e. e ≡ TaskErr.Shelf → Rose (F.faults shelf.old) (F.faults shelf.new)) }
    ensures stands { result ≢ Err TaskErr.Shelf → F.faults shelf.old ≡ F.faults shelf.new }
{
    let read = unit_at(alloc, named.front, path, shelf)?;
    Ok(made_of(alloc, named.wire, answers, read)?)
}

/// The bridge of the file at a path to a second format, or why there is none. The file is read once, and one octet more
/// than the greatest length, which shows that a file is longer.
pub fn bridge_at<F: Shelf>(
    alloc: Global,
    named: &Named,
    to: Wire,
    path: &[u8],
    shelf: &mut F,
) -> Result<Result<Bridge, NoBridge>, TaskErr>
    ensures bridges { IfOk result (λ made. (files : Files) → F.files shelf.old ≡ Some files
        → IsBridgeOf named.now to (files path.now) made) }
    ensures files { F.files shelf.new ≡ F.files shelf.old }
    ensures later { F.faults shelf.old ≤ F.faults shelf.new }
    ensures cause { IfErr result (λ e. e ≡ TaskErr.Shelf → Rose (F.faults shelf.old) (F.faults shelf.new)) }
    ensures stands { result ≢ Err TaskErr.Shelf → F.faults shelf.old ≡ F.faults shelf.new }
{
    match shelf.read_file(alloc, path, LONGEST_FILE + 1) {
        Ok(text) => Ok(bridge_of(alloc, named, to, text.as_slice())?),
        Err(ShelfErr::Absent) => Ok(Err(NoBridge {
            report: Report::NoFile,
            engine: None,
        })),
        Err(ShelfErr::Failed) => Err(TaskErr::Shelf),
        Err(ShelfErr::NoMemory) => Err(TaskErr::NoMemory),
    }
}

/// The bridge of a file's content to a second format, or why there is none. Each engine owns its unit, which is read
/// once for each.
fn bridge_of(
    alloc: Global,
    named: &Named,
    to: Wire,
    content: &[u8],
) -> Result<Result<Bridge, NoBridge>, NoMemory>
    ensures { IfOk result (λ made. IsBridgeOf named.now to (Some content.now) made) }
{
    match engine_of(alloc, named.front, named.wire, false, content)? {
        Ok(from) => {
            let second = engine_of(alloc, named.front, to, false, content)?;
            Ok(bridged(from, second))
        }
        Err(report) => Ok(Err(NoBridge {
            report,
            engine: None,
        })),
    }
}

/// The engine of a file's content in a format, or what is said instead.
fn engine_of(
    alloc: Global,
    front: Front,
    wire: Wire,
    answers: bool,
    content: &[u8],
) -> Result<Result<Engine, Report>, NoMemory>
    ensures made { IfOk result (λ reported.
        IsMadeIn (codes_in reported) front wire (Some content.now) reported) }
    ensures answers { IfOk result (λ reported. IfOk reported (λ e. e.answers ≡ answers)) }
{
    let read = read_content(alloc, front, content)?;
    made_of(alloc, wire, answers, read)
}

/// The bridge from an engine to a second one, or why there is none.
fn bridged(from: Engine, second: Result<Engine, Report>) -> Result<Bridge, NoBridge>
    requires { IfOk second (λ to. from.binding.unit ≡ to.binding.unit) }
    ensures { result ≡ bridge_of from second }
{
    match second {
        Ok(to) => Ok(Bridge::new(from, to)),
        Err(report) => Err(NoBridge {
            report,
            engine: Some(from),
        }),
    }
}

/// The unit of the file at a path, or what is said instead. One octet more than the greatest
/// length is read, which shows that a file is longer.
pub fn unit_at<F: Shelf>(
    alloc: Global,
    front: Front,
    path: &[u8],
    shelf: &mut F,
) -> Result<Result<Unit, Report>, TaskErr>
    // What was read.
    ensures reported { IfOk result (λ read. (files : Files) → F.files shelf.old ≡ Some files
        → FileSays front (files path.now) (plainly read)) }
    ensures sound { IfOk result IsSoundly }
    // Whether the shelf failed.
    ensures files { F.files shelf.new ≡ F.files shelf.old }
    ensures later { F.faults shelf.old ≤ F.faults shelf.new }
    ensures cause { IfErr result (λ e. e ≡ TaskErr.Shelf → Rose (F.faults shelf.old) (F.faults shelf.new)) }
    ensures stands { result ≢ Err TaskErr.Shelf → F.faults shelf.old ≡ F.faults shelf.new }
{
    match shelf.read_file(alloc, path, LONGEST_FILE + 1) {
        Ok(text) => match read_content(alloc, front, text.as_slice()) {
            Ok(read) => Ok(read),
            Err(NoMemory) => Err(TaskErr::NoMemory),
        },
        Err(ShelfErr::Absent) => Ok(Err(Report::NoFile)),
        Err(ShelfErr::Failed) => Err(TaskErr::Shelf),
        Err(ShelfErr::NoMemory) => Err(TaskErr::NoMemory),
    }
}

/// The unit of a file's content, or what is said instead.
fn read_content(
    alloc: Global,
    front: Front,
    content: &[u8],
) -> Result<Result<Unit, Report>, NoMemory>
    ensures says { IfOk result (λ read. FileSays front (Some content.now) (plainly read)) }
    ensures sound { IfOk result IsSoundly }
{
    if content.len() > LONGEST_FILE as usize {
        return Ok(Err(Report::TooLarge));
    }
    unit_of(alloc, front, content)
}

/// What is made of what was read, with messages of a format, or what is said instead.
fn made_of(
    alloc: Global,
    wire: Wire,
    answers: bool,
    read: Result<Unit, Report>,
) -> Result<Result<Engine, Report>, NoMemory>
    requires sound { IsSoundly read }
    ensures says { IfOk result (λ reported. BoundSays (codes_in reported) wire (plainly read) reported) }
    ensures answers { IfOk result (λ reported. IfOk reported (λ e. e.answers ≡ answers)) }
{
    match read {
        Ok(unit) => bound_to(alloc, wire, answers, unit),
        Err(report) => Ok(Err(report)),
    }
}

/// The engine of a unit with messages of a format, or the first reason against it.
fn bound_to(
    alloc: Global,
    wire: Wire,
    answers: bool,
    unit: Unit,
) -> Result<Result<Engine, Report>, NoMemory>
    requires sound { IsSoundPlain (plain unit) }
    ensures says { IfOk result (λ reported.
        BindSays (codes_in reported) (plain unit) wire (bind_fault (plain unit) (back_in wire)) reported) }
    ensures answers { IfOk result (λ reported. IfOk reported (λ e. e.answers ≡ answers)) }
{
    match bind(alloc, unit, wire.back()) {
        Ok(bound) => {
            let engine = Engine::compile_with(alloc, bound, wire.minor(), answers)?;
            Ok(Ok(engine))
        }
        Err(BindErr::NoMemory) => Err(NoMemory),
        Err(reason) => Ok(Err(Report::Bind(reason))),
    }
}
