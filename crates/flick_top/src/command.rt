//! The command that the words name.

ghost use Rattle.std.specs.Prelude.{◌≡◌, ◌≤◌, IfSome};
ghost use Rattle.flick_top.specs.Command.{bridge_between, bridging, command_of, either_command, option_of, last_action, second_file, making, action_of, sends_replies, showing, over_file, word_at};
ghost use Rattle.flick_top.specs.Fronts as fronts;
ghost use Rattle.flick_engine.specs.Backs as backs;

use crate::fronts::front_of;
use crate::numbers::number_in;
use flick_engine::{Wire, wire_of};
use flick_lines::Verb;
use idl_lex::Front;
use kit_base::{Octets, Words};

/// The place of the word of a second file, from 0.
const SECOND: usize = 4;

/// The place of the file's word where two back ends are named, from 0.
const BRIDGED: usize = 4;

/// How many messages `make` makes at most.
const MOST_MADE: u64 = 1_000_000;

/// A command.
#[derive(Clone, Copy, Debug, PartialEq, Eq)]
pub enum Command {
    /// `--help`
    Help,
    /// `--version`
    Version,
    /// `show FRONT FILE`
    Show(Front),
    /// `COMMAND FRONT BACK FILE`, and what follows
    Over(Action, Named),
    /// `bridge FRONT BACK1 BACK2 FILE`: the file and the format of the messages that are read, and that of those that are
    /// written
    Bridge(Named, Wire),
}

/// What is done over a file and a back end.
#[derive(Clone, Copy, Debug, PartialEq, Eq)]
pub enum Action {
    /// To answer the lines of the input.
    Answer(Verb),
    /// To answer messages by the replies of a second file, the place of whose word is given: `serve`
    Serve(usize),
    /// To say which stubs of a second file, the place of whose word is given, send the messages of requests: `check`
    Check(usize),
    /// To write the messages of the lines of the input, one after the other: `pipe`
    Pipe,
    /// To answer the messages of a raw stream by their records: `unpipe`
    Unpipe,
    /// To write the stub code of each operation: `stubs`
    Stubs,
    /// To make requests from a number on, so many, and to write what is counted of their messages: `make`
    Make(u64, u32),
}

/// The file of a command, and the format of its messages.
#[derive(Clone, Copy, Debug, PartialEq, Eq)]
pub struct Named {
    /// The language of the file.
    pub front: Front,
    /// Which messages are made.
    pub wire: Wire,
    /// The place of the file's word, from 0.
    pub file: usize,
}

/// The command, where the words have the shape of one.
pub fn command_of(words: &Words) -> Option<Command>
    ensures value { result ≡ command_of words.now }
{
    match words.as_slice() {
        [word] => option_of(word.as_slice()),
        [show, language, _] => showing(show.as_slice(), language.as_slice()),
        [word, front, back, fourth, more @ ..] => either_command(
            bridging(
                word.as_slice(),
                front.as_slice(),
                back.as_slice(),
                fourth.as_slice(),
                more,
            ),
            over_file(
                action_of(word.as_slice(), more),
                front.as_slice(),
                back.as_slice(),
            ),
        ),
        _ => None,
    }
}

/// The command of one word.
fn option_of(word: &[u8]) -> Option<Command>
    ensures value { result ≡ option_of word.now }
{
    if word == b"--help".as_slice() {
        return Some(Command::Help);
    }
    if word == b"--version".as_slice() {
        return Some(Command::Version);
    }
    None
}

/// The first command, or else the second.
fn either_command(first: Option<Command>, second: Option<Command>) -> Option<Command>
    ensures value { result ≡ either_command first second }
{
    match first {
        Some(command) => Some(command),
        None => second,
    }
}

/// `bridge` of a front end and two formats of messages, before a file.
fn bridging(word: &[u8], front: &[u8], from: &[u8], to: &[u8], more: &[Octets]) -> Option<Command>
    ensures value { result ≡ bridging word.now (fronts.front_of front.now) (backs.wire_of from.now)
        (backs.wire_of to.now) more.now }
{
    match more {
        [_] => {
            if word == b"bridge".as_slice() {
                return bridge_between(front_of(front), wire_of(from), wire_of(to));
            }
            None
        }
        _ => None,
    }
}

/// `bridge`, where its words name a front end and two formats of messages.
fn bridge_between(front: Option<Front>, from: Option<Wire>, to: Option<Wire>) -> Option<Command>
    ensures value { result ≡ bridge_between front from to }
{
    let front = front?;
    let wire = from?;
    let to = to?;
    Some(Command::Bridge(
        Named {
            front,
            wire,
            file: BRIDGED,
        },
        to,
    ))
}

/// The command of an action, a front end and a format of messages, before a file.
fn over_file(action: Option<Action>, front: &[u8], back: &[u8]) -> Option<Command>
    ensures value { result ≡ over_file action (fronts.front_of front.now) (backs.wire_of back.now) }
{
    let action = action?;
    let front = front_of(front)?;
    let wire = wire_of(back)?;
    Some(Command::Over(
        action,
        Named {
            front,
            wire,
            file: 3,
        },
    ))
}

/// `show` of a front end, before a file.
fn showing(word: &[u8], front: &[u8]) -> Option<Command>
    ensures value { result ≡ showing word.now (fronts.front_of front.now) }
{
    let front = front_of(front)?;
    if word == b"show".as_slice() {
        return Some(Command::Show(front));
    }
    None
}

/// The action of a word, with the words after the file's.
fn action_of(word: &[u8], more: &[Octets]) -> Option<Action>
    ensures { result ≡ action_of word.now more.now }
{
    match more {
        [] => last_action(word),
        [_] => second_file(word),
        [number, many] => making(
            word,
            number_in(u64::MAX, number.as_slice()),
            number_in(MOST_MADE, many.as_slice()),
        ),
        _ => None,
    }
}

/// The action of a word, where the word of a second file is the last.
fn second_file(word: &[u8]) -> Option<Action>
    ensures { result ≡ second_file word.now }
{
    if word == b"serve".as_slice() {
        return Some(Action::Serve(SECOND));
    }
    if word == b"check".as_slice() {
        return Some(Action::Check(SECOND));
    }
    None
}

/// `make` of two numbers.
fn making(word: &[u8], number: Option<u64>, many: Option<u64>) -> Option<Action>
    requires { IfSome many (λ n. n ≤ 1000000) }
    ensures { result ≡ making word.now number many }
{
    let number = number?;
    let many = many?;
    if word == b"make".as_slice() {
        return Some(Action::Make(number, many as u32));
    }
    None
}

/// The action of a word, where the file's word is the last.
fn last_action(word: &[u8]) -> Option<Action>
    ensures { result ≡ last_action word.now }
{
    if word == b"marshal".as_slice() {
        return Some(Action::Answer(Verb::Marshal));
    }
    if word == b"unmarshal".as_slice() {
        return Some(Action::Answer(Verb::Unmarshal));
    }
    if word == b"reply".as_slice() {
        return Some(Action::Answer(Verb::Reply));
    }
    if word == b"unreply".as_slice() {
        return Some(Action::Answer(Verb::Unreply));
    }
    if word == b"count".as_slice() {
        return Some(Action::Answer(Verb::Count));
    }
    if word == b"pipe".as_slice() {
        return Some(Action::Pipe);
    }
    if word == b"unpipe".as_slice() {
        return Some(Action::Unpipe);
    }
    if word == b"stubs".as_slice() {
        return Some(Action::Stubs);
    }
    None
}

/// Whether an action sends replies.
pub fn sends_replies(action: Action) -> bool
    ensures { result ≡ sends_replies action }
{
    match action {
        Action::Answer(Verb::Reply) | Action::Serve(_) => true,
        Action::Answer(Verb::Marshal | Verb::Unmarshal | Verb::Unreply | Verb::Count)
        | Action::Check(_)
        | Action::Pipe
        | Action::Unpipe
        | Action::Stubs
        | Action::Make(_, _) => false,
    }
}

/// The word at a place.
pub fn word_at(words: &Words, place: usize) -> &[u8]
    ensures { result.now ≡ word_at words.now place }
{
    match words.get(place) {
        Some(word) => word.as_slice(),
        None => &[],
    }
}
