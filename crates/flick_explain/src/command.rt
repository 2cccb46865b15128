//! What the words name: those of the run that is explained, and the file of its input.

use flick_engine::{Wire, wire_of};
use idl_lex::Front;
use kit_base::{Octets, Words};
use wire_def::Back;

/// What was done over a file.
#[derive(Clone, Copy, PartialEq, Eq)]
pub enum Verb {
    /// Each request record gave the message of the request.
    Marshal,
    /// Each message gave the record of its request.
    Unmarshal,
    /// Each reply record gave the message of the reply.
    Reply,
    /// Each message gave the record of the reply to an operation.
    Unreply,
    /// Each request record gave what it costs to send its message.
    Count,
    /// Each message of a raw stream gave the record of its request.
    Unpipe,
    /// Each message gave the message of its reply.
    Serve,
    /// Each message gave the message of the same request in a second format.
    Bridge,
    /// The texts of the stub code were written.
    Stubs,
    /// What the file offers was written.
    Show,
    /// Messages of values that a number makes were tried.
    Make,
    /// Each text of stub code was judged.
    Check,
}

/// The run that is explained.
#[derive(Clone, Copy)]
pub struct Run<'a> {
    /// What was done.
    pub verb: Verb,
    /// The language of the interface file.
    pub front: Front,
    /// The format of the messages, of two the first; `xdr` for `show`, which makes none.
    pub back: Back,
    /// The version of the messages, by its minor number.
    pub minor: u8,
    /// The path of the interface file.
    pub path: &'a [u8],
    /// The path of the file of replies, where the run has one.
    pub replies: Option<&'a [u8]>,
    /// The path of the file of stubs, where the run has one.
    pub stubs: Option<&'a [u8]>,
    /// The path of what the run read, where it is given.
    pub lines: Option<&'a [u8]>,
}

/// The run of the words, which may have `--lines INPUT` after them where it reads lines.
pub fn run_of(words: &Words) -> Option<Run<'_>> {
    match words.as_slice() {
        [verb, front, path] => show_of(verb, front, path),
        [verb, front, back, path] => over_file(verb, front, back, path),
        [verb, front, back, fourth, fifth] => over_two(verb, front, back, fourth, fifth),
        [verb, front, back, path, option, lines] => {
            if is_option(option) {
                return read_from(over_file(verb, front, back, path)?, lines);
            }
            make_of(verb, front, back, path)
        }
        [verb, front, back, fourth, fifth, option, lines] => {
            if is_option(option) {
                return read_from(over_two(verb, front, back, fourth, fifth)?, lines);
            }
            None
        }
        _ => None,
    }
}

/// Whether a word says that the file of the input comes after it.
fn is_option(word: &Octets) -> bool {
    word.as_slice() == b"--lines".as_slice()
}

/// The same run, with the file that it read, where it reads lines.
fn read_from<'a>(run: Run<'a>, lines: &'a Octets) -> Option<Run<'a>> {
    match run.verb {
        Verb::Unpipe | Verb::Stubs | Verb::Show | Verb::Make | Verb::Check => None,
        _ => Some(Run {
            lines: Some(lines.as_slice()),
            ..run
        }),
    }
}

/// The run of a verb over a file alone.
fn over_file<'a>(
    verb: &Octets,
    front: &Octets,
    back: &Octets,
    path: &'a Octets,
) -> Option<Run<'a>> {
    run_in(verb_of(verb.as_slice())?, front, back, path)
}

/// The run of `serve FRONT BACK FILE REPLIES`, of `check FRONT BACK FILE STUBFILE` or of `bridge FRONT BACK1 BACK2 FILE`.
fn over_two<'a>(
    verb: &Octets,
    front: &Octets,
    back: &Octets,
    fourth: &'a Octets,
    fifth: &'a Octets,
) -> Option<Run<'a>> {
    match verb.as_slice() {
        b"serve" => Some(Run {
            replies: Some(fifth.as_slice()),
            ..run_in(Verb::Serve, front, back, fourth)?
        }),
        b"check" => Some(Run {
            stubs: Some(fifth.as_slice()),
            ..run_in(Verb::Check, front, back, fourth)?
        }),
        _ => bridge_of(verb, front, back, fourth, fifth),
    }
}

/// The run of `bridge FRONT BACK1 BACK2 FILE`.
fn bridge_of<'a>(
    verb: &Octets,
    front: &Octets,
    back: &Octets,
    to: &Octets,
    path: &'a Octets,
) -> Option<Run<'a>> {
    if verb.as_slice() != b"bridge".as_slice() {
        return None;
    }
    wire_of(to.as_slice())?;
    run_in(Verb::Bridge, front, back, path)
}

/// The run of `show FRONT FILE`.
fn show_of<'a>(verb: &Octets, front: &Octets, path: &'a Octets) -> Option<Run<'a>> {
    if verb.as_slice() != b"show".as_slice() {
        return None;
    }
    Some(run_by(Verb::Show, front_of(front.as_slice())?, Wire::Xdr, path))
}

/// The run of `make FRONT BACK FILE NUMBER N`.
fn make_of<'a>(verb: &Octets, front: &Octets, back: &Octets, path: &'a Octets) -> Option<Run<'a>> {
    if verb.as_slice() != b"make".as_slice() {
        return None;
    }
    run_in(Verb::Make, front, back, path)
}

/// The run of the words of a language and a format.
pub fn run_in<'a>(verb: Verb, front: &Octets, back: &Octets, path: &'a Octets) -> Option<Run<'a>> {
    let front = front_of(front.as_slice())?;
    let wire = wire_of(back.as_slice())?;
    Some(run_by(verb, front, wire, path))
}

/// The run in a language over a format.
fn run_by(verb: Verb, front: Front, wire: Wire, path: &Octets) -> Run<'_> {
    Run {
        verb,
        front,
        back: wire.back(),
        minor: wire.minor(),
        path: path.as_slice(),
        replies: None,
        stubs: None,
        lines: None,
    }
}

/// What a word does over a file alone.
fn verb_of(word: &[u8]) -> Option<Verb> {
    match word {
        b"marshal" => Some(Verb::Marshal),
        b"unmarshal" => Some(Verb::Unmarshal),
        b"reply" => Some(Verb::Reply),
        b"unreply" => Some(Verb::Unreply),
        b"count" => Some(Verb::Count),
        b"unpipe" => Some(Verb::Unpipe),
        b"stubs" => Some(Verb::Stubs),
        _ => None,
    }
}

/// The language of a word.
fn front_of(word: &[u8]) -> Option<Front> {
    match word {
        b"onc" => Some(Front::Onc),
        b"corba" => Some(Front::Corba),
        b"mig" => Some(Front::Mig),
        _ => None,
    }
}
