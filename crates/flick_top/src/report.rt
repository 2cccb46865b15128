//! Reports: what is written in place of answers.

ghost use Rattle.std.specs.Prelude.{◌≡◌, IfOk, string_bytes};
ghost use Rattle.flick_top.specs.Report.{report_text, report_status, lex_name, place_of, name_name, bind_name};

use crate::status::Status;
use aoi::{NameErr, NameFault};
use flick_lines::copied;
use idl_lex::LexErr;
use kit_base::{NoMemory, Octets};
use pres::BindErr;
use std::alloc::Global;

/// The page that `--help` writes.
pub const USAGE: &[u8] = b"usage: flick COMMAND\n\
\n\
commands:\n\
\x20 marshal FRONT BACK FILE        answer each request record on standard input by the\n\
\x20                                hexadecimal digits of its message\n\
\x20 unmarshal FRONT BACK FILE      answer each message in hexadecimal digits by its request\n\
\x20                                record\n\
\x20 reply FRONT BACK FILE          answer each reply record by the hexadecimal digits of its\n\
\x20                                message\n\
\x20 unreply FRONT BACK FILE        answer each line with an operation, a space and a reply in\n\
\x20                                hexadecimal digits by its reply record\n\
\x20 pipe FRONT BACK FILE           write the message of each request record, one after the\n\
\x20                                other, as raw octets; a line that marshal refuses adds\n\
\x20                                none, and marshal says why\n\
\x20 unpipe FRONT BACK FILE         answer each message of a raw stream by its request record,\n\
\x20                                as soon as it is whole\n\
\x20 count FRONT BACK FILE          write the stub code that sends each operation's requests,\n\
\x20                                then answer as marshal, with what the code cost after the\n\
\x20                                digits: checks, moves, stores and rows\n\
\x20 serve FRONT BACK FILE REPLIES  answer each message in hexadecimal digits by that of its\n\
\x20                                reply, or by a dash; REPLIES has a reply record on each line\n\
\x20 bridge FRONT BACK1 BACK2 FILE  answer each message in hexadecimal digits, which is one for\n\
\x20                                BACK1, by that of the same request for BACK2\n\
\x20 check FRONT BACK FILE STUBFILE\n\
\x20                                answer each text of stub code in STUBFILE, whoever made it,\n\
\x20                                by whether it sends the messages of its operation\n\
\x20 stubs FRONT BACK FILE          write the stub code of each operation\n\
\x20 show FRONT FILE                write the types and operations of FILE\n\
\x20 make FRONT BACK FILE NUMBER N  make N requests from NUMBER on, and write what is counted\n\
\x20                                of their messages\n\
\x20 --help                         write this page\n\
\x20 --version                      write name and version\n\
\n\
FRONT is the language of FILE: onc, for the ONC RPC language, corba, for CORBA IDL,\n\
or mig, for MIG definitions.\n\
BACK is xdr, for ONC messages, cdr-be or cdr-le, for messages of GIOP 1.0 in big or\n\
little order, cdr12-be or cdr12-le, for those of GIOP 1.2, or mach, for typed messages\n\
in the manner of Mach 3.\n\
A request record or reply record is a line of JSON.\n\
NUMBER is at most 18,446,744,073,709,551,615 and N at most 1,000,000.\n\
\n\
example:\n\
\x20 echo '{\"op\":\"CALC.V.ADD\",\"xid\":7,\"args\":[{\"a\":1,\"b\":-2}]}' |\n\
\x20   flick marshal onc xdr examples/calc.x\n\
\n\
docs/ERRORS.md explains each line that begins with `?` or `!`, and ./explain says\n\
where and why a file or a line was refused.\n\
\n\
status:\n\
\x20 0  the work was done, and no answer begins with `!`\n\
\x20 1  the work was done, and an answer begins with `!`\n\
\x20 2  the words name no command\n\
\x20 3  a file is not there or was refused; the output is one line with `?`\n\
\x20 4  standard input failed\n\
\x20 5  standard output failed\n\
\x20 6  a file could not be read\n\
\x20 7  out of memory\n\
\x20 8  standard input has more than 1,073,741,824 octets\n\
\x20 9  the arguments are not text\n";

/// The line that `--version` writes.
pub const VERSION: &[u8] = b"flick 0.1.0\n";

/// A report: what is written in place of answers.
#[derive(Clone, Copy, Debug, PartialEq, Eq)]
pub enum Report {
    /// The page of usage.
    Help,
    /// The line with name and version.
    Version,
    /// The file is not there.
    NoFile,
    /// The file has more than 1,048,576 octets.
    TooLarge,
    /// The text of the file has no tokens: its first fault.
    Lex(LexErr),
    /// The tokens of the file have no tree; the line where the first definition that fails begins.
    Syntax(u32),
    /// A name of the file is not resolved: the first fault, and the number of its declaration.
    Name(NameErr),
    /// The unit of the file is not bound to the back end: the first reason.
    Bind(BindErr),
    /// The file of replies is not there.
    NoReplies,
    /// The file of replies has more than 8,388,608 octets.
    LargeReplies,
    /// A line of the file of replies gives no reply; its number, counted from 1.
    WrongReply(usize),
    /// The file of stubs is not there.
    NoStubs,
    /// The file of stubs has more than 8,388,608 octets.
    LargeStubs,
}

impl Report {
    /// What is written.
    pub fn octets(self, alloc: Global) -> Result<Octets, NoMemory>
        ensures { IfOk result (λ o. o ≡ report_text self) }
    {
        match self {
            Report::Help => copied(alloc, USAGE),
            Report::Version => copied(alloc, VERSION),
            Report::NoFile => copied(alloc, b"? file\n"),
            Report::TooLarge => copied(alloc, b"? size\n"),
            Report::Lex(fault) => copied(alloc, lex_text(alloc, fault)?.as_bytes()),
            Report::Syntax(line) => copied(
                alloc,
                format!(in alloc; "? syntax {line}\n")?.as_bytes(),
            ),
            Report::Name(fault) => copied(alloc, name_text(alloc, fault)?.as_bytes()),
            Report::Bind(reason) => copied(
                alloc,
                format!(in alloc; "? bind {}\n", bind_name(reason))?.as_bytes(),
            ),
            Report::NoReplies => copied(alloc, b"? replies file\n"),
            Report::LargeReplies => copied(alloc, b"? replies size\n"),
            Report::WrongReply(line) => copied(
                alloc,
                format!(in alloc; "? replies {line}\n")?.as_bytes(),
            ),
            Report::NoStubs => copied(alloc, b"? stubs file\n"),
            Report::LargeStubs => copied(alloc, b"? stubs size\n"),
        }
    }

    /// How a call ends that says it.
    pub fn status(self) -> Status
        ensures { result ≡ report_status self }
    {
        match self {
            Report::Help | Report::Version => Status::Done,
            Report::NoFile
            | Report::TooLarge
            | Report::Lex(_)
            | Report::Syntax(_)
            | Report::Name(_)
            | Report::Bind(_)
            | Report::NoReplies
            | Report::LargeReplies
            | Report::WrongReply(_)
            | Report::NoStubs
            | Report::LargeStubs => Status::File,
        }
    }
}

/// The line of a fault of a text.
fn lex_text(alloc: Global, fault: LexErr) -> Result<String, NoMemory>
    ensures { IfOk result (λ s. string_bytes s ≡ report_text (Report.Lex fault)) }
{
    Ok(format!(in alloc; "? lex {} {}\n", lex_name(fault), place_of(fault))?)
}

/// The line of a name that is not resolved.
fn name_text(alloc: Global, error: NameErr) -> Result<String, NoMemory>
    ensures { IfOk result (λ s. string_bytes s ≡ report_text (Report.Name error)) }
{
    Ok(format!(in alloc; "? name {} {}\n", name_name(error.fault), error.decl)?)
}

/// The word of a fault of a text.
fn lex_name(fault: LexErr) -> &'static str
    ensures { result.now ≡ lex_name fault }
{
    match fault {
        LexErr::BadOctet(_) => "BadOctet",
        LexErr::OpenComment(_) => "OpenComment",
        LexErr::Wide(_) => "Wide",
        LexErr::Directive(_) => "Directive",
        LexErr::NoMemory => "NoMemory",
    }
}

/// The octet at which a text has its fault, counted from 0.
fn place_of(fault: LexErr) -> usize
    ensures { result ≡ place_of fault }
{
    match fault {
        LexErr::BadOctet(at) | LexErr::OpenComment(at) | LexErr::Wide(at) | LexErr::Directive(at) =>
            at,
        LexErr::NoMemory => 0,
    }
}

/// The word of a fault of a name.
fn name_name(fault: NameFault) -> &'static str
    ensures { result.now ≡ name_name fault }
{
    match fault {
        NameFault::Unknown => "Unknown",
        NameFault::Twice => "Twice",
        NameFault::CaseClash => "CaseClash",
        NameFault::NotType => "NotType",
        NameFault::NotConst => "NotConst",
        NameFault::Range => "Range",
        NameFault::Label => "Label",
        NameFault::Limit => "Limit",
        NameFault::OutOfScope => "OutOfScope",
        NameFault::Oneway => "Oneway",
        NameFault::Port => "Port",
        NameFault::NoMemory => "NoMemory",
    }
}

/// The word of a reason why a unit is not bound.
fn bind_name(reason: BindErr) -> &'static str
    ensures { result.now ≡ bind_name reason }
{
    match reason {
        BindErr::Many => "Many",
        BindErr::Deep => "Deep",
        BindErr::Heavy => "Heavy",
        BindErr::Wide => "Wide",
        BindErr::NoMemory => "NoMemory",
    }
}
