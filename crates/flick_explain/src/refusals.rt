//! The words of a line that begins with `!`, and what each means.

use crate::causes::Cause;
use crate::command::Verb;
use crate::completions::{first_word, past_word};

/// A refusal of a line: its words after the `!`.
#[derive(Clone, Copy)]
pub struct Refusal<'a> {
    /// The first word.
    pub word: &'a [u8],
    /// The second word, where there is one.
    pub kind: &'a [u8],
    /// The third word, where there is one.
    pub at: &'a [u8],
}

impl Refusal<'_> {
    /// The words of an answer after its first one.
    pub fn of(answer: &[u8]) -> Refusal<'_> {
        let words = past_word(answer);
        let after = past_word(words);
        Refusal {
            word: first_word(words),
            kind: first_word(after),
            at: first_word(past_word(after)),
        }
    }

    /// Whether it has a second word.
    pub fn has_kind(&self) -> bool {
        !self.kind.is_empty()
    }

    /// What it means after a run.
    pub fn cause(&self, verb: Verb) -> Option<Cause> {
        match self.word {
            b"long" => Some(Cause::of(
                "a line has at most 8,388,608 octets, and a message 4,194,304.",
                "send less in one call.",
            )),
            b"json" => Some(Cause::of(
                "each line is one JSON object in UTF-8, with at most 127 levels.",
                "try the line with python3 -m json.tool.",
            )),
            b"request" | b"op" | b"value" => Some(record_cause(verb, self.word)),
            b"head" => Some(head_cause(verb, self.has_kind(), self.kind)),
            b"body" => body_cause(self.kind),
            b"frame" => frame_cause(self.kind),
            b"text" | b"meaning" | b"cover" => Some(stub_cause(self.word)),
            _ => message_cause(self.word),
        }
    }
}

/// What a refusal of a record means.
fn record_cause(verb: Verb, word: &[u8]) -> Cause {
    match verb {
        Verb::Reply | Verb::Unreply => reply_cause(verb, word),
        _ => request_cause(word),
    }
}

/// A name that no operation has.
pub fn unknown_op_cause() -> Cause {
    Cause::of(
        "op is the full name of an operation, with dots; case counts.",
        "write one of the names that the file has.",
    )
}

/// A record that presents no value of a reply.
pub fn misfit_cause() -> Cause {
    Cause::of(
        "the record does not present values of the types that come back.",
        "docs/COMMANDS.md has the JSON of each type; raise takes the whole name of an exception.",
    )
}

/// What a refusal of a request record means.
fn request_cause(word: &[u8]) -> Cause {
    match word {
        b"request" => Cause::of(
            "a record has op, args and the numbers of its head, and nothing else.",
            "docs/COMMANDS.md has the members of a request record.",
        ),
        b"op" => unknown_op_cause(),
        _ => Cause::of(
            "the arguments do not present a value of the parameters' types.",
            "docs/COMMANDS.md has the JSON of each type; an empty pointer is [].",
        ),
    }
}

/// What a refusal of a reply record, or of the name of an operation, means.
fn reply_cause(verb: Verb, word: &[u8]) -> Cause {
    match word {
        b"request" if verb == Verb::Unreply => Cause::of(
            "a line is the name of an operation, one space, and the digits of a reply to it.",
            "write the name of the operation before the digits.",
        ),
        b"request" => Cause::of(
            "a reply record has op, the number of its head, and result and outs or raise and members.",
            "docs/COMMANDS.md has the members of a reply record.",
        ),
        b"op" => Cause::of(
            "op is the full name of an operation that has a reply, with dots; case counts.",
            "write the name of an operation with a reply.",
        ),
        _ => misfit_cause(),
    }
}

/// What a refusal of a message means.
fn message_cause(word: &[u8]) -> Option<Cause> {
    match word {
        b"hex" => Some(Cause::of(
            "a message is an even number of hexadecimal digits, with nothing between them.",
            "make the digits of octets with xxd -p -c 0.",
        )),
        b"interface" => Some(Cause::of(
            "the message is for an interface that the file does not have.",
            "give the file of that program, or use the numbers and names of this one.",
        )),
        b"operation" => Some(Cause::of(
            "the interface has no operation of this number or name.",
            "give the file of that version.",
        )),
        b"pair" => Some(Cause::of(
            "the second format has no operation of this interface and name; xdr alone adds a procedure 0.",
            "declare the procedure in the file, with a name.",
        )),
        b"trailing" => Some(Cause::of(
            "octets follow the last value.",
            "the file may have a field too few, or the line two messages.",
        )),
        _ => None,
    }
}

/// What a refusal of a head means.
fn head_cause(verb: Verb, has_kind: bool, kind: &[u8]) -> Cause {
    if !has_kind {
        return Cause::of(
            "the operation has no reply, and the record names a port for one.",
            "leave local out.",
        );
    }
    match kind {
        b"Short" => Cause::of(
            "the message ends inside its head.",
            "see that the whole message is on the line; docs/FORMATS.md has the head.",
        ),
        b"Type" if verb == Verb::Unreply => Cause::of(
            "the message is not a reply to this operation.",
            "the operation before the space is the one that was called; unmarshal reads calls and requests.",
        ),
        b"Type" => Cause::of(
            "the message is not a request.",
            "unmarshal reads calls and requests, not replies.",
        ),
        b"Target" => Cause::of(
            "the request names its object by a profile or a reference, and not by a key.",
            "let the client name it by its key, as the answer of serve asks for.",
        ),
        _ => Cause::of(
            "the head is not that of this format.",
            "see that BACK is the format of the message; docs/FORMATS.md has its head.",
        ),
    }
}

/// What a refusal of a body means.
fn body_cause(kind: &[u8]) -> Option<Cause> {
    match kind {
        b"Short" => Some(Cause::of(
            "the message ends inside a value, or inside its padding.",
            "the message was cut, or the file has a field too many.",
        )),
        b"OverBound" => Some(Cause::of(
            "the length here is above the bound of its type.",
            "the file may have a bound that is too low.",
        )),
        b"BadValue" => Some(Cause::of(
            "the number here is not one of its type.",
            "the file and the sender differ in a type, or in the items of an enum.",
        )),
        b"BadPad" => Some(Cause::of(
            "an octet that pads to a multiple of four is not 0.",
            "let the sender put zeros there.",
        )),
        b"BadText" => Some(Cause::of(
            "an octet 0 is inside a string.",
            "declare it opaque, which takes every octet.",
        )),
        b"BadItem" => Some(Cause::of(
            "the descriptor here has another name, size, form or number of units than its type.",
            "docs/FORMATS.md has the descriptors.",
        )),
        _ => None,
    }
}

/// What a fault of a stream means.
fn frame_cause(kind: &[u8]) -> Option<Cause> {
    match kind {
        b"Magic" => Some(Cause::of(
            "the next twelve octets of the stream do not begin with GIOP.",
            "see that BACK is the format of the stream, and that nothing stands between its messages.",
        )),
        b"Size" => Some(Cause::of(
            "the next message of the stream says that it is shorter than its header.",
            "see that BACK is the format of the stream, and that nothing stands between its messages.",
        )),
        b"TooLong" => Some(Cause::of(
            "a header of the stream tells a message of more than 4,194,304 octets.",
            "see that BACK is the format of the stream; over xdr each record has a mark of four octets.",
        )),
        b"Cut" => Some(Cause::of(
            "the stream ends within a message.",
            "wait for the rest of it; over xdr the last fragment of a record has bit 31 in its mark.",
        )),
        _ => None,
    }
}

/// What a refusal of a stub means.
fn stub_cause(word: &[u8]) -> Cause {
    match word {
        b"text" => Cause::of(
            "a text is exactly as flick stubs writes it, to each blank and zero, and its blocks nest at most 128 deep.",
            "docs/STUBS.md has the lines.",
        ),
        b"meaning" => Cause::of(
            "but for ensures, chunks, and what docs/STUBS.md allows, a stub does what our own code does.",
            "compare it with what flick stubs writes.",
        ),
        _ => Cause::of(
            "an operation takes the octets that are left of what was ensured, on every way to it.",
            "ensure more before it, in each turn of a loop, or by ensure_row.",
        ),
    }
}
