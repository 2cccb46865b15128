//! `? replies`: the file of replies, or the line of it that gives none, and why.

use crate::causes::Cause;
use crate::inputs::Inputs;
use crate::lexing::put_cause;
use crate::records::{head_key, json_of, json_reported, op_of};
use crate::refusals::{misfit_cause, unknown_op_cause};
use crate::reply_records::{keys_reported, reply_misfit, replying_reported};
use crate::text::{number_in, shown, text_of};
use json_shape::{RecordErr, RequestRec, read_reply};
use kit_base::limits::LONGEST_MESSAGE;
use kit_base::{NoMemory, Octets};
use mint::fits::fits;
use mint::table::NodeId;
use mint::value::Value;
use plain_wire::plain_send;
use pres::Bound;
use serde_json::Value as Json;
use std::alloc::Global;
use wire_def::{Back, Encoding};

/// No head of a reply has more octets.
const HEAD: usize = 64;

/// A file of replies, and the interface that they are of.
#[derive(Clone, Copy)]
pub struct Given<'a> {
    /// Its path, as the words give it.
    pub path: &'a [u8],
    /// Its octets, where it is there.
    pub text: Option<&'a [u8]>,
    /// The interface file bound to the back end, where it is accepted.
    pub bound: Option<&'a Bound>,
}

/// The lines of a file of replies, one of which gives none.
#[derive(Clone, Copy)]
struct Lined<'a> {
    bound: &'a Bound,
    text: &'a [u8],
    /// The number of the line, from 1.
    number: usize,
}

/// Why a line gives no reply: what it has, and what that means.
#[derive(Drop)]
struct Wrong {
    reported: String,
    cause: Cause,
}

/// What is said of `? replies WORD`.
pub fn replies_reported(
    alloc: Global,
    given: &Given<'_>,
    word: &[u8],
) -> Result<Option<String>, NoMemory> {
    match word {
        b"file" => file_reported(alloc, given.path, "there is no such file"),
        b"size" => file_reported(
            alloc,
            given.path,
            "a file of replies has at most 8388608 octets",
        ),
        _ => match (number_in(word), given.text, given.bound) {
            (Some(number), Some(text), Some(bound)) => {
                let lined = Lined {
                    bound,
                    text,
                    number: number as usize,
                };
                line_reported(alloc, given.path, &lined)
            }
            _ => Ok(None),
        },
    }
}

/// What is said of the file as a whole.
fn file_reported(alloc: Global, path: &[u8], what: &str) -> Result<Option<String>, NoMemory> {
    let path = shown(alloc, path)?;
    Ok(Some(format!(in alloc; "{path}: {what}\n")?))
}

/// What is said of a line of the file, where it gives no reply.
fn line_reported(
    alloc: Global,
    path: &[u8],
    lined: &Lined<'_>,
) -> Result<Option<String>, NoMemory> {
    match lined.wrong(alloc)? {
        Some(wrong) => Ok(Some(wrong_reported(alloc, path, lined.number, &wrong)?)),
        None => Ok(None),
    }
}

/// The path and number of a line, what it has, and what that means.
fn wrong_reported(
    alloc: Global,
    path: &[u8],
    number: usize,
    wrong: &Wrong,
) -> Result<String, NoMemory> {
    let path = shown(alloc, path)?;
    let mut out = format!(in alloc; "{path}:{number}: {}\n", wrong.reported)?;
    put_cause(&mut out, &wrong.cause)?;
    Ok(out)
}

/// What a line has, and what that means.
fn is_wrong(reported: String, cause: Cause) -> Option<Wrong> {
    Some(Wrong { reported, cause })
}

impl Lined<'_> {
    /// Why the line gives no reply, if it gives none.
    fn wrong(&self, alloc: Global) -> Result<Option<Wrong>, NoMemory> {
        match self.line() {
            Some(line) => self.line_wrong(alloc, line),
            None => Ok(None),
        }
    }

    /// The line, where it is not empty.
    fn line(&self) -> Option<&[u8]> {
        let mut lines = Inputs::of(self.text);
        for _ in self.text {
            let line = lines.next()?;
            if lines.number() >= self.number {
                return if lines.number() == self.number {
                    Some(line)
                } else {
                    None
                };
            }
        }
        None
    }

    /// Why the octets of the line give no reply, if they give none.
    fn line_wrong(&self, alloc: Global, line: &[u8]) -> Result<Option<Wrong>, NoMemory> {
        match json_of(alloc, line)? {
            Some(json) => self.json_wrong(alloc, &json),
            None => Ok(is_wrong(
                json_reported(alloc, line)?,
                Cause::of(
                    "each line of the file is one reply record, a JSON object in UTF-8.",
                    "try the line with python3 -m json.tool.",
                ),
            )),
        }
    }

    /// Why the JSON gives no reply, if it gives none.
    fn json_wrong(&self, alloc: Global, json: &Json) -> Result<Option<Wrong>, NoMemory> {
        let key = head_key(self.bound.back());
        if json.get(key).is_some() {
            let reported = format!(in alloc; "the member '{key}' is there")?;
            return Ok(is_wrong(
                reported,
                Cause::of(
                    "a reply takes the number of the message that it answers.",
                    "leave the member out.",
                ),
            ));
        }
        self.record_wrong(alloc, json)
    }

    /// Why a record without a head number gives no reply, if it gives none.
    fn record_wrong(&self, alloc: Global, json: &Json) -> Result<Option<Wrong>, NoMemory> {
        match read_reply(alloc, self.bound, json) {
            Ok(record) => self.reply_wrong(alloc, &record),
            Err(RecordErr::NoMemory) => Err(NoMemory),
            Err(error) => self.refused(alloc, json, error),
        }
    }

    /// Why no reply is read of a record.
    fn refused(
        &self,
        alloc: Global,
        json: &Json,
        error: RecordErr,
    ) -> Result<Option<Wrong>, NoMemory> {
        match error {
            RecordErr::Op | RecordErr::Head => self.op_wrong(alloc, json),
            RecordErr::Shape => Ok(is_wrong(
                reply_misfit(alloc, self.bound, json)?,
                misfit_cause(),
            )),
            _ => Ok(is_wrong(
                keys_reported(alloc, self.bound.back(), json)?,
                Cause::of(
                    "a reply record has op, and result and outs or raise and members, and nothing else.",
                    "docs/COMMANDS.md has the members of a reply record.",
                ),
            )),
        }
    }

    /// An operation that is not there, or has no reply.
    fn op_wrong(&self, alloc: Global, json: &Json) -> Result<Option<Wrong>, NoMemory> {
        let cause = match op_of(alloc, self.bound, json)? {
            Some(_) => Cause::of(
                "nothing is sent back for a oneway operation or a simpleroutine.",
                "name an operation with a reply.",
            ),
            None => unknown_op_cause(),
        };
        Ok(is_wrong(replying_reported(alloc, self.bound, json)?, cause))
    }

    /// Why a reply is not taken, if it is not.
    fn reply_wrong(&self, alloc: Global, record: &RequestRec) -> Result<Option<Wrong>, NoMemory> {
        match self.earlier(alloc, record.op)? {
            Some(line) => {
                let reported = format!(in alloc;
                    "line {line} gives a reply to the same operation"
                )?;
                Ok(is_wrong(
                    reported,
                    Cause::of(
                        "an operation has at most one reply in the file.",
                        "leave one of the two lines out.",
                    ),
                ))
            }
            None => self.length_wrong(alloc, record),
        }
    }

    /// The first line before this one that gives a reply to an operation.
    fn earlier(&self, alloc: Global, op: u32) -> Result<Option<usize>, NoMemory> {
        let mut lines = Inputs::of(self.text);
        for _ in self.text {
            let Some(line) = lines.next() else {
                return Ok(None);
            };
            if lines.number() >= self.number {
                return Ok(None);
            }
            if self.op_on(alloc, line)? == Some(op) {
                return Ok(Some(lines.number()));
            }
        }
        Ok(None)
    }

    /// The operation to which a line gives a reply.
    fn op_on(&self, alloc: Global, line: &[u8]) -> Result<Option<u32>, NoMemory> {
        match json_of(alloc, line)? {
            Some(json) => self.op_in(alloc, &json),
            None => Ok(None),
        }
    }

    /// The operation to which a record gives a reply.
    fn op_in(&self, alloc: Global, json: &Json) -> Result<Option<u32>, NoMemory> {
        match read_reply(alloc, self.bound, json) {
            Ok(record) => Ok(Some(record.op)),
            Err(RecordErr::NoMemory) => Err(NoMemory),
            Err(_) => Ok(None),
        }
    }

    /// Whether the message of a reply may be too long.
    fn length_wrong(&self, alloc: Global, record: &RequestRec) -> Result<Option<Wrong>, NoMemory> {
        let Some(op) = self.bound.ops().get(record.op as usize) else {
            return Ok(None);
        };
        let length = length_of(alloc, self.bound, op.reply, &record.value)?;
        if length.saturating_add(HEAD) <= LONGEST_MESSAGE {
            return Ok(None);
        }
        let reported = text_of(alloc, "the message of the reply is too long")?;
        Ok(is_wrong(
            reported,
            Cause::of(
                "a message has at most 4,194,304 octets.",
                "give a shorter reply.",
            ),
        ))
    }
}

/// How many octets a value of a node has over the back end; 0 where it is not one of the node.
fn length_of(alloc: Global, bound: &Bound, id: NodeId, value: &Value) -> Result<usize, NoMemory> {
    let mint = bound.mint();
    if id as usize >= mint.len() || !fits(mint, id, value) {
        return Ok(0);
    }
    let mut out = Octets::new(alloc);
    plain_send(encoding_of(bound.back()), mint, id, 0, value, &mut out)?;
    Ok(out.len())
}

/// How the values of a back end are laid out.
fn encoding_of(back: Back) -> Encoding {
    match back {
        Back::Xdr => Encoding::Xdr,
        Back::CdrBig => Encoding::CdrBig,
        Back::CdrLittle => Encoding::CdrLittle,
        Back::Mach => Encoding::Mach,
    }
}
