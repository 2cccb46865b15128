//! The answers of `reply`.

ghost use Rattle.std.specs.Prelude.{◌≡◌, ◌<◌, length, true, IfOk, IfSome, OnOk, slice_get};
ghost use Rattle.serde_json.specs.View.{view};
ghost use Rattle.mint.specs.Typed.{IsWellTyped};
ghost use Rattle.mint.specs.Types.{type_at};
ghost use Rattle.mint.specs.Values.{seen};
ghost use Rattle.raw_buf.specs.Buf.{NoneFell};
ghost use Rattle.json_shape.specs.Replies.{reply_of};
ghost use Rattle.flick_engine.specs.Replies.{reply_message};
ghost use Rattle.flick_lines.specs.declared.verb.Verb.TheVariants as verbs;
ghost use Rattle.flick_lines.specs.Marshalled.{digits_of, reply_digits, IsOfRecord, IsReplied};
ghost use Rattle.flick_lines.specs.Paid.{reply_by_code, IsPaid, IsPaidRecord};

use crate::marshalled::{refused, tree_of};
use crate::text::{copied, digits};
use crate::usual::usual_reply;
use flick_engine::{Engine, long_alone};
use json_shape::{RequestRec, Scratch, read_reply};
use kit_base::{NoMemory, Octets};
use raw_buf::SendBuf;
use serde_json::Value as Json;
use std::alloc::Global;

/// The answer of `reply` to a line, without its line feed. The message is made in the buffer, and the scratch is for
/// reading.
pub fn reply(
    alloc: Global,
    engine: &Engine,
    line: &[u8],
    scratch: &mut Scratch,
    buf: &mut SendBuf,
) -> Result<Octets, NoMemory>
    requires answers { engine.now.answers ≡ true }
    ensures value { IfOk result (λ o. IsReplied engine.now.binding engine.now.minor line.now o) }
    ensures spent { NoneFell buf.old.spent buf.new.spent }
    ensures paid { OnOk result (IsPaid verbs.Reply engine.now line.now buf.old buf.new) }
{
    match usual_reply(alloc, engine, line, scratch)? {
        Some(record) => digits_of(alloc, engine, &record, buf),
        None => by_tree(alloc, engine, line, buf),
    }
}

/// The same by the tree of a line.
fn by_tree(
    alloc: Global,
    engine: &Engine,
    line: &[u8],
    buf: &mut SendBuf,
) -> Result<Octets, NoMemory>
    requires answers { engine.now.answers ≡ true }
    ensures value { IfOk result (λ o. IsReplied engine.now.binding engine.now.minor line.now o) }
    ensures spent { NoneFell buf.old.spent buf.new.spent }
    ensures paid { OnOk result (IsPaid verbs.Reply engine.now line.now buf.old buf.new) }
{
    match tree_of(alloc, line)? {
        Some(json) => of_tree(alloc, engine, &json, buf),
        None => copied(alloc, b"! json"),
    }
}

/// The answer of `reply` to a tree as a reply record.
fn of_tree(
    alloc: Global,
    engine: &Engine,
    json: &Json,
    buf: &mut SendBuf,
) -> Result<Octets, NoMemory>
    requires answers { engine.now.answers ≡ true }
    ensures value { IfOk result (λ o. IsOfRecord (reply_digits engine.now.binding engine.now.minor)
        (reply_of engine.now.binding (view json.now)) o) }
    ensures spent { NoneFell buf.old.spent buf.new.spent }
    ensures paid { OnOk result (IsPaidRecord (reply_by_code engine.now)
        (reply_of engine.now.binding (view json.now)) buf.old buf.new) }
{
    match read_reply(alloc, engine.bound(), json) {
        Ok(record) => digits_of(alloc, engine, &record, buf),
        Err(refusal) => refused(alloc, refusal),
    }
}

/// The message of a reply in hexadecimal digits, unless it is too long.
fn digits_of(
    alloc: Global,
    engine: &Engine,
    record: &RequestRec,
    buf: &mut SendBuf,
) -> Result<Octets, NoMemory>
    requires answers { engine.now.answers ≡ true }
    requires op { record.now.op < length engine.now.binding.ops }
    requires typed { IfSome (slice_get engine.now.binding.ops record.now.op)
        (λ o. IsWellTyped (type_at engine.now.binding.nodes o.reply) (seen record.now.value)) }
    ensures value { IfOk result (λ o. o ≡ digits_of
        (reply_message engine.now.binding engine.now.minor record.now.op record.now.head
        (seen record.now.value))) }
    ensures spent { NoneFell buf.old.spent buf.new.spent }
    ensures paid { OnOk result (reply_by_code engine.now record.now.op record.now.head
        (seen record.now.value) buf.old buf.new) }
{
    match engine.marshal_reply(record.op, &record.head, &record.value, buf) {
        Ok(()) => digits(alloc, buf.octets()),
        Err(why) => {
            long_alone(why)?;
            copied(alloc, b"! long")
        }
    }
}
