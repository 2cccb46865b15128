//! The answers of `marshal`.

ghost use Rattle.std.specs.Prelude.{◌≡◌, ◌≢◌, ◌<◌, length, IfOk, IfSome, IsUtf8, OnErr, OnOk, option_map, slice_get};
ghost use Rattle.serde_json.specs.View.{view};
ghost use Rattle.mint.specs.Typed.{IsWellTyped};
ghost use Rattle.mint.specs.Types.{type_at};
ghost use Rattle.mint.specs.Values.{seen};
ghost use Rattle.raw_buf.specs.Buf.{NoneFell};
ghost use Rattle.flick_engine.specs.Messages.{message};
ghost use Rattle.json_shape.specs.Requests.{request_of};
ghost use Rattle.flick_lines.specs.declared.verb.Verb.TheVariants as verbs;
ghost use Rattle.flick_lines.specs.Counted.{call_counted, counted_in, IsCounted};
ghost use Rattle.flick_lines.specs.Marshalled.{call_digits, digits_of, record_refusal, text_in, tree_of, IsEither, IsMarshalled, IsOfRecord};
ghost use Rattle.flick_lines.specs.Paid.{call_by_code, IsPaid, IsPaidRecord};

use crate::text::{copied, digits};
use crate::usual::usual_of;
use flick_engine::{Engine, long_alone};
use json_shape::{RecordErr, RequestRec, Scratch, read_request};
use kit_base::{NoMemory, Octets};
use raw_buf::SendBuf;
use serde_json::{Category, Value as Json};
use std::alloc::Global;

/// The answer of `marshal` to a line, without its line feed. The message is made in the buffer, and the scratch is
/// for reading.
pub fn marshal(
    alloc: Global,
    engine: &Engine,
    line: &[u8],
    scratch: &mut Scratch,
    buf: &mut SendBuf,
) -> Result<Octets, NoMemory>
    ensures value { IfOk result (λ o. IsMarshalled engine.now.binding engine.now.minor line.now o) }
    ensures spent { NoneFell buf.old.spent buf.new.spent }
    ensures paid { OnOk result (IsPaid verbs.Marshal engine.now line.now buf.old buf.new) }
{
    match message_of(alloc, engine, line, scratch, buf)? {
        Some(refusal) => Ok(refusal),
        None => digits(alloc, buf.octets()),
    }
}

/// Makes the message of a line in the buffer, or answers the refusal of the line. The scratch is for reading.
pub fn message_of(
    alloc: Global,
    engine: &Engine,
    line: &[u8],
    scratch: &mut Scratch,
    buf: &mut SendBuf,
) -> Result<Option<Octets>, NoMemory>
    ensures value { IfOk result (λ o. IsMarshalled engine.now.binding engine.now.minor line.now
        (text_in o buf.new.done)) }
    ensures counts { IfOk result (λ o. IsCounted engine.now line.now (counted_in o buf.new)) }
    ensures either { IfOk result (λ o. IsEither o buf.new.done) }
    ensures spent { NoneFell buf.old.spent buf.new.spent }
    ensures paid { OnOk result (IsPaid verbs.Marshal engine.now line.now buf.old buf.new) }
{
    match usual_of(alloc, engine, line, scratch)? {
        Some(record) => made_of(alloc, engine, &record, buf),
        None => by_tree(alloc, engine, line, buf),
    }
}

/// The same by the tree of a line.
fn by_tree(
    alloc: Global,
    engine: &Engine,
    line: &[u8],
    buf: &mut SendBuf,
) -> Result<Option<Octets>, NoMemory>
    ensures value { IfOk result (λ o. IsMarshalled engine.now.binding engine.now.minor line.now
        (text_in o buf.new.done)) }
    ensures counts { IfOk result (λ o. IsCounted engine.now line.now (counted_in o buf.new)) }
    ensures either { IfOk result (λ o. IsEither o buf.new.done) }
    ensures spent { NoneFell buf.old.spent buf.new.spent }
    ensures paid { OnOk result (IsPaid verbs.Marshal engine.now line.now buf.old buf.new) }
{
    match tree_of(alloc, line)? {
        Some(json) => of_tree(alloc, engine, &json, buf),
        None => Ok(Some(copied(alloc, b"! json")?)),
    }
}

/// The tree of a line, where it is JSON. A line that is not UTF-8 has none, and takes no memory.
pub fn tree_of(alloc: Global, line: &[u8]) -> Result<Option<Json>, NoMemory>
    ensures value { IfOk result (λ o. option_map view o ≡ tree_of line.now) }
    ensures memory { OnErr result (IsUtf8 line.now) }
{
    let Ok(text) = str::from_utf8(line) else {
        return Ok(None);
    };
    match Json::from_str(alloc, text) {
        Ok(json) => Ok(Some(json)),
        Err(error) => {
            if error.classify() == Category::Memory {
                return Err(NoMemory);
            }
            Ok(None)
        }
    }
}

/// The same of a tree as a request record.
fn of_tree(
    alloc: Global,
    engine: &Engine,
    json: &Json,
    buf: &mut SendBuf,
) -> Result<Option<Octets>, NoMemory>
    ensures value { IfOk result (λ o. IsOfRecord (call_digits engine.now.binding engine.now.minor)
        (request_of engine.now.binding (view json.now)) (text_in o buf.new.done)) }
    ensures counts { IfOk result (λ o. IsOfRecord (call_counted engine.now)
        (request_of engine.now.binding (view json.now)) (counted_in o buf.new)) }
    ensures either { IfOk result (λ o. IsEither o buf.new.done) }
    ensures spent { NoneFell buf.old.spent buf.new.spent }
    ensures paid { OnOk result (IsPaidRecord (call_by_code engine.now)
        (request_of engine.now.binding (view json.now)) buf.old buf.new) }
{
    match read_request(alloc, engine.bound(), json) {
        Ok(record) => made_of(alloc, engine, &record, buf),
        Err(refusal) => Ok(Some(refused(alloc, refusal)?)),
    }
}

/// The answer to what is not a record.
pub(crate) fn refused(alloc: Global, refusal: RecordErr) -> Result<Octets, NoMemory>
    ensures reported { IfOk result (λ o. o ≡ record_refusal refusal) }
    ensures memory { OnOk result (refusal ≢ RecordErr.NoMemory) }
{
    match refusal {
        RecordErr::Request => copied(alloc, b"! request"),
        RecordErr::Op => copied(alloc, b"! op"),
        RecordErr::Head => copied(alloc, b"! head"),
        RecordErr::Shape => copied(alloc, b"! value"),
        RecordErr::NoMemory => Err(NoMemory),
    }
}

/// Makes the message of a request in the buffer, unless it is too long.
fn made_of(
    alloc: Global,
    engine: &Engine,
    record: &RequestRec,
    buf: &mut SendBuf,
) -> Result<Option<Octets>, NoMemory>
    requires op { record.now.op < length engine.now.binding.ops }
    requires typed { IfSome (slice_get engine.now.binding.ops record.now.op)
        (λ o. IsWellTyped (type_at engine.now.binding.nodes o.request) (seen record.now.value)) }
    ensures value { IfOk result (λ o. text_in o buf.new.done ≡ digits_of
        (message engine.now.binding engine.now.minor record.now.op record.now.head (seen record.now.value))) }
    ensures counts { IfOk result (λ o. counted_in o buf.new
        ≡ call_counted engine.now record.now.op record.now.head (seen record.now.value)) }
    ensures either { IfOk result (λ o. IsEither o buf.new.done) }
    ensures spent { NoneFell buf.old.spent buf.new.spent }
    ensures paid { OnOk result (call_by_code engine.now record.now.op record.now.head
        (seen record.now.value) buf.old buf.new) }
{
    match engine.marshal(record.op, &record.head, &record.value, buf) {
        Ok(()) => Ok(None),
        Err(why) => {
            long_alone(why)?;
            Ok(Some(copied(alloc, b"! long")?))
        }
    }
}
