//! Request records from tokens of text in the usual form. Before the name of the operation stands what is there of the
//! arguments and the head numbers, or after it what is there of the head numbers and the arguments.

ghost use Rattle.std.specs.Prelude.{◌≡◌, [], ◌∷◌, ◌<◌, codes, length, slice_get, IfOk, IfSome, OnOk};
ghost use Rattle.json.specs.Token.{key, string};
ghost use Rattle.mint.specs.Typed.{IsWellTyped};
ghost use Rattle.mint.specs.Types.{type_at};
ghost use Rattle.mint.specs.Values.{seen};
ghost use Rattle.json_shape.specs.Requests.{request_of};
ghost use Rattle.json_shape.specs.Usual.{key_token, IsRequestIn, RecordTaken};

use crate::errors::{Halt, Unusual};
use crate::operations::op_named;
use crate::records::RequestRec;
use crate::usual_args::{args_at, array_next};
use crate::usual_heads::{head_in, heads_at};
use crate::usual_tokens::{after_key, begin_members, is_end, is_key, key_next, string_next};
use json::{Reader, Scratch};
use kit_base::NoMemory;
use pres::Bound;
use std::alloc::Global;

/// A record, or why none was read.
pub(crate) type Asked = Result<RequestRec, Halt>;

/// The request that a text presents as a record, where it is in the usual form; none says nothing of the text.
/// The scratch has space for its strings and places: one is kept from line to line.
pub fn direct_request(
    alloc: Global,
    bound: &Bound,
    line: &str,
    scratch: &mut Scratch,
) -> Result<Option<RequestRec>, NoMemory>
    ensures request { IfOk result (λ o. IfSome o (λ r. IsRequestIn bound.now line.now r)) }
    ensures op { IfOk result (λ o. IfSome o (λ r. r.op < length bound.now.ops)) }
    ensures typed { IfOk result (λ o. IfSome o (λ r. IfSome (slice_get bound.now.ops r.op)
        (λ op. IsWellTyped (type_at bound.now.nodes op.request) (seen r.value)))) }
{
    match request_in(alloc, bound, line, scratch) {
        Ok(record) => Ok(Some(record)),
        Err(Halt::Fallback) => Ok(None),
        Err(Halt::NoMemory) => Err(NoMemory),
    }
}

/// The request that a text presents, with space for its strings and places.
fn request_in(alloc: Global, bound: &Bound, line: &str, scratch: &mut Scratch) -> Asked
    ensures request { IfOk result (λ r. IsRequestIn bound.now line.now r) }
    ensures op { IfOk result (λ r. r.op < length bound.now.ops) }
    ensures typed { IfOk result (λ r. IfSome (slice_get bound.now.ops r.op)
        (λ op. IsWellTyped (type_at bound.now.nodes op.request) (seen r.value))) }
{
    let mut reader = Reader::new(line, scratch)?;
    begin_members(&mut reader)?;
    let record = in_order_of(alloc, bound, line, &mut reader)?;
    end(&mut reader)?;
    Ok(record)
}

/// The request of members, up to the end of the object. Their text begins with the arguments where these stand before
/// the operation.
fn in_order_of(alloc: Global, bound: &Bound, line: &str, reader: &mut Reader<'_>) -> Asked
    ensures request { IfOk result (λ r. RecordTaken 126 (request_of bound.now) reader.old reader.new r) }
    ensures op { IfOk result (λ r. r.op < length bound.now.ops) }
    ensures typed { IfOk result (λ r. IfSome (slice_get bound.now.ops r.op)
        (λ op. IsWellTyped (type_at bound.now.nodes op.request) (seen r.value))) }
{
    if !line.starts_with("{\"args\"") {
        return op_and_args(alloc, bound, reader);
    }
    match last_op(line.as_bytes()) {
        Some(name) => args_and_op(alloc, bound, name, reader),
        None => Err(Halt::Fallback),
    }
}

/// The name that follows the last `"op":"` of a text. No clause says that it is the operation's: that is compared with it.
fn last_op(line: &[u8]) -> Option<&str> {
    for n in 0..line.len() {
        if let [b'"', b'o', b'p', b'"', b':', b'"', name @ ..] = &line[line.len() - n..] {
            return before_quote(name);
        }
    }
    None
}

/// What stands before the first quote.
fn before_quote(octets: &[u8]) -> Option<&str> {
    let end = octets.iter().position(|octet| *octet == b'"')?;
    str::from_utf8(&octets[..end]).ok()
}

/// Looks that no token is left.
pub(crate) fn end(reader: &mut Reader<'_>) -> Result<(), Unusual>
    ensures { OnOk result (reader.old ≡ []) }
{
    match reader.next() {
        None => Ok(()),
        Some(_) => Err(Unusual),
    }
}

/// The request of members whose operation stands before the arguments, up to the end of the object.
fn op_and_args(alloc: Global, bound: &Bound, reader: &mut Reader<'_>) -> Asked
    ensures request { IfOk result (λ r. RecordTaken 126 (request_of bound.now) reader.old reader.new r) }
    ensures op { IfOk result (λ r. r.op < length bound.now.ops) }
    ensures typed { IfOk result (λ r. IfSome (slice_get bound.now.ops r.op)
        (λ op. IsWellTyped (type_at bound.now.nodes op.request) (seen r.value))) }
{
    let back = bound.back();
    let first = key_next(reader)?;
    let (before, op_key) = heads_at(back, first, reader)?;
    let name = op_at(op_key, reader)?;
    let Some((op, operation)) = op_named(bound, name)? else {
        return Err(Halt::Fallback);
    };
    let next = key_next(reader)?;
    let (after, args_key) = heads_at(back, next, reader)?;
    let head = head_in(bound, op, operation, &before, &after)?;
    let value = args_at(alloc, bound, operation.request, args_key, reader)?;
    Ok(RequestRec { op, head, value })
}

/// The request of members whose arguments stand before the operation, which has this name, up to the end of the object.
fn args_and_op(alloc: Global, bound: &Bound, name: &str, reader: &mut Reader<'_>) -> Asked
    ensures request { IfOk result (λ r. RecordTaken 126 (request_of bound.now) reader.old reader.new r) }
    ensures op { IfOk result (λ r. r.op < length bound.now.ops) }
    ensures typed { IfOk result (λ r. IfSome (slice_get bound.now.ops r.op)
        (λ op. IsWellTyped (type_at bound.now.nodes op.request) (seen r.value))) }
{
    let Some((op, operation)) = op_named(bound, name)? else {
        return Err(Halt::Fallback);
    };
    after_key("args", reader)?;
    let value = array_next(alloc, bound, operation.request, reader)?;
    let back = bound.back();
    let first = key_next(reader)?;
    let (before, op_key) = heads_at(back, first, reader)?;
    name_at(name, op_key, reader)?;
    let next = key_next(reader)?;
    let (after, last) = heads_at(back, next, reader)?;
    let head = head_in(bound, op, operation, &before, &after)?;
    if !is_end(last) {
        return Err(Halt::Fallback);
    }
    Ok(RequestRec { op, head, value })
}

/// The name of the operation, where its key is the one that was taken.
pub(crate) fn op_at<'a>(taken: Option<&'a str>, reader: &mut Reader<'a>) -> Result<&'a str, Unusual>
    ensures { IfOk result (λ s. key_token taken.entry ∷ reader.old
        ≡ key (codes "op") ∷ string s.now ∷ reader.new) }
{
    if !is_key(taken, "op") {
        return Err(Unusual);
    }
    string_next(reader)
}

/// Takes the name of the operation, where it is this one.
fn name_at<'a>(name: &str, taken: Option<&'a str>, reader: &mut Reader<'a>) -> Result<(), Unusual>
    ensures { OnOk result (key_token taken.entry ∷ reader.old
        ≡ key (codes "op") ∷ string name.now ∷ reader.new) }
{
    let found = op_at(taken, reader)?;
    if found == name { Ok(()) } else { Err(Unusual) }
}
