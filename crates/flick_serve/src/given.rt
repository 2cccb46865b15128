//! The replies that a file gives.

ghost use Rattle.std.specs.Prelude.{◌≡◌, ◌≢◌, ◌<◌, ◌+◌, ◌∷◌, ◌==◌, [], None, Some, true, false, not, length, take, drop, is_some, slice_get, slice_set, IfNone, IfOk, IfSome, MatchBool, OnErr, OnOk};
ghost use Rattle.std.specs.List.{position};
ghost use Rattle.std.specs.Option.{option_map_or};
ghost use Rattle.kit_base.specs.Limits.{longest_message};
ghost use Rattle.kit_base.specs.Lines.{chomp};
ghost use Rattle.mint.specs.Typed.{IsWellTyped};
ghost use Rattle.mint.specs.Types.{type_at};
ghost use Rattle.mint.specs.Values.{seen};
ghost use Rattle.serde_json.specs.View.{view};
ghost use Rattle.json_shape.specs.Replies.{given_of};
ghost use Rattle.skeleton.specs.TableSkeleton.{kept_in, IsKept};
ghost use Rattle.flick_engine.specs.Received.{IsShort};
ghost use Rattle.flick_serve.specs.Given as files;
ghost use Rattle.flick_serve.specs.Given.{Adds, FileGives, Finds, Give, IsFitting, IsGiven, IsReplyOf, given_by, given_in, lines_of, message_of, unless_wrong};

use flick_engine::{Engine, long_alone};
use flick_lines::tree_of;
use json_shape::{RecordErr, RequestRec, read_given};
use kit_base::NoMemory;
use raw_buf::SendBuf;
use serde_json::Value as Json;
use skeleton::{Replies, Twice};
use std::alloc::Global;

/// The number of a line of a file, counted from 1, that gives no reply.
#[derive(Clone, Copy, Debug, PartialEq, Eq)]
pub struct WrongLine(pub usize);

/// The replies that a file gives for the operations of an engine, or its first line that is wrong.
pub(crate) fn replies_in(
    alloc: Global,
    engine: &Engine,
    text: &[u8],
) -> Result<Result<Replies, WrongLine>, NoMemory>
    requires answers { engine.now.answers ≡ true }
    ensures gives { IfOk result (λ r. FileGives engine.now.binding text.now (given_by r)) }
    ensures kept { IfOk result (λ r. IfOk r
        (λ places. IsKept (record { binding = engine.now.binding; replies = places }))) }
{
    let mut buf = SendBuf::new(alloc)?;
    let mut replies = Replies::new(alloc, engine.bound().ops().len())?;
    match read_lines(alloc, engine, text, &mut replies, &mut buf)? {
        None => Ok(Ok(replies)),
        Some(wrong) => Ok(Err(wrong)),
    }
}

/// Keeps the replies that the lines of a text give, up to the first line that is wrong.
fn read_lines(
    alloc: Global,
    engine: &Engine,
    text: &[u8],
    replies: &mut Replies,
    buf: &mut SendBuf,
) -> Result<Option<WrongLine>, NoMemory>
    requires answers { engine.now.answers ≡ true }
    requires kept { IsKept (record { binding = engine.now.binding; replies = replies.old }) }
    ensures gives { IfOk result (λ wrong. Give engine.now.binding 1 (given_in replies.old)
        (lines_of text.now) (given_by (unless_wrong wrong replies.new))) }
    ensures kept { OnOk result (IsKept (record { binding = engine.now.binding; replies = replies.new })) }
{
    let mut rest = Some(text);
    let mut number: usize = 1;
    'lines: while let Some(octets) = rest {
        let (line, after) = cut(octets);
        if !take_line(alloc, engine, chomped(line), replies, buf)? {
            return Ok(Some(WrongLine(number)));
        }
        rest = after;
        number += 1;
    }
    Ok(None)
}

/// Whether a line is empty, or gives a reply to an operation that has none, which then is kept.
fn take_line(
    alloc: Global,
    engine: &Engine,
    line: &[u8],
    replies: &mut Replies,
    buf: &mut SendBuf,
) -> Result<bool, NoMemory>
    requires answers { engine.now.answers ≡ true }
    requires kept { IsKept (record { binding = engine.now.binding; replies = replies.old }) }
    ensures adds { IfOk result (λ taken. MatchBool taken
        (Adds engine.now.binding (given_in replies.old) line.now (given_in replies.new))
        ((more : files.Given) → ¬ Adds engine.now.binding (given_in replies.old) line.now more)) }
    ensures kept { OnOk result (IsKept (record { binding = engine.now.binding; replies = replies.new })) }
{
    if line.is_empty() {
        return Ok(true);
    }
    match record_on(alloc, engine, line, buf)? {
        Some(reply) => Ok(keep(replies, reply)),
        None => Ok(false),
    }
}

/// Keeps the reply of a record, unless its operation has one.
fn keep(replies: &mut Replies, reply: RequestRec) -> bool
    requires { reply.op < length replies.old }
    ensures fresh { result ≡ not (is_some (kept_in replies.old reply.op)) }
    ensures kept { result ≡ true → replies.new ≡ slice_set replies.old reply.op (Some reply.value) }
    ensures stands { result ≡ false → replies.new ≡ replies.old }
{
    match replies.put(reply.op, reply.value) {
        Ok(()) => true,
        Err(Twice) => false,
    }
}

/// The record of the reply that a line gives.
fn record_on(
    alloc: Global,
    engine: &Engine,
    line: &[u8],
    buf: &mut SendBuf,
) -> Result<Option<RequestRec>, NoMemory>
    requires answers { engine.now.answers ≡ true }
    ensures found { IfOk result (Finds (IsGiven engine.now.binding line.now)) }
    ensures fits { IfOk result (λ o. IfSome o (IsFitting engine.now.binding)) }
{
    match tree_of(alloc, line)? {
        Some(json) => record_in(alloc, engine, &json, buf),
        None => Ok(None),
    }
}

/// The record of the reply that JSON presents, where its message is not too long.
fn record_in(
    alloc: Global,
    engine: &Engine,
    json: &Json,
    buf: &mut SendBuf,
) -> Result<Option<RequestRec>, NoMemory>
    requires answers { engine.now.answers ≡ true }
    ensures found { IfOk result
        (Finds (IsReplyOf engine.now.binding (given_of engine.now.binding (view json.now)))) }
    ensures fits { IfOk result (λ o. IfSome o (IsFitting engine.now.binding)) }
{
    match read_given(alloc, engine.bound(), json) {
        Ok(reply) => unless_long(alloc, engine, reply, buf),
        Err(refusal) => none_of(refusal),
    }
}

/// No record, where one was refused for another reason than memory.
fn none_of(refusal: RecordErr) -> Result<Option<RequestRec>, NoMemory>
    ensures none { IfOk result (λ o. o ≡ None) }
    ensures memory { OnOk result (refusal ≢ RecordErr.NoMemory) }
    ensures only { OnErr result (refusal ≡ RecordErr.NoMemory) }
{
    match refusal {
        RecordErr::Request | RecordErr::Op | RecordErr::Head | RecordErr::Shape => Ok(None),
        RecordErr::NoMemory => Err(NoMemory),
    }
}

/// The record of a reply, unless its message is too long.
fn unless_long(
    alloc: Global,
    engine: &Engine,
    reply: RequestRec,
    buf: &mut SendBuf,
) -> Result<Option<RequestRec>, NoMemory>
    requires answers { engine.now.answers ≡ true }
    requires op { reply.op < length engine.now.binding.ops }
    requires typed { IfSome (slice_get engine.now.binding.ops reply.op)
        (λ o. IsWellTyped (type_at engine.now.binding.nodes o.reply) (seen reply.value)) }
    ensures same { IfOk result (λ o. IfSome o (λ r. r ≡ reply)) }
    ensures short { IfOk result (λ o. IfSome o (λ r. IsShort (message_of engine.now.binding reply))) }
    ensures long { IfOk result
        (λ o. IfNone o (longest_message < length (message_of engine.now.binding reply))) }
{
    match engine.reply_in_version(reply.op, 0, &reply.head, &reply.value, buf) {
        Ok(()) => Ok(Some(reply)),
        Err(why) => {
            long_alone(why)?;
            Ok(None)
        }
    }
}

/// The first line of a text, and what follows its line feed, where it has one.
fn cut(text: &[u8]) -> (&[u8], Option<&[u8]>)
    ensures split { lines_of text.now
        ≡ result.0.now ∷ option_map_or (λ rest. lines_of rest.now) result.1 [] }
    ensures shorter { IfSome result.1 (λ rest. length rest.now < length text.now) }
{
    match end_of_line(text) {
        Some(end) => {
            let (line, rest) = parts(text, end);
            (line, Some(rest))
        }
        None => (text, None),
    }
}

/// What is before the octet at a place, and what follows it.
fn parts(text: &[u8], place: usize) -> (&[u8], &[u8])
    requires { place < length text.now }
    ensures before { result.0.now ≡ take place text.now }
    ensures after { result.1.now ≡ drop (place + 1) text.now }
{
    (&text[..place], &text[place + 1..])
}

/// The place of the first line feed.
fn end_of_line(text: &[u8]) -> Option<usize>
    ensures value { result ≡ position (λ o. o == 10) text.now }
    ensures within { IfSome result (λ n. n < length text.now) }
{
    text.iter().position(|octet| *octet == b'\n')
}

/// A line without the carriage return at its end.
fn chomped(line: &[u8]) -> &[u8]
    ensures { result.now ≡ chomp line.now }
{
    match line.last() {
        Some(b'\r') => &line[..line.len() - 1],
        _ => line,
    }
}
