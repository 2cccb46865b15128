//! The requests that a number makes.

ghost use Rattle.std.specs.Prelude.{◌≡◌, ◌<◌, true, [], length, IfOk, OnOk};
ghost use Rattle.raw_buf.specs.Buf.{NoneFell};
ghost use Rattle.flick_lines.specs.Paid.{call_by_code};
ghost use Rattle.flick_lines.specs.Sent.{IsSpentBy};
ghost use Rattle.flick_texts.specs.Counted.{messages_from, Counts};
ghost use Rattle.flick_texts.specs.MadeText.{made_head, made_message, made_value, make_text, turn, IsRead, IsTrip};
ghost use Rattle.flick_texts.specs.Spent.{all_sent, sent_from};

use crate::sums::Sums;
use crate::trip::{Trip, refused};
use case_make::make_value;
use flick_engine::{Engine, long_alone};
use kit_base::{NoMemory, Octets};
use raw_buf::{RecvView, SendBuf};
use std::alloc::Global;
use wire_def::{Head, Order};

/// Makes so many requests from a number, each of the next operation, marshals each in the buffer, and reads the
/// message back. The line of what is counted of the messages. One message is kept at a time.
pub fn make_text(
    alloc: Global,
    engine: &Engine,
    number: u64,
    many: u32,
    buf: &mut SendBuf,
) -> Result<Octets, NoMemory>
    ensures value { IfOk result (λ t. t ≡ make_text engine.now.binding engine.now.minor number many) }
    ensures sends { OnOk result (IsSpentBy true (all_sent engine.now number many) buf.old buf.new) }
    ensures spent { NoneFell buf.old.spent buf.new.spent }
{
    if engine.bound().ops().len() == 0 {
        return Sums::new().line(alloc, 0);
    }
    let sums = sums_of(alloc, engine, number, many, buf)?;
    sums.line(alloc, many)
}

/// What is counted of the messages of so many requests.
fn sums_of(
    alloc: Global,
    engine: &Engine,
    number: u64,
    many: u32,
    buf: &mut SendBuf,
) -> Result<Sums, NoMemory>
    requires { 0 < length engine.now.binding.ops }
    ensures sums { IfOk result (λ s.
        Counts s [] (messages_from (made_message engine.now.binding engine.now.minor number) 0 many)) }
    ensures sends { OnOk result (IsSpentBy true (sent_from engine.now number 0 many) buf.old buf.new) }
    ensures spent { NoneFell buf.old.spent buf.new.spent }
{
    let mut sums = Sums::new();
    for i in 0..many {
        let trip = make_message(alloc, engine, number, i, buf)?;
        sums.count(trip.is_within(), buf.octets());
    }
    Ok(sums)
}

/// Makes request i and its message in the buffer, and reads the message back.
fn make_message(
    alloc: Global,
    engine: &Engine,
    number: u64,
    i: u32,
    buf: &mut SendBuf,
) -> Result<Trip, NoMemory>
    requires { 0 < length engine.now.binding.ops }
    ensures trip { IfOk result (λ t. IsTrip engine.now.binding
        (made_message engine.now.binding engine.now.minor number i) t buf.new.done) }
    ensures paid { OnOk result (call_by_code engine.now (turn engine.now.binding i) (made_head i)
        (made_value engine.now.binding number i) buf.old buf.new) }
    ensures spent { NoneFell buf.old.spent buf.new.spent }
{
    let op = turn(engine, i);
    let mint = engine.bound().mint();
    let value = make_value(
        alloc,
        number.wrapping_add(u64::from(i)),
        mint,
        engine.request(op),
    )?;
    match engine.marshal(op, &head_of(i), &value, buf) {
        Ok(()) => read_back(alloc, engine, buf.octets()),
        Err(why) => {
            long_alone(why)?;
            Ok(Trip::Long)
        }
    }
}

/// Reads a message back. Where its call names the operation that it was made for, the request is read: this is the
/// law `messages_are_read_back` of the engine.
fn read_back(alloc: Global, engine: &Engine, message: &[u8]) -> Result<Trip, NoMemory>
    ensures { IfOk result (λ t. IsRead engine.now.binding message.now t) }
{
    let mut view = RecvView::new(message);
    match engine.unmarshal(alloc, &mut view) {
        Ok(request) => Ok(Trip::Read(request)),
        Err(fault) => refused(fault),
    }
}

/// The operation whose turn it is.
fn turn(engine: &Engine, i: u32) -> u32
    requires { 0 < length engine.now.binding.ops }
    ensures value { result ≡ turn engine.now.binding i }
    ensures there { result < length engine.now.binding.ops }
{
    (i as usize % engine.bound().ops().len()) as u32
}

/// The head of request i.
fn head_of(i: u32) -> Head
    ensures { result ≡ made_head i }
{
    Head {
        id: i,
        remote: 0,
        local: 0,
        wants: true,
        order: Order::Big,
    }
}
