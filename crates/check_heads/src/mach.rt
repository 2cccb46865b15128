//! What the heads of Mach messages say, and the replies that refuse a request.

use crate::faults::fault_of;
use back_mach::{put_refusal, read_call, read_reply};
use check_rows::{Bad, member, octets, signed, word};
use hex::encode;
use raw_buf::SendBuf;
use serde_json::Value as Json;
use std::alloc::Global;
use wire_def::{Head, Order, Refusal, ReplyHead, Status};

/// What the head of the request of a row says, or the first fault.
pub fn call(alloc: Global, row: &Json) -> Result<String, Bad> {
    let message = octets(alloc, member(row, "octets")?)?;
    match read_call(message.as_slice()) {
        Ok(call) => request_of(alloc, call.id, &call.head, call.used),
        Err(fault) => fault_of(alloc, fault),
    }
}

/// A request by its id, its ports and the length of its head.
fn request_of(alloc: Global, id: u32, head: &Head, used: usize) -> Result<String, Bad> {
    Ok(format!(in alloc; "request {id} {} {} {used}", head.remote, head.local)?)
}

/// What the head of the reply of a row says that must have an id, or the first fault.
pub fn reply(alloc: Global, row: &Json) -> Result<String, Bad> {
    let message = octets(alloc, member(row, "octets")?)?;
    let id = word(member(row, "id")?)?;
    reply_said(alloc, message.as_slice(), id, exceptions(row)?)
}

/// How many exceptions the operation of a row raises: none where it does not say.
fn exceptions(row: &Json) -> Result<u32, Bad> {
    match row.get("raises") {
        Some(count) => word(count),
        None => Ok(0),
    }
}

/// What the head of a reply says that must have an id, or the first fault, where so many exceptions
/// are raised.
fn reply_said(alloc: Global, message: &[u8], id: u32, arms: u32) -> Result<String, Bad> {
    match read_reply(message, id, arms) {
        Ok(reply) => fate(alloc, &reply),
        Err(fault) => fault_of(alloc, fault),
    }
}

/// How a request fared.
fn fate(alloc: Global, reply: &ReplyHead<'_>) -> Result<String, Bad> {
    match reply.status {
        Status::Answer => answer_of(alloc, &reply.head, reply.used),
        Status::Raised(number) => raised_of(alloc, number, &reply.head, reply.used),
        Status::RetCode(code) => code_of(alloc, code, &reply.head, reply.used),
        _ => Err(Bad::Row("no status of these replies")),
    }
}

/// An answer by its ports and the length of its head.
fn answer_of(alloc: Global, head: &Head, used: usize) -> Result<String, Bad> {
    Ok(format!(in alloc; "answer {} {} {used}", head.remote, head.local)?)
}

/// An exception by its number, its ports and the length of its head.
fn raised_of(alloc: Global, number: u32, head: &Head, used: usize) -> Result<String, Bad> {
    Ok(format!(in alloc; "raised {number} {} {} {used}", head.remote, head.local)?)
}

/// A return code, by itself, its ports and the length of its head.
fn code_of(alloc: Global, code: i32, head: &Head, used: usize) -> Result<String, Bad> {
    Ok(format!(in alloc; "code {code} {} {} {used}", head.remote, head.local)?)
}

/// The reply of a row that refuses the request with an id.
pub fn refused(alloc: Global, row: &Json) -> Result<String, Bad> {
    let remote = word(member(row, "remote")?)?;
    let id = word(member(row, "id")?)?;
    let code = signed(member(row, "code")?)?;
    refusal_of(alloc, remote, id, code)
}

/// The reply that refuses the request with an id, to a port.
fn refusal_of(alloc: Global, remote: u32, id: u32, code: i32) -> Result<String, Bad> {
    let head = Head {
        id: 0,
        remote,
        local: 0,
        wants: true,
        order: Order::Big,
    };
    let mut buf = SendBuf::new(alloc)?;
    put_refusal(&Refusal::RetCode(code), &head, id, &mut buf)?;
    Ok(encode(alloc, buf.octets())?)
}
