//! What the heads of GIOP messages say.

use crate::faults::fault_of;
use check_rows::{Bad, member, octets};
use giop_head::{GiopCall, read_call, read_reply};
use hex::encode;
use serde_json::Value as Json;
use std::alloc::Global;
use wire_def::{Head, Order, ReplyHead, Status};

/// Digits, or a dash in place of none.
fn digits(alloc: Global, octets: &[u8]) -> Result<String, Bad> {
    if octets.is_empty() {
        Ok(format!(in alloc; "-")?)
    } else {
        Ok(encode(alloc, octets)?)
    }
}

/// The name of an order.
fn name_of(order: Order) -> &'static str {
    match order {
        Order::Big => "Big",
        Order::Little => "Little",
    }
}

/// What the head of the message of a row that asks something says, or the first fault.
pub fn call(alloc: Global, row: &Json) -> Result<String, Bad> {
    let message = octets(alloc, member(row, "octets")?)?;
    call_said(alloc, message.as_slice())
}

/// What the head of a message that asks something says, or the first fault.
fn call_said(alloc: Global, message: &[u8]) -> Result<String, Bad> {
    match read_call(message) {
        Ok(
            GiopCall::Request {
                head,
                key,
                name,
                used,
                minor,
            },
        ) => request_of(alloc, version_of(minor), &head, key, name, used),
        Ok(GiopCall::Locate { id, key, minor }) => locate_of(alloc, version_of(minor), id, key),
        Ok(GiopCall::Addressing { head }) => addressing_of(alloc, &head),
        Err(fault) => fault_of(alloc, fault),
    }
}

/// The version of a message before what is said of it, where it is not 1.0.
fn version_of(minor: u8) -> &'static str {
    match minor {
        0 => "",
        _ => "1.2 ",
    }
}

/// A request whose target is no key, by its id, whether a reply is wanted, and its order.
fn addressing_of(alloc: Global, head: &Head) -> Result<String, Bad> {
    let wants = if head.wants { "wants" } else { "oneway" };
    let order = name_of(head.order);
    Ok(format!(in alloc; "addressing 1.2 {} {wants} {order}", head.id)?)
}

/// A request by its id, whether a reply is wanted, its order, key, name and the length of its head.
fn request_of(
    alloc: Global,
    version: &str,
    head: &Head,
    key: &[u8],
    name: &[u8],
    used: usize,
) -> Result<String, Bad> {
    let wants = if head.wants { "wants" } else { "oneway" };
    let order = name_of(head.order);
    let key = digits(alloc, key)?;
    let name = digits(alloc, name)?;
    Ok(format!(in alloc;
        "request {version}{} {wants} {order} {key} {name} {used}",
        head.id
    )?)
}

/// A search by its id and key.
fn locate_of(alloc: Global, version: &str, id: u32, key: &[u8]) -> Result<String, Bad> {
    let key = digits(alloc, key)?;
    Ok(format!(in alloc; "locate {version}{id} {key}")?)
}

/// What the head of the reply of a row says, or the first fault.
pub fn reply(alloc: Global, row: &Json) -> Result<String, Bad> {
    let message = octets(alloc, member(row, "octets")?)?;
    let version = version_of(minor_in(message.as_slice()));
    match read_reply(message.as_slice()) {
        Ok(reply) => fate(alloc, version, &reply),
        Err(fault) => fault_of(alloc, fault),
    }
}

/// The minor number in the header of a message.
fn minor_in(message: &[u8]) -> u8 {
    message.get(5).copied().unwrap_or(0)
}

/// How a request fared.
fn fate(alloc: Global, version: &str, reply: &ReplyHead<'_>) -> Result<String, Bad> {
    let used = reply.used;
    match reply.status {
        Status::Answer => answer_of(alloc, version, &reply.head, used),
        Status::User(name) => user_of(alloc, version, &reply.head, name, used),
        Status::System(name, minor, completion) => {
            system_of(alloc, version, &reply.head, name, minor, completion, used)
        }
        _ => Err(Bad::Row("no status of these replies")),
    }
}

/// An answer by its id, its order and the length of its head.
fn answer_of(alloc: Global, version: &str, head: &Head, used: usize) -> Result<String, Bad> {
    let order = name_of(head.order);
    Ok(format!(in alloc; "answer {version}{} {order} {used}", head.id)?)
}

/// A user exception by its id, its order, its name and the length of its head.
fn user_of(
    alloc: Global,
    version: &str,
    head: &Head,
    name: &[u8],
    used: usize,
) -> Result<String, Bad> {
    let order = name_of(head.order);
    let name = digits(alloc, name)?;
    Ok(format!(in alloc; "user {version}{} {order} {name} {used}", head.id)?)
}

/// A system exception by its id, its order, its name, its two numbers and the length of its head.
fn system_of(
    alloc: Global,
    version: &str,
    head: &Head,
    name: &[u8],
    minor: u32,
    completion: u32,
    used: usize,
) -> Result<String, Bad> {
    let order = name_of(head.order);
    let name = digits(alloc, name)?;
    Ok(format!(in alloc;
        "system {version}{} {order} {name} {minor} {completion} {used}",
        head.id
    )?)
}
