//! Refusals, as the octets of their replies.

ghost use Rattle.std.specs.Prelude.{IfOk};
ghost use Rattle.giop_head.specs.Header.{IsMinor};
ghost use Rattle.giop_head.specs.Printed.{IsOwn};

use check_rows::{Bad, member, octets, word};
use giop_head::{put_addressing, put_refusal};
use hex::encode;
use raw_buf::SendBuf;
use serde_json::Value as Json;
use std::alloc::Global;
use wire_def::{Head, Order, Refusal};

/// An exception: a user exception where it has no minor number.
fn exception(alloc: Global, row: &Json) -> Result<Refusal, Bad>
    ensures { IfOk result IsOwn }
{
    let name = octets(alloc, member(row, "exception")?)?;
    match row.get("minor") {
        None => Ok(Refusal::UserException(name)),
        Some(minor) => {
            let completion = word(member(row, "completion")?)?;
            Ok(Refusal::SystemException(name, word(minor)?, completion))
        }
    }
}

/// The minor number of a reply's version: 0, or 2 where the row says a version.
fn minor_of(row: &Json) -> u8
    ensures { IsMinor result }
{
    match row.get("version") {
        None => 0,
        Some(_) => 2,
    }
}

/// The head of a reply, by its order and id.
fn head_of(row: &Json) -> Result<Head, Bad> {
    let order = match member(row, "order")?.as_str() {
        Some("little") => Order::Little,
        Some("big") => Order::Big,
        _ => return Err(Bad::Row("no order")),
    };
    Ok(Head {
        id: word(member(row, "id")?)?,
        remote: 0,
        local: 0,
        wants: true,
        order,
    })
}

/// The reply to a request whose target is no key.
pub fn addressed(alloc: Global, row: &Json) -> Result<String, Bad> {
    let head = head_of(row)?;
    let mut buf = SendBuf::new(alloc)?;
    put_addressing(&head, &mut buf)?;
    Ok(encode(alloc, buf.octets())?)
}

/// The reply that refuses a request.
pub fn refused(alloc: Global, row: &Json) -> Result<String, Bad> {
    let head = head_of(row)?;
    let refusal = exception(alloc, row)?;
    let mut buf = SendBuf::new(alloc)?;
    put_refusal(&refusal, &head, minor_of(row), &mut buf)?;
    Ok(encode(alloc, buf.octets())?)
}
