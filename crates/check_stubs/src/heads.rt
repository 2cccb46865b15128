//! Heads of replies over XDR.

ghost use Rattle.std.specs.Prelude.{IfOk};
ghost use Rattle.back_xdr.specs.Refusals.{IsOwn};

use crate::lead::HEAD;
use back_xdr::{put_refusal, read_reply};
use check_rows::{Bad, member, octets, part, word};
use hex::encode;
use raw_buf::SendBuf;
use serde_json::Value as Json;
use std::alloc::Global;
use wire_def::Refusal;

/// How many exceptions the procedure of a row raises: none where it does not say.
fn exceptions(row: &Json) -> Result<u32, Bad> {
    match row.get("raises") {
        Some(count) => word(count),
        None => Ok(0),
    }
}

/// What the head of the reply of a row says, its transaction and how many octets it has, or the
/// first fault.
pub fn reply(alloc: Global, row: &Json) -> Result<String, Bad> {
    let message = octets(alloc, member(row, "octets")?)?;
    reply_said(alloc, message.as_slice(), exceptions(row)?)
}

/// What the head of a reply says, where so many exceptions are raised.
fn reply_said(alloc: Global, message: &[u8], arms: u32) -> Result<String, Bad> {
    match read_reply(message, arms) {
        Ok(reply) => {
            Ok(format!(in alloc; "{:?} {} {}", reply.status, reply.head.id, reply.used)?)
        }
        Err(fault) => Ok(format!(in alloc; "{fault:?}")?),
    }
}

/// A refusal, as an array of its name and its numbers.
fn refusal_of(json: &Json) -> Result<Refusal, Bad>
    ensures { IfOk result IsOwn }
{
    match part(json, 0)?.as_str() {
        Some("ProgUnavail") => Ok(Refusal::ProgUnavail),
        Some("ProgMismatch") => {
            Ok(Refusal::ProgMismatch(word(part(json, 1)?)?, word(part(json, 2)?)?))
        }
        Some("ProcUnavail") => Ok(Refusal::ProcUnavail),
        Some("GarbageArgs") => Ok(Refusal::GarbageArgs),
        Some("SystemErr") => Ok(Refusal::SystemErr),
        Some("RpcMismatch") => {
            Ok(Refusal::RpcMismatch(word(part(json, 1)?)?, word(part(json, 2)?)?))
        }
        Some("AuthError") => Ok(Refusal::AuthError(word(part(json, 1)?)?)),
        _ => Err(Bad::Row("no refusal")),
    }
}

/// The reply of transaction 9 that refuses a call.
pub fn refused(alloc: Global, json: &Json) -> Result<String, Bad> {
    let refusal = refusal_of(json)?;
    let mut buf = SendBuf::new(alloc)?;
    put_refusal(&refusal, &HEAD, &mut buf)?;
    Ok(encode(alloc, buf.octets())?)
}
