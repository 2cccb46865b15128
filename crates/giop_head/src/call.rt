//! The heads of messages that ask (OMG CORBA, chapter GIOP, sections on Request and LocateRequest).

ghost use Rattle.std.specs.Prelude.{◌≡◌, ◌↔◌, IfOk};
ghost use Rattle.wire_def.specs.declared.fault.HeadErr.{HeadErr};
ghost use Rattle.giop_head.specs.declared.header.HeadKind.TheVariants.{Asks, Requests};
ghost use Rattle.giop_head.specs.Call.{read_head_of_call, read_any, read_head_of_request, read_key, read_named, read_request, read_search, read_start};
ghost use Rattle.giop_head.specs.Header.{IsMinor};
ghost use Rattle.giop_head.specs.Items.{read_end};
ghost use Rattle.giop_head.specs.Heads.{StopsWith};
ghost use Rattle.giop_head.specs.Reported.{BeginsCall, BeginsRequest, HasMinor, ReportedCall, ReportedRequest, call_seen, call_reported, named_seen, request_seen, request_reported, search_seen};
ghost use Rattle.head_kit.specs.Readers.{Gives, Passing, Tells, reported, same, seen_by};

use crate::header::{HeadKind, header};
use crate::items::{long, sequence, string};
use crate::laws::heads_are_read;
use crate::shared::shared_head;
use crate::versions::{close, first, target, wants};
use head_kit::{Cursor, are_octets};
use wire_def::{Head, HeadErr, Order};

/// What a message asks.
#[derive(Clone, Copy, Debug)]
pub enum GiopCall<'a> {
    /// A request: the object's key, the name of the operation, and how many octets the head takes.
    /// The arguments follow it.
    Request {
        /// The fields that back ends share.
        head: Head,
        /// The object's key.
        key: &'a [u8],
        /// The name of the operation, without the octet 0 at its end.
        name: &'a [u8],
        /// How many octets the head takes.
        used: usize,
        /// The minor number of its version: 0 or 2.
        minor: u8,
    },
    /// A search for an object, by its key.
    Locate {
        /// The request id.
        id: u32,
        /// The object's key.
        key: &'a [u8],
        /// The minor number of its version: 0 or 2.
        minor: u8,
    },
    /// A request of version 1.2 whose target is given by a profile or a reference in place of a key. What
    /// follows the kind of its target is not looked at.
    Addressing {
        /// The fields that back ends share.
        head: Head,
    },
}

/// Reads the head of a Request, or a LocateRequest, of version 1.0 or 1.2, in either order. Service contexts and
/// principal are passed over, whatever they are.
pub fn read_call(message: &[u8]) -> Result<GiopCall<'_>, HeadErr>
    ensures minor { IfOk result HasMinor }
    ensures spells { (call : ReportedCall) → Tells call_seen result call ↔ BeginsCall message.now call }
    ensures stops { (fault : HeadErr) → (result ≡ Err fault) ↔ StopsWith Asks message.now fault }
{
    heads_are_read();
    are_octets(message);
    call_at(message.len(), Cursor::start(message))
}

/// The head of a request: the object's key, the name of the operation, and how many octets the head
/// takes. The arguments follow it.
#[derive(Clone, Copy, Debug)]
pub struct GiopRequest<'a> {
    /// The fields that back ends share.
    pub head: Head,
    /// The object's key.
    pub key: &'a [u8],
    /// The name of the operation, without the octet 0 at its end.
    pub name: &'a [u8],
    /// How many octets the head takes.
    pub used: usize,
    /// The minor number of its version: 0 or 2.
    pub minor: u8,
}

/// Reads the head of a Request alone, of version 1.0 or 1.2, in either order. Any other message has the fault of
/// its type, and a target of another kind than a key is a fault.
pub fn read_request(message: &[u8]) -> Result<GiopRequest<'_>, HeadErr>
    ensures minor { IfOk result (λ r. IsMinor r.minor) }
    ensures spells { (request : ReportedRequest)
        → Tells request_seen result request ↔ BeginsRequest message.now request }
    ensures stops { (fault : HeadErr) → (result ≡ Err fault) ↔ StopsWith Requests message.now fault }
{
    heads_are_read();
    are_octets(message);
    request_at(message.len(), Cursor::start(message))
}

/// The head of a request, in a message of so many octets.
#[tactic(auto, unfolding(crate::specs::Call::read_request))]
fn request_at(total: usize, at: Cursor<'_>) -> Result<GiopRequest<'_>, HeadErr>
    ensures minor { IfOk result (λ r. IsMinor r.minor) }
    ensures read { seen_by request_seen result
        ≡ reported request_reported (read_head_of_request total at.entry.place at.entry.rest.now) }
{
    let (header, at) = header(HeadKind::Requests, total, at)?;
    let order = header.order;
    let minor = header.minor;
    let ((id, wants), at) = start(minor, order, at)?;
    let (_, at) = key_target(minor, order, at)?;
    let ((key, name), at) = named(minor, total, order, at)?;
    Ok(GiopRequest {
        head: shared_head(id, wants, order),
        key,
        name,
        used: at.place,
        minor,
    })
}

/// The head of a message that asks, of so many octets.
fn call_at(total: usize, at: Cursor<'_>) -> Result<GiopCall<'_>, HeadErr>
    ensures minor { IfOk result HasMinor }
    ensures read { seen_by call_seen result
        ≡ reported call_reported (read_head_of_call total at.entry.place at.entry.rest.now) }
{
    let (header, at) = header(HeadKind::Asks, total, at)?;
    let order = header.order;
    let minor = header.minor;
    if header.message_type == 0 {
        asked(minor, total, order, at)
    } else {
        let ((id, key), _) = search(minor, total, order, at)?;
        Ok(GiopCall::Locate { id, key, minor })
    }
}

/// A request whatever the kind of its target, from after the header.
#[tactic(auto, unfolding(crate::specs::Call::read_any))]
fn asked(minor: u8, total: usize, order: Order, at: Cursor<'_>) -> Result<GiopCall<'_>, HeadErr>
    requires { IsMinor minor }
    ensures minor { IfOk result HasMinor }
    ensures read { seen_by call_seen result
        ≡ reported call_reported (read_any minor total order at.entry.place at.entry.rest.now) }
{
    let ((id, wants), at) = start(minor, order, at)?;
    let (kind, at) = target(minor, order, at)?;
    let head = shared_head(id, wants, order);
    if kind == 0 {
        let ((key, name), at) = named(minor, total, order, at)?;
        Ok(GiopCall::Request {
            head,
            key,
            name,
            used: at.place,
            minor,
        })
    } else {
        Ok(GiopCall::Addressing { head })
    }
}

/// What comes before a target: the id, and whether a reply is wanted.
#[tactic(auto, unfolding(crate::specs::Call::read_start))]
fn start(minor: u8, order: Order, at: Cursor<'_>) -> Result<((u32, bool), Cursor<'_>), HeadErr>
    ensures { Gives same result (read_start minor order at.entry.place at.entry.rest.now) }
{
    let at = first(minor, order, at)?;
    let (id, at) = long(order, at)?;
    let (wants, at) = wants(minor, at)?;
    Ok(((id, wants), at))
}

/// The kind of a target that is a key.
#[tactic(auto, unfolding(crate::specs::Call::read_key))]
fn key_target(minor: u8, order: Order, at: Cursor<'_>) -> Result<(u16, Cursor<'_>), HeadErr>
    ensures { Gives same result (read_key minor order at.entry.place at.entry.rest.now) }
{
    let (kind, at) = target(minor, order, at)?;
    if kind == 0 {
        Ok((kind, at))
    } else {
        Err(HeadErr::Target)
    }
}

/// What comes after the kind of a target that is a key: the key, and the name of the operation.
#[tactic(auto, unfolding(crate::specs::Call::read_named))]
fn named(
    minor: u8,
    total: usize,
    order: Order,
    at: Cursor<'_>,
) -> Result<((&[u8], &[u8]), Cursor<'_>), HeadErr>
    ensures { Gives named_seen result (read_named minor total order at.entry.place at.entry.rest.now) }
{
    let (key, at) = sequence(order, at)?;
    let (name, at) = string(order, at)?;
    let at = close(minor, total, order, at)?;
    Ok(((key, name), at))
}

/// The fields of a LocateRequest, with which the message ends.
#[tactic(auto, unfolding(crate::specs::Call::read_search))]
fn search(
    minor: u8,
    total: usize,
    order: Order,
    at: Cursor<'_>,
) -> Result<((u32, &[u8]), Cursor<'_>), HeadErr>
    ensures { Gives search_seen result (read_search minor total order at.entry.place at.entry.rest.now) }
{
    let (id, at) = long(order, at)?;
    let (_, at) = key_target(minor, order, at)?;
    let (key, at) = sequence(order, at)?;
    let at = end(total, at)?;
    Ok(((id, key), at))
}

/// The end of a message of so many octets.
fn end(total: usize, at: Cursor<'_>) -> Result<Cursor<'_>, HeadErr>
    ensures { Passing result (read_end total at.entry.place at.entry.rest.now) }
{
    if at.place == total {
        Ok(at)
    } else {
        Err(HeadErr::Size)
    }
}
