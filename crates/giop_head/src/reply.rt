//! The heads of replies (OMG CORBA, chapter GIOP, section on the Reply message).

ghost use Rattle.std.specs.Prelude.{◌≡◌, ◌↔◌, Some};
ghost use Rattle.wire_def.specs.Grammar.{map_got};
ghost use Rattle.wire_def.specs.declared.fault.HeadErr.{HeadErr};
ghost use Rattle.giop_head.specs.declared.header.HeadKind.TheVariants.{Replies};
ghost use Rattle.giop_head.specs.Reply.{read_detail, read_fate, read_head_of_reply, read_system};
ghost use Rattle.giop_head.specs.Heads.{StopsWith};
ghost use Rattle.giop_head.specs.Reported.{BeginsReply, ReportedReply, fate_seen, reply_seen, reply_reported};
ghost use Rattle.head_kit.specs.Readers.{Gives, Tells, seen_by, reported};

use crate::header::{HeadKind, header};
use crate::items::{long, long_up_to, string};
use crate::laws::heads_are_read;
use crate::shared::shared_head;
use crate::versions::{first, last};
use head_kit::{Cursor, are_octets};
use wire_def::{HeadErr, Order, ReplyHead, Status};

/// Reads the head of a Reply, of version 1.0 or 1.2, in either order. Service contexts are passed over, whatever they are.
pub fn read_reply(message: &[u8]) -> Result<ReplyHead<'_>, HeadErr>
    ensures spells { (reply : ReportedReply) → Tells reply_seen result reply ↔ BeginsReply message.now reply }
    ensures stops { (fault : HeadErr) → (result ≡ Err fault) ↔ StopsWith Replies message.now fault }
{
    heads_are_read();
    are_octets(message);
    reply_at(message.len(), Cursor::start(message))
}

/// The head of a reply, in a message of so many octets.
fn reply_at(total: usize, at: Cursor<'_>) -> Result<ReplyHead<'_>, HeadErr>
    ensures { seen_by reply_seen result
        ≡ reported reply_reported (read_head_of_reply total at.entry.place at.entry.rest.now) }
{
    let (header, at) = header(HeadKind::Replies, total, at)?;
    let order = header.order;
    let minor = header.minor;
    let at = first(minor, order, at)?;
    let (id, at) = long(order, at)?;
    let (status, at) = fate(minor, total, order, at)?;
    Ok(ReplyHead {
        head: shared_head(id, true, order),
        status,
        used: at.place,
    })
}

/// How a request fared, from the status on, in a message of so many octets.
#[tactic(auto, unfolding(crate::specs::Reply::read_fate))]
fn fate(
    minor: u8,
    total: usize,
    order: Order,
    at: Cursor<'_>,
) -> Result<(Status<'_>, Cursor<'_>), HeadErr>
    ensures { Gives fate_seen result
        (map_got Some (read_fate minor total order at.entry.place at.entry.rest.now)) }
{
    let (status, at) = long_up_to(2, order, at)?;
    let at = last(minor, total, order, at)?;
    detail(status, order, at)
}

/// What follows the number of a status.
fn detail(status: u32, order: Order, at: Cursor<'_>) -> Result<(Status<'_>, Cursor<'_>), HeadErr>
    ensures { Gives fate_seen result
        (map_got Some (read_detail order status at.entry.place at.entry.rest.now)) }
{
    match status {
        0 => Ok((Status::Answer, at)),
        1 => {
            let (id, at) = string(order, at)?;
            Ok((Status::User(id), at))
        }
        _ => system(order, at),
    }
}

/// A system exception.
#[tactic(auto, unfolding(crate::specs::Reply::read_system))]
fn system(order: Order, at: Cursor<'_>) -> Result<(Status<'_>, Cursor<'_>), HeadErr>
    ensures { Gives fate_seen result (map_got Some (read_system order at.entry.place at.entry.rest.now)) }
{
    let (id, at) = string(order, at)?;
    let (minor, at) = long(order, at)?;
    let (completion, at) = long_up_to(2, order, at)?;
    Ok((Status::System(id, minor, completion), at))
}
