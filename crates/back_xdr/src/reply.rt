//! The heads of replies.

ghost use Rattle.std.specs.Prelude.{◌≡◌, ◌↔◌};
ghost use Rattle.wire_def.specs.declared.fault.HeadErr.{HeadErr};
ghost use Rattle.wire_def.specs.declared.reply.ReplyHead.{ReplyHead};
ghost use Rattle.back_xdr.specs.Reply.{read_accepted, read_arm, read_denied, read_head_of_reply, read_two_words};
ghost use Rattle.back_xdr.specs.Heads.{StopsWith};
ghost use Rattle.back_xdr.specs.Heads as heads;
ghost use Rattle.back_xdr.specs.Reported.{BeginsReply, reply_reported};
ghost use Rattle.head_kit.specs.Readers.{Gives, same, reported};

use crate::auth::auth;
use crate::laws::heads_are_read;
use crate::shared::shared_head;
use head_arms::arm_status;
use head_kit::{Cursor, are_octets, this_word, word, word_up_to};
use wire_def::{HeadErr, Order, ReplyHead, Status};

/// The message type of a reply.
const REPLY: u32 = 1;

/// Reads the head of a reply from the first octets of a message (RFC 5531 section 9), where so many
/// exceptions are raised by the procedure that was called. The verifier is passed over, whatever its
/// flavour.
pub fn read_reply(message: &[u8], arms: u32) -> Result<ReplyHead<'_>, HeadErr>
    ensures spells { (reply : ReplyHead) → (result ≡ Ok reply) ↔ BeginsReply arms message.now reply }
    ensures stops { (fault : HeadErr) →
        (result ≡ Err fault) ↔ StopsWith (heads.reply arms) message.now fault }
{
    heads_are_read();
    are_octets(message);
    reply_at(arms, Cursor::start(message))
}

/// The head of a reply, item by item.
fn reply_at(arms: u32, at: Cursor<'_>) -> Result<ReplyHead<'_>, HeadErr>
    ensures { result ≡ reported reply_reported
        (read_head_of_reply arms at.entry.place at.entry.rest.now) }
{
    let (xid, at) = word(Order::Big, at)?;
    let at = this_word(REPLY, Order::Big, HeadErr::Type_, at)?;
    let (state, at) = word_up_to(1, Order::Big, HeadErr::Item, at)?;
    let (status, at) = if state == 0 {
        let at = auth(at)?;
        accepted(arms, at)?
    } else {
        denied(at)?
    };
    Ok(ReplyHead {
        head: shared_head(xid),
        status,
        used: at.place,
    })
}

/// The state of an accepted call.
#[tactic(auto, unfolding(crate::specs::Reply::read_accepted))]
fn accepted(arms: u32, at: Cursor<'_>) -> Result<(Status<'_>, Cursor<'_>), HeadErr>
    ensures { Gives same result (read_accepted arms at.entry.place at.entry.rest.now) }
{
    let (state, at) = word_up_to(5, Order::Big, HeadErr::Item, at)?;
    match state {
        0 => {
            let (arm, at) = arm(arms, at)?;
            Ok((arm_status(arm), at))
        }
        1 => Ok((Status::ProgUnavail, at)),
        2 => {
            let ((low, high), at) = two_words(at)?;
            Ok((Status::ProgMismatch(low, high), at))
        }
        3 => Ok((Status::ProcUnavail, at)),
        4 => Ok((Status::GarbageArgs, at)),
        _ => Ok((Status::SystemErr, at)),
    }
}

/// The number of an arm, where so many exceptions are raised: the answer's where there are none.
#[tactic(auto, using(head_arms::proofs::Armed::arms_read))]
fn arm(arms: u32, at: Cursor<'_>) -> Result<(u32, Cursor<'_>), HeadErr>
    ensures { Gives same result (read_arm arms at.entry.place at.entry.rest.now) }
{
    if arms == 0 {
        Ok((0, at))
    } else {
        word_up_to(arms, Order::Big, HeadErr::Item, at)
    }
}

/// Why a call was denied.
#[tactic(auto, unfolding(crate::specs::Reply::read_denied))]
fn denied(at: Cursor<'_>) -> Result<(Status<'_>, Cursor<'_>), HeadErr>
    ensures { Gives same result (read_denied at.entry.place at.entry.rest.now) }
{
    let (why, at) = word_up_to(1, Order::Big, HeadErr::Item, at)?;
    if why == 0 {
        let ((low, high), at) = two_words(at)?;
        Ok((Status::RpcMismatch(low, high), at))
    } else {
        let (status, at) = word(Order::Big, at)?;
        Ok((Status::AuthError(status), at))
    }
}

/// The least and the greatest of some versions.
fn two_words(at: Cursor<'_>) -> Result<((u32, u32), Cursor<'_>), HeadErr>
    ensures { Gives same result (read_two_words at.entry.place at.entry.rest.now) }
{
    let (low, at) = word(Order::Big, at)?;
    let (high, at) = word(Order::Big, at)?;
    Ok(((low, high), at))
}
