//! The heads of replies.

ghost use Rattle.std.specs.Prelude.{◌≡◌, ◌↔◌};
ghost use Rattle.wire_def.specs.declared.fault.HeadErr.{HeadErr};
ghost use Rattle.wire_def.specs.declared.reply.ReplyHead.{ReplyHead};
ghost use Rattle.back_mach.specs.Reply.{read_after, read_code, read_head_of_reply, read_number, read_own};
ghost use Rattle.back_mach.specs.Heads.{StopsWith};
ghost use Rattle.back_mach.specs.Heads as heads;
ghost use Rattle.back_mach.specs.Reported.{BeginsReply, reply_reported};
ghost use Rattle.back_mach.specs.Reported as defs;
ghost use Rattle.head_kit.specs.Readers.{Gives, same, reported};

use crate::header::{MachHeader, header};
use crate::laws::heads_are_read;
use crate::shared::shared_head;
use head_arms::arm_status;
use head_kit::{Cursor, are_octets, this_word, word, word_up_to};
use wire_def::{HeadErr, Order, ReplyHead, Status};

/// The descriptor of a return code, and of the number of an arm: one number of 32 bits, by name 2,
/// which is in the message.
pub(crate) const RETURN: u32 = 0x1001_2002;

/// Reads the head of a reply that must have an id, from the first octets of a whole message, where
/// so many exceptions are raised by the operation that was asked for. The header's bits but bit 31,
/// and its sequence number, are not looked at.
pub fn read_reply(message: &[u8], id: u32, arms: u32) -> Result<ReplyHead<'_>, HeadErr>
    ensures spells { (reply : ReplyHead) →
        (result ≡ Ok reply) ↔ BeginsReply id arms message.now reply }
    ensures stops { (fault : HeadErr) →
        (result ≡ Err fault) ↔ StopsWith (heads.reply id arms) message.now fault }
{
    heads_are_read();
    are_octets(message);
    reply_at(id, arms, message.len(), Cursor::start(message))
}

/// The head of a reply that must have an id, in a message of so many octets.
fn reply_at(id: u32, arms: u32, total: usize, at: Cursor<'_>) -> Result<ReplyHead<'_>, HeadErr>
    ensures { result ≡ reported reply_reported
        (read_head_of_reply id arms total at.entry.place at.entry.rest.now) }
{
    let (header, at) = own(id, total, at)?;
    let (code, at) = code(at)?;
    let (arm, at) = after(arms, code, at)?;
    Ok(ReplyHead {
        head: shared_head(header.remote, header.local),
        status: status_of(code, arm),
        used: at.place,
    })
}

/// The header of a reply that must have an id.
#[tactic(auto, unfolding(crate::specs::Reply::read_own))]
fn own(id: u32, total: usize, at: Cursor<'_>) -> Result<(MachHeader, Cursor<'_>), HeadErr>
    ensures { Gives same result (read_own id total at.entry.place at.entry.rest.now) }
{
    let (header, next) = header(total, at)?;
    if header.id == id {
        Ok((header, next))
    } else {
        Err(HeadErr::Type_)
    }
}

/// The word of a return code.
#[tactic(auto, unfolding(crate::specs::Reply::read_code))]
fn code(at: Cursor<'_>) -> Result<(u32, Cursor<'_>), HeadErr>
    ensures { Gives same result (read_code at.entry.place at.entry.rest.now) }
{
    let at = this_word(RETURN, Order::Little, HeadErr::Item, at)?;
    word(Order::Little, at)
}

/// The number of an arm, of an operation that raises so many exceptions.
#[tactic(auto, unfolding(crate::specs::Reply::read_number))]
fn number(arms: u32, at: Cursor<'_>) -> Result<(u32, Cursor<'_>), HeadErr>
    ensures { Gives same result (read_number arms at.entry.place at.entry.rest.now) }
{
    let at = this_word(RETURN, Order::Little, HeadErr::Item, at)?;
    word_up_to(arms, Order::Little, HeadErr::Item, at)
}

/// What follows the word of a return code: behind 0 the number of an arm, where so many exceptions
/// are raised, and else nothing.
#[tactic(auto, using(crate::proofs::Steps::after))]
fn after(arms: u32, code: u32, at: Cursor<'_>) -> Result<(u32, Cursor<'_>), HeadErr>
    ensures { Gives same result (read_after arms code at.entry.place at.entry.rest.now) }
{
    if code != 0 || arms == 0 {
        Ok((0, at))
    } else {
        number(arms, at)
    }
}

/// How a request fared, by the word of a return code and an arm.
fn status_of(code: u32, arm: u32) -> Status<'static>
    ensures { result ≡ defs.status_of code arm }
{
    if code == 0 {
        arm_status(arm)
    } else {
        Status::RetCode(code.cast_signed())
    }
}
