//! The answers over GIOP to messages that are not requests, in an empty buffer, and the ids of Mach replies.

ghost use Rattle.std.specs.Prelude.{◌≡◌, [], OnOk};
ghost use Rattle.raw_buf.specs.Buf.{NoneFell};
ghost use Rattle.back_mach.specs.Leads as mach;
ghost use Rattle.flick_engine.specs.Refusals.{locate_octets};
ghost use Rattle.giop_head.specs.Printed.{header_octets};

use giop_head::{put_header, put_long, put_size};
use kit_base::NoMemory;
use raw_buf::SendBuf;
use wire_def::Order;

/// Puts the reply to a search for an object, in its version: whether it is here.
pub(crate) fn put_locate_reply(
    minor: u8,
    order: Order,
    id: u32,
    here: bool,
    buf: &mut SendBuf,
) -> Result<(), NoMemory>
    requires { buf.old.done ≡ [] }
    ensures ok { OnOk result (buf.new.done ≡ locate_octets minor order id here) }
    ensures spent { NoneFell buf.old.spent buf.new.spent }
{
    buf.ensure(32)?;
    put_header(minor, order, 4, buf);
    put_long(order, id, buf);
    put_long(order, u32::from(here), buf);
    put_size(order, buf);
    Ok(())
}

/// Puts the message of a version that answers one that is wrong: a header alone.
pub(crate) fn put_message_error(minor: u8, order: Order, buf: &mut SendBuf) -> Result<(), NoMemory>
    requires { buf.old.done ≡ [] }
    ensures ok { OnOk result (buf.new.done ≡ header_octets minor order 6) }
    ensures spent { NoneFell buf.old.spent buf.new.spent }
{
    buf.ensure(12)?;
    put_header(minor, order, 6, buf);
    Ok(())
}

/// The id of the Mach reply to a request with an id.
pub(crate) fn reply_id(id: u32) -> u32
    ensures { result ≡ mach.reply_id id }
{
    id.wrapping_add(100)
}
