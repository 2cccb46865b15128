//! Words that are put, and the numbers of the heads that are sent.

ghost use Rattle.std.specs.Prelude.{◌≡◌, ◌≤◌, ◌+◌, ◌*◌, ◌++◌, length};
ghost use Rattle.raw_buf.specs.Buf.{NoneFell};
ghost use Rattle.back_mach.specs.Words.{word, words};
ghost use Rattle.back_mach.specs.Leads as defs;

use raw_buf::SendBuf;
use wire_def::Order;

/// A right to send to the port is copied.
const COPY_SEND: u32 = 19;

/// A right to send once to the port is made.
const MAKE_SEND_ONCE: u32 = 21;

/// A right to send once to the port is moved.
pub(crate) const MOVE_SEND_ONCE: u32 = 18;

/// The bits of a request.
pub(crate) fn request_bits(wants: bool) -> u32
    ensures { result ≡ defs.request_bits wants }
{
    if wants {
        COPY_SEND + 256 * MAKE_SEND_ONCE
    } else {
        COPY_SEND
    }
}

/// The id of the reply to a request.
pub(crate) fn reply_id(id: u32) -> u32
    ensures { result ≡ defs.reply_id id }
{
    id.wrapping_add(100)
}

/// Puts a word after what was put.
fn put_word(n: u32, buf: &mut SendBuf)
    requires { 4 ≤ length buf.old.front }
    ensures done { buf.new.done ≡ buf.old.done ++ word n }
    ensures ahead { length buf.new.front + 4 ≡ length buf.old.front }
    ensures spent { NoneFell buf.old.spent buf.new.spent }
{
    buf.put(0, 4, Order::Little, u64::from(n));
    buf.advance(4);
}

/// Puts words after what was put.
pub(crate) fn put_words(numbers: &[u32], buf: &mut SendBuf)
    requires { 4 * length numbers.now ≤ length buf.old.front }
    ensures done { buf.new.done ≡ buf.old.done ++ words numbers.now }
    ensures ahead { length buf.new.front + 4 * length numbers.now ≡ length buf.old.front }
    ensures spent { NoneFell buf.old.spent buf.new.spent }
{
    for number in numbers {
        put_word(*number, buf);
    }
}
