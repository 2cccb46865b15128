//! The replies that refuse a request.

ghost use Rattle.std.specs.Prelude.{◌≡◌, ◌≤◌, ◌+◌, ◌++◌, [], Some, OnErr, OnOk, length, nat_lt};
ghost use Rattle.raw_buf.specs.Buf.{NoneFell};
ghost use Rattle.giop_head.specs.Header.{IsMinor};
ghost use Rattle.giop_head.specs.Printed.{IsOwn, addressing_octets, header_octets, long_octets, refusal_octets, short_octets, status_octets, then_first, then_last, then_long, then_short, then_string, with_size};

use kit_base::NoMemory;
use raw_buf::SendBuf;
use wire_def::{Head, Order, Refusal};

/// The status of a reply with a user exception.
const USER: u32 = 1;

/// The status of a reply with a system exception.
const SYSTEM: u32 = 2;

/// The status of a reply that asks for another kind of target (NEEDS_ADDRESSING_MODE).
const ADDRESSING: u32 = 5;

/// The minor number of the version whose requests have a kind of target.
const ADDRESSED: u8 = 2;

/// The octets of the longest repository id whose message has a size of 32 bits.
const LONGEST_ID: usize = 4_294_967_232;

/// Writes the reply of a version that refuses a request into an empty buffer. After running out of memory the
/// buffer is as it was.
pub fn put_refusal(
    refusal: &Refusal,
    head: &Head,
    minor: u8,
    buf: &mut SendBuf,
) -> Result<(), NoMemory>
    requires empty { buf.old.done ≡ [] }
    requires own { IsOwn refusal.now }
    requires minor { IsMinor minor }
    ensures ok { OnOk result
        (refusal_octets minor head.now.order head.now.id refusal.now ≡ Some buf.new.done) }
    ensures err { OnErr result (buf.new ≡ buf.old) }
    ensures spent { NoneFell buf.old.spent buf.new.spent }
{
    let order = head.order;
    match refusal {
        Refusal::SystemException(name, number, completion) => {
            make_room(name.as_slice(), buf)?;
            put_status(minor, order, head.id, SYSTEM, buf);
            put_string(order, name.as_slice(), buf);
            put_long(order, *number, buf);
            put_long(order, *completion, buf);
            put_size(order, buf);
            Ok(())
        }
        Refusal::UserException(name) => {
            make_room(name.as_slice(), buf)?;
            put_status(minor, order, head.id, USER, buf);
            put_string(order, name.as_slice(), buf);
            put_size(order, buf);
            Ok(())
        }
        _ => unreachable!(),
    }
}

/// Writes the reply to a request whose target is no key into an empty buffer: it asks for a key. After running
/// out of memory the buffer is as it was.
pub fn put_addressing(head: &Head, buf: &mut SendBuf) -> Result<(), NoMemory>
    requires empty { buf.old.done ≡ [] }
    ensures ok { OnOk result (buf.new.done ≡ addressing_octets head.now.order head.now.id) }
    ensures err { OnErr result (buf.new ≡ buf.old) }
    ensures spent { NoneFell buf.old.spent buf.new.spent }
{
    make_room(&[], buf)?;
    put_status(ADDRESSED, head.order, head.id, ADDRESSING, buf);
    put_short(head.order, 0, buf);
    put_size(head.order, buf);
    Ok(())
}

/// Room for a message with a repository id.
fn make_room(id: &[u8], buf: &mut SendBuf) -> Result<(), NoMemory>
    ensures ok { OnOk result (buf.new.done ≡ buf.old.done) }
    ensures room { OnOk result (length id.now + 64 ≤ length buf.new.front) }
    ensures few { OnOk result (length id.now ≤ 4294967232) }
    ensures err { OnErr result (buf.new ≡ buf.old) }
    ensures spent { NoneFell buf.old.spent buf.new.spent }
{
    if is_too_long(id) {
        return Err(NoMemory);
    }
    buf.ensure(id.len() + 64)
}

/// Whether the message of a repository id would have no size of 32 bits.
fn is_too_long(id: &[u8]) -> bool
    ensures { result ≡ nat_lt 4294967232 (length id.now) }
{
    id.len() > LONGEST_ID
}

/// Appends octets to what was put.
#[tactic(auto, using(crate::proofs::Putting::putting))]
pub fn put_octets(octets: &[u8], buf: &mut SendBuf)
    requires { length octets.now ≤ length buf.old.front }
    ensures done { buf.new.done ≡ buf.old.done ++ octets.now }
    ensures ahead { length buf.new.front + length octets.now ≡ length buf.old.front }
    ensures spent { NoneFell buf.old.spent buf.new.spent }
{
    buf.put_const(0, octets);
    buf.advance(octets.len());
}

/// The octets of an unsigned long.
pub fn long_octets(order: Order, n: u32) -> [u8; 4]
    ensures { result ≡ long_octets order n }
{
    match order {
        Order::Big => n.to_be_bytes(),
        Order::Little => n.to_le_bytes(),
    }
}

/// Appends an unsigned long to what was put.
pub fn put_long(order: Order, n: u32, buf: &mut SendBuf)
    requires { 7 ≤ length buf.old.front }
    ensures done { buf.new.done ≡ then_long order n buf.old.done }
    ensures ahead { length buf.old.front ≤ length buf.new.front + 7 }
    ensures more { length buf.old.done ≤ length buf.new.done }
    ensures most { length buf.new.done ≤ length buf.old.done + 7 }
    ensures spent { NoneFell buf.old.spent buf.new.spent }
{
    buf.align(4);
    put_octets(&long_octets(order, n), buf);
}

/// The octets of an unsigned short.
fn short_octets(order: Order, n: u16) -> [u8; 2]
    ensures { result ≡ short_octets order n }
{
    match order {
        Order::Big => n.to_be_bytes(),
        Order::Little => n.to_le_bytes(),
    }
}

/// Appends an unsigned short to what was put.
fn put_short(order: Order, n: u16, buf: &mut SendBuf)
    requires { 3 ≤ length buf.old.front }
    ensures done { buf.new.done ≡ then_short order n buf.old.done }
    ensures ahead { length buf.old.front ≤ length buf.new.front + 3 }
    ensures more { length buf.old.done ≤ length buf.new.done }
    ensures most { length buf.new.done ≤ length buf.old.done + 3 }
    ensures spent { NoneFell buf.old.spent buf.new.spent }
{
    buf.align(2);
    put_octets(&short_octets(order, n), buf);
}

/// Appends a string to what was put.
fn put_string(order: Order, octets: &[u8], buf: &mut SendBuf)
    requires room { length octets.now + 8 ≤ length buf.old.front }
    requires few { length octets.now ≤ 4294967232 }
    ensures done { buf.new.done ≡ then_string order octets.now buf.old.done }
    ensures ahead { length buf.old.front ≤ length buf.new.front + (length octets.now + 8) }
    ensures more { length buf.old.done ≤ length buf.new.done }
    ensures most { length buf.new.done ≤ length buf.old.done + (length octets.now + 8) }
    ensures spent { NoneFell buf.old.spent buf.new.spent }
{
    put_long(order, octets.len() as u32 + 1, buf);
    put_octets(octets, buf);
    put_octets(&[0], buf);
}

/// The octets of a header of a version and a type, whose size is not set yet.
pub fn header_octets(minor: u8, order: Order, message_type: u8) -> [u8; 12]
    ensures { result ≡ header_octets minor order message_type }
{
    let octet = match order {
        Order::Big => 0,
        Order::Little => 1,
    };
    [
        b'G',
        b'I',
        b'O',
        b'P',
        1,
        minor,
        octet,
        message_type,
        0,
        0,
        0,
        0,
    ]
}

/// Puts the header of a message of a version and a type, whose size is not set yet.
pub fn put_header(minor: u8, order: Order, message_type: u8, buf: &mut SendBuf)
    requires empty { buf.old.done ≡ [] }
    requires room { 12 ≤ length buf.old.front }
    ensures done { buf.new.done ≡ header_octets minor order message_type }
    ensures ahead { length buf.new.front + 12 ≡ length buf.old.front }
    ensures long { length buf.new.done ≡ 12 }
    ensures spent { NoneFell buf.old.spent buf.new.spent }
{
    put_octets(&header_octets(minor, order, message_type), buf);
}

/// Appends no service contexts where they come first, in version 1.0.
fn put_first(minor: u8, order: Order, buf: &mut SendBuf)
    requires { 7 ≤ length buf.old.front }
    ensures done { buf.new.done ≡ then_first minor order buf.old.done }
    ensures ahead { length buf.old.front ≤ length buf.new.front + 7 }
    ensures more { length buf.old.done ≤ length buf.new.done }
    ensures most { length buf.new.done ≤ length buf.old.done + 7 }
    ensures spent { NoneFell buf.old.spent buf.new.spent }
{
    if minor == 0 {
        put_long(order, 0, buf);
    }
}

/// Appends no service contexts where they come after the status, in version 1.2.
fn put_last(minor: u8, order: Order, buf: &mut SendBuf)
    requires { 7 ≤ length buf.old.front }
    ensures done { buf.new.done ≡ then_last minor order buf.old.done }
    ensures ahead { length buf.old.front ≤ length buf.new.front + 7 }
    ensures more { length buf.old.done ≤ length buf.new.done }
    ensures most { length buf.new.done ≤ length buf.old.done + 7 }
    ensures spent { NoneFell buf.old.spent buf.new.spent }
{
    if minor != 0 {
        put_long(order, 0, buf);
    }
}

/// Puts the head of a reply, up to what follows its status.
fn put_status(minor: u8, order: Order, id: u32, status: u32, buf: &mut SendBuf)
    requires empty { buf.old.done ≡ [] }
    requires room { 40 ≤ length buf.old.front }
    ensures done { buf.new.done ≡ status_octets minor order id status }
    ensures ahead { length buf.old.front ≤ length buf.new.front + 40 }
    ensures more { 12 ≤ length buf.new.done }
    ensures most { length buf.new.done ≤ 40 }
    ensures spent { NoneFell buf.old.spent buf.new.spent }
{
    put_header(minor, order, 1, buf);
    put_first(minor, order, buf);
    put_long(order, id, buf);
    put_long(order, status, buf);
    put_last(minor, order, buf);
}

/// Sets the size in the header of a message that is whole: the number of octets after the header.
#[tactic(auto, using(crate::proofs::Putting::sizing))]
pub fn put_size(order: Order, buf: &mut SendBuf)
    requires long { 12 ≤ length buf.old.done }
    requires few { length buf.old.done ≤ 4294967295 }
    ensures done { buf.new.done ≡ with_size order buf.old.done }
    ensures spent { NoneFell buf.old.spent buf.new.spent }
{
    let size = buf.octets().len() - 12;
    buf.patch4(8, order, size as u32);
}
