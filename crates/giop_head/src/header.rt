//! The header of a message (OMG CORBA, chapter GIOP, section on the message header).

ghost use Rattle.std.specs.Prelude.{◌≡◌, length, IfOk};
ghost use Rattle.giop_head.specs.Header as heads;
ghost use Rattle.giop_head.specs.Header.{IsMinor, judged, read_header};
ghost use Rattle.head_kit.specs.Readers.{Gives, same};

use head_kit::{Cursor, body};
use wire_def::{HeadErr, Order};

/// The message types that heads of this crate have.
const REQUEST: u8 = 0;

/// The message type of replies.
const REPLY: u8 = 1;

/// The message type of searches for an object.
const LOCATE: u8 = 3;

/// Which messages are expected.
#[derive(Clone, Copy)]
pub enum HeadKind {
    /// Those that ask: a Request or a LocateRequest.
    Asks,
    /// A Request.
    Requests,
    /// A Reply.
    Replies,
}

/// What a header says besides the size.
#[derive(Clone, Copy)]
pub struct Heading {
    /// The order of all that follows.
    pub order: Order,
    /// The number of the message's type.
    pub message_type: u8,
    /// The minor number of the version: 0 or 2.
    pub minor: u8,
}

/// Whether a header begins with the letters GIOP.
fn has_magic(octets: &[u8]) -> bool
    requires { length octets.now ≡ 12 }
    ensures { result ≡ heads.has_magic octets.now }
{
    octets[0] == b'G' && octets[1] == b'I' && octets[2] == b'O' && octets[3] == b'P'
}

/// Whether this is the minor number of a version that is read, 1.0 or 1.2.
fn has_minor(minor: u8) -> bool
    ensures { result ≡ heads.has_minor minor }
{
    minor == 0 || minor == 2
}

/// Whether its version is one that is read.
fn has_version(octets: &[u8]) -> bool
    requires { length octets.now ≡ 12 }
    ensures { result ≡ heads.has_version octets.now }
{
    octets[4] == 1 && has_minor(octets[5])
}

/// Whether a message type is one that is read in this way.
fn is_expected(way: HeadKind, message_type: u8) -> bool
    ensures { result ≡ heads.expected way message_type }
{
    match way {
        HeadKind::Asks => message_type == REQUEST || message_type == LOCATE,
        HeadKind::Requests => message_type == REQUEST,
        HeadKind::Replies => message_type == REPLY,
    }
}

/// The order of an octet: 0 is big, any other little.
fn order_of(octet: u8) -> Order
    ensures { result ≡ heads.order_of octet }
{
    if octet == 0 {
        Order::Big
    } else {
        Order::Little
    }
}

/// How many octets follow the header.
fn size_in(octets: &[u8]) -> u32
    requires { length octets.now ≡ 12 }
    ensures { result ≡ heads.size_in octets.now }
{
    let size = [octets[8], octets[9], octets[10], octets[11]];
    match order_of(octets[6]) {
        Order::Big => u32::from_be_bytes(size),
        Order::Little => u32::from_le_bytes(size),
    }
}

/// What the header of a message of so many octets says, or the first field that is wrong.
#[tactic(auto, unfolding(crate::specs::Header::judged))]
fn judged(way: HeadKind, total: usize, octets: &[u8]) -> Result<Heading, HeadErr>
    requires { length octets.now ≡ 12 }
    ensures minor { IfOk result (λ h. IsMinor h.minor) }
    ensures value { result ≡ judged way total octets.now }
{
    if !has_magic(octets) {
        return Err(HeadErr::Magic);
    }
    if !has_version(octets) {
        return Err(HeadErr::Version);
    }
    if octets[6] > 1 {
        return Err(HeadErr::Order);
    }
    if !is_expected(way, octets[7]) {
        return Err(HeadErr::Type_);
    }
    if size_in(octets) as usize != total.saturating_sub(12) {
        return Err(HeadErr::Size);
    }
    Ok(Heading {
        order: order_of(octets[6]),
        message_type: octets[7],
        minor: octets[5],
    })
}

/// The header of a message of so many octets.
#[tactic(auto, unfolding(crate::specs::Header::read_header))]
pub(crate) fn header(
    way: HeadKind,
    total: usize,
    at: Cursor<'_>,
) -> Result<(Heading, Cursor<'_>), HeadErr>
    ensures minor { IfOk result (λ x. IsMinor x.0.minor) }
    ensures read { Gives same result (read_header way total at.entry.place at.entry.rest.now) }
{
    let (octets, next) = body(12, at)?;
    let header = judged(way, total, octets)?;
    Ok((header, next))
}
