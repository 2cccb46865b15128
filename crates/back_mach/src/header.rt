//! The header of a message, which requests and replies have in common.

ghost use Rattle.head_kit.specs.Readers.{Gives, same};
ghost use Rattle.back_mach.specs.Header.{read_header, read_simple, read_six};

use head_kit::{Cursor, word};
use wire_def::{HeadErr, Order};

/// The least number that has bit 31.
const COMPLEX: u32 = 0x8000_0000;

/// The six words of a header.
#[derive(Clone, Copy, Debug, PartialEq, Eq)]
pub struct MachHeader {
    /// What becomes of the rights to the ports, and whether rights or memory come with the message.
    pub bits: u32,
    /// How many octets the message has.
    pub size: u32,
    /// The port that the message is sent to.
    pub remote: u32,
    /// The port that a reply is sent to.
    pub local: u32,
    /// The sequence number.
    pub sequence: u32,
    /// The id of the request or reply.
    pub id: u32,
}

/// Six words.
#[tactic(auto, unfolding(crate::specs::Header::read_six))]
fn six(at: Cursor<'_>) -> Result<(MachHeader, Cursor<'_>), HeadErr>
    ensures { Gives same result (read_six at.entry.place at.entry.rest.now) }
{
    let (bits, at) = word(Order::Little, at)?;
    let (size, at) = word(Order::Little, at)?;
    let (remote, at) = word(Order::Little, at)?;
    let (local, at) = word(Order::Little, at)?;
    let (sequence, at) = word(Order::Little, at)?;
    let (id, at) = word(Order::Little, at)?;
    let header = MachHeader {
        bits,
        size,
        remote,
        local,
        sequence,
        id,
    };
    Ok((header, at))
}

/// Six words without bit 31 of the bits.
#[tactic(auto, unfolding(crate::specs::Header::read_simple))]
fn simple(at: Cursor<'_>) -> Result<(MachHeader, Cursor<'_>), HeadErr>
    ensures { Gives same result (read_simple at.entry.place at.entry.rest.now) }
{
    let (header, next) = six(at)?;
    if header.bits < COMPLEX {
        Ok((header, next))
    } else {
        Err(HeadErr::Complex)
    }
}

/// The header of a message of so many octets.
#[tactic(auto, unfolding(crate::specs::Header::read_header))]
pub(crate) fn header(total: usize, at: Cursor<'_>) -> Result<(MachHeader, Cursor<'_>), HeadErr>
    ensures { Gives same result (read_header total at.entry.place at.entry.rest.now) }
{
    let (header, next) = simple(at)?;
    if header.size as usize == total {
        Ok((header, next))
    } else {
        Err(HeadErr::Size)
    }
}
