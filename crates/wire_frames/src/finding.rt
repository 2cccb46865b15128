//! Where the first frame of a stream ends.

ghost use Rattle.std.specs.Prelude.{◌≡◌, ◌≤◌, ◌+◌, ◌%◌, ◌^◌, ◌<◌, ◌-◌, ◌&&◌, ◌==◌, length, take, drop, IfSome, nat_le, slice_index};
ghost use Rattle.std.specs.Int.{w32, from_be_bytes};
ghost use Rattle.wire_frames.specs.Framed.{giop_length, has_magic, mach_length, ordered};
ghost use Rattle.wire_frames.specs.First.{end_of, first_giop, first_mach, is_last, record_from, size_in, sized};
ghost use Rattle.wire_frames.specs.Passed.{Passed};

use crate::frames::FrameErr;
use crate::head::LAST;
use kit_base::limits::LONGEST_MESSAGE;

/// How far the fragments of a record were looked at: so many octets are whole fragments that are not the last one, and
/// these have so many octets.
#[derive(Clone, Copy)]
pub(crate) struct Mark {
    /// The place behind these fragments.
    pub at: usize,
    /// The number of their octets without headers.
    pub sum: usize,
}

/// A header of a fragment.
#[derive(Clone, Copy)]
pub(crate) struct Header {
    /// How many octets follow it.
    pub size: usize,
    /// Whether the fragment is the last one of its record.
    pub last: bool,
}

/// The header of the first fragment, where it is there.
pub(crate) fn header_of(octets: &[u8]) -> Option<Header>
    ensures some { IfSome result (λ h. (4 ≤ length octets.now) × (h.size ≡ size_in octets.now)
        × (h.last ≡ is_last octets.now) × (h.size < 2 ^ 31)) }
    ensures none { result ≡ None → length octets.now < 4 }
{
    if octets.len() < 4 {
        return None;
    }
    let word = u32::from_be_bytes([octets[0], octets[1], octets[2], octets[3]]);
    Some(Header {
        size: (word % LAST) as usize,
        last: LAST <= word,
    })
}

/// The place where the first record ends, from the fragments on that were looked at; the mark is moved over those that are
/// whole and not the last one.
pub(crate) fn record_end(kept: &[u8], mark: &mut Mark) -> Result<Option<usize>, FrameErr>
    requires passed { Passed kept.now mark.old.at mark.old.sum }
    ensures passed { Passed kept.now mark.new.at mark.new.sum }
    ensures value { result ≡ end_of (record_from 0 kept.now) }
{
    loop {
        let rest = rest_from(kept, mark.at);
        let Some(header) = header_of(rest) else {
            return Ok(None);
        };
        if LONGEST_MESSAGE - mark.sum < header.size {
            return Err(FrameErr::TooLong);
        }
        if rest.len() - 4 < header.size {
            return Ok(None);
        }
        if header.last {
            return Ok(Some(mark.at + 4 + header.size));
        }
        mark.at += 4 + header.size;
        mark.sum += header.size;
    }
}

/// What follows the first so many octets.
pub(crate) fn rest_from(octets: &[u8], from: usize) -> &[u8]
    requires { from ≤ length octets.now }
    ensures { result.now ≡ drop from octets.now }
{
    &octets[from..]
}

/// The place where the first GIOP message ends.
#[tactic(auto, unfolding(crate::specs::First::first_giop))]
pub(crate) fn giop_end(kept: &[u8]) -> Result<Option<usize>, FrameErr>
    ensures { result ≡ end_of (first_giop kept.now) }
{
    if kept.len() < 12 {
        return Ok(None);
    }
    if !has_magic(kept) {
        return Err(FrameErr::Magic);
    }
    sized_end(12 + giop_size(kept), kept)
}

/// Whether 12 octets begin with the letters GIOP.
fn has_magic(kept: &[u8]) -> bool
    requires { 12 ≤ length kept.now }
    ensures { result ≡ has_magic kept.now }
{
    kept[0] == b'G' && kept[1] == b'I' && kept[2] == b'O' && kept[3] == b'P'
}

/// The size in 12 octets of a header.
fn giop_size(kept: &[u8]) -> usize
    requires { 12 ≤ length kept.now }
    ensures value { 12 + result ≡ giop_length kept.now }
    ensures below { result < 2 ^ 32 }
{
    let size = [kept[8], kept[9], kept[10], kept[11]];
    if kept[6] % 2 == 1 {
        u32::from_le_bytes(size) as usize
    } else {
        u32::from_be_bytes(size) as usize
    }
}

/// The place where the first Mach message ends.
#[tactic(auto, unfolding(crate::specs::First::first_mach))]
pub(crate) fn mach_end(kept: &[u8]) -> Result<Option<usize>, FrameErr>
    ensures { result ≡ end_of (first_mach kept.now) }
{
    if kept.len() < 8 {
        return Ok(None);
    }
    let size = u32::from_le_bytes([kept[4], kept[5], kept[6], kept[7]]) as usize;
    if size < 24 {
        return Err(FrameErr::Size);
    }
    sized_end(size, kept)
}

/// The place where a message of so many octets ends.
fn sized_end(size: usize, kept: &[u8]) -> Result<Option<usize>, FrameErr>
    ensures { result ≡ end_of (sized size kept.now) }
{
    if LONGEST_MESSAGE < size {
        return Err(FrameErr::TooLong);
    }
    if kept.len() < size {
        return Ok(None);
    }
    Ok(Some(size))
}
