//! The octets of a message.

ghost use Rattle.std.specs.Prelude.{◌≡◌, ◌≢◌, ◌≤◌, ◌+◌, List, ℕ, length, take, drop, IfOk, true, false};
ghost use Rattle.wire_def.specs.declared.encoding.Back.{Back};
ghost use Rattle.wire_frames.specs.First.{first, IsMessage, record_from};

use crate::finding::{header_of, rest_from};
use kit_base::limits::LONGEST_MESSAGE;
use kit_base::{NoMemory, Octets};
use std::alloc::Global;
use wire_def::Back;

/// The first message, whose frame has so many octets.
pub(crate) fn first_message(
    alloc: Global,
    back: Back,
    kept: &[u8],
    used: usize,
) -> Result<Octets, NoMemory>
    requires { (message : List ℕ) × IsMessage (first back kept.now) message used }
    ensures { IfOk result (λ message. IsMessage (first back kept.now) message used) }
{
    if has_records(back) {
        joined(alloc, kept, used)
    } else {
        Octets::from_slice(alloc, prefix(kept, used))
    }
}

/// Whether messages are records of fragments.
fn has_records(back: Back) -> bool
    ensures records { result ≡ true → back ≡ Back.Xdr }
    ensures others { result ≡ false → back ≢ Back.Xdr }
{
    match back {
        Back::Xdr => true,
        Back::CdrBig | Back::CdrLittle | Back::Mach => false,
    }
}

/// The message of the first record, whose fragments take so many octets.
fn joined(alloc: Global, kept: &[u8], used: usize) -> Result<Octets, NoMemory>
    requires { (message : List ℕ) × IsMessage (record_from 0 kept.now) message used }
    ensures { IfOk result (λ message. IsMessage (record_from 0 kept.now) message used) }
{
    let mut message = Octets::with_room(alloc, used.min(LONGEST_MESSAGE))?;
    let mut rest = kept;
    loop {
        let Some(header) = header_of(rest) else {
            return Ok(message);
        };
        let octets = rest_from(rest, 4);
        message.append(prefix(octets, header.size))?;
        rest = rest_from(octets, header.size);
        if header.last {
            return Ok(message);
        }
    }
}

/// The first so many octets.
fn prefix(octets: &[u8], n: usize) -> &[u8]
    requires { n ≤ length octets.now }
    ensures { result.now ≡ take n octets.now }
{
    &octets[..n]
}
