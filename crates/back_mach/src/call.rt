//! The heads of requests.

ghost use Rattle.std.specs.Prelude.{◌≡◌, ◌↔◌};
ghost use Rattle.wire_def.specs.declared.fault.HeadErr.{HeadErr};
ghost use Rattle.back_mach.specs.Header.{read_header};
ghost use Rattle.back_mach.specs.Heads.{StopsWith};
ghost use Rattle.back_mach.specs.Heads as heads;
ghost use Rattle.back_mach.specs.Reported.{BeginsCall, call_reported};
ghost use Rattle.head_kit.specs.Readers.{reported};

use crate::header::header;
use crate::laws::heads_are_read;
use crate::shared::shared_head;
use head_kit::{Cursor, are_octets};
use wire_def::{Head, HeadErr};

/// The head of a request: its ports, its id, and how many octets the head takes. The arguments
/// follow it.
#[derive(Clone, Copy, Debug, PartialEq, Eq)]
pub struct MachCall {
    /// The fields that back ends share.
    pub head: Head,
    /// The id, which says what is called.
    pub id: u32,
    /// How many octets the head takes.
    pub used: usize,
}

/// Reads the head of a request from the first octets of a whole message. Its bits but bit 31, and
/// its sequence number, are not looked at.
pub fn read_call(message: &[u8]) -> Result<MachCall, HeadErr>
    ensures spells { (call : MachCall) → (result ≡ Ok call) ↔ BeginsCall message.now call }
    ensures stops { (fault : HeadErr) → (result ≡ Err fault) ↔ StopsWith heads.call message.now fault }
{
    heads_are_read();
    are_octets(message);
    call_at(message.len(), Cursor::start(message))
}

/// The head of a request, in a message of so many octets.
fn call_at(total: usize, at: Cursor<'_>) -> Result<MachCall, HeadErr>
    ensures { result ≡ reported call_reported (read_header total at.entry.place at.entry.rest.now) }
{
    let (header, at) = header(total, at)?;
    Ok(MachCall {
        head: shared_head(header.remote, header.local),
        id: header.id,
        used: at.place,
    })
}
