//! The heads of calls.

ghost use Rattle.std.specs.Prelude.{◌≡◌, ◌↔◌};
ghost use Rattle.wire_def.specs.declared.fault.HeadErr.{HeadErr};
ghost use Rattle.back_xdr.specs.Call.{read_head_of_call};
ghost use Rattle.back_xdr.specs.Heads.{StopsWith};
ghost use Rattle.back_xdr.specs.Heads as heads;
ghost use Rattle.back_xdr.specs.Reported.{BeginsCall, call_reported};
ghost use Rattle.head_kit.specs.Readers.{reported};

use crate::auth::auth;
use crate::laws::heads_are_read;
use crate::shared::shared_head;
use head_kit::{Cursor, are_octets, this_word, word};
use wire_def::{Head, HeadErr, Order};

/// The message type of a call.
const CALL: u32 = 0;

/// The version of the protocol.
const PROTOCOL: u32 = 2;

/// The head of a call: which procedure is called, and how many octets the head takes. The
/// arguments follow it.
#[derive(Clone, Copy, Debug, PartialEq, Eq)]
pub struct OncCall {
    /// The transaction id, and what ONC messages do not have.
    pub head: Head,
    /// The number of the program.
    pub program: u32,
    /// The version of the program.
    pub version: u32,
    /// The number of the procedure.
    pub proc_no: u32,
    /// How many octets the head takes.
    pub used: usize,
}

/// Reads the head of a call from the first octets of a message (RFC 5531 section 9). Credentials
/// and verifier are passed over, whatever their flavours.
pub fn read_call(message: &[u8]) -> Result<OncCall, HeadErr>
    ensures spells { (call : OncCall) → (result ≡ Ok call) ↔ BeginsCall message.now call }
    ensures stops { (fault : HeadErr) → (result ≡ Err fault) ↔ StopsWith heads.call message.now fault }
{
    heads_are_read();
    are_octets(message);
    call_at(Cursor::start(message))
}

/// The head of a call, item by item.
fn call_at(at: Cursor<'_>) -> Result<OncCall, HeadErr>
    ensures { result ≡ reported call_reported (read_head_of_call at.entry.place at.entry.rest.now) }
{
    let (xid, at) = word(Order::Big, at)?;
    let at = this_word(CALL, Order::Big, HeadErr::Type_, at)?;
    let at = this_word(PROTOCOL, Order::Big, HeadErr::Version, at)?;
    let (program, at) = word(Order::Big, at)?;
    let (version, at) = word(Order::Big, at)?;
    let (proc_no, at) = word(Order::Big, at)?;
    let after_cred = auth(at)?;
    let after_verf = auth(after_cred)?;
    Ok(OncCall {
        head: shared_head(xid),
        program,
        version,
        proc_no,
        used: after_verf.place,
    })
}
