//! The header that is sent before a message.

ghost use Rattle.std.specs.Prelude.{◌≡◌, ◌≤◌, ◌+◌, ◌^◌, None, Some};
ghost use Rattle.kit_base.specs.Limits.{longest_message};
ghost use Rattle.wire_frames.specs.Framed.{head_of};

use wire_def::Back;

/// Bit 31 of a fragment's header: the fragment is the last one of its record.
pub(crate) const LAST: u32 = 2_147_483_648;

/// The octets that are sent before a message of so many octets: the header of a record of one fragment over XDR, and none over
/// the others, whose messages say their own length.
pub fn frame_head(back: Back, length: u32) -> Option<[u8; 4]>
    requires { length ≤ longest_message }
    ensures { result ≡ head_of back length }
{
    match back {
        Back::Xdr => Some((length + LAST).to_be_bytes()),
        Back::CdrBig | Back::CdrLittle | Back::Mach => None,
    }
}
