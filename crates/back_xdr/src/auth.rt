//! Credentials and verifiers (RFC 5531 section 8.2), which are passed over.

ghost use Rattle.head_kit.specs.Readers.{Passes};
ghost use Rattle.back_xdr.specs.Auth.{read_auth, read_pad};

use head_kit::{Cursor, body, word, word_up_to};
use wire_def::{HeadErr, Order};

/// The most octets that the body of credentials or of a verifier has.
const LONGEST_BODY: u32 = 400;

/// So many pad octets, each of them 0.
#[tactic(auto, using(crate::proofs::Steps::pads))]
fn pad(n: usize, at: Cursor<'_>) -> Result<Cursor<'_>, HeadErr>
    ensures { Passes result (read_pad n at.entry.place at.entry.rest.now) }
{
    if n == 0 {
        return Ok(at);
    }
    let Some((first, rest)) = at.rest.split_first() else {
        return Err(HeadErr::Short);
    };
    if *first != 0 {
        return Err(HeadErr::Pad);
    }
    let place = at.place + 1;
    pad(n - 1, Cursor { place, rest })
}

/// A flavour, and a body with its pad octets.
#[tactic(auto, unfolding(crate::specs::Auth::read_auth))]
pub(crate) fn auth(at: Cursor<'_>) -> Result<Cursor<'_>, HeadErr>
    ensures { Passes result (read_auth at.entry.place at.entry.rest.now) }
{
    let (_, at) = word(Order::Big, at)?;
    let (n, at) = word_up_to(LONGEST_BODY, Order::Big, HeadErr::Cred, at)?;
    let n = n as usize;
    let (_, at) = body(n, at)?;
    pad((4 - n % 4) % 4, at)
}
