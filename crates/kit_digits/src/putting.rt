//! Digits after other octets.

ghost use Rattle.std.specs.Prelude.{◌≡◌, ◌++◌, OnOk};
ghost use Rattle.hex.specs.Hex.{encode_lower};

use crate::writing::write_pairs;
use kit_base::{NoMemory, Octets};

/// How many octets are written at once.
const PIECE: usize = 256;

/// Appends octets in hexadecimal digits, the letters in lower case. After a refusal some of the
/// digits may be there.
pub fn put(octets: &[u8], out: &mut Octets) -> Result<(), NoMemory>
    ensures { OnOk result (out.new ≡ out.old ++ encode_lower octets.now) }
{
    let mut digits = [0u8; 512];
    let mut rest = octets;
    while rest.len() > PIECE {
        let (piece, more) = rest.split_at(PIECE);
        write_pairs(piece, &mut digits);
        out.append(&digits)?;
        rest = more;
    }
    let last = &mut digits[..2 * rest.len()];
    write_pairs(rest, last);
    out.append(last)
}
