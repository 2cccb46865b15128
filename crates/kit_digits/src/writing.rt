//! Digits from octets.

ghost use Rattle.std.specs.Prelude.{◌≡◌, ◌*◌, ◌<◌, length, slice_index, string_bytes, IfOk};
ghost use Rattle.hex.specs.Hex.{encode_lower, lower_digits};

use kit_base::NoMemory;
use std::alloc::Global;

/// Octets in hexadecimal digits, the letters in lower case.
pub fn encode(alloc: Global, octets: &[u8]) -> Result<String, NoMemory>
    ensures { IfOk result (λ text. string_bytes text ≡ encode_lower octets.now) }
{
    let digits = digits_of(alloc, octets)?;
    Ok(unsafe { String::from_utf8_unchecked(digits) })
}

fn digits_of(alloc: Global, octets: &[u8]) -> Result<Vec<u8>, NoMemory>
    ensures { IfOk result (λ digits. digits.items ≡ encode_lower octets.now) }
{
    let Some(len) = octets.len().checked_mul(2) else {
        return Err(NoMemory);
    };
    let mut digits = vec![in alloc; 0u8; len]?;
    write_pairs(octets, digits.as_mut_slice());
    Ok(digits)
}

#[inline(always)]
fn digit(n: u8) -> u8
    requires { n < 16 }
    ensures { result ≡ slice_index lower_digits n }
{
    if n < 10 { n + 48 } else { n + 87 }
}

// Writes the two digits of each octet.
pub(crate) fn write_pairs(octets: &[u8], digits: &mut [u8])
    requires { length digits.old ≡ 2 * length octets.now }
    ensures { digits.new ≡ encode_lower octets.now }
{
    for i in 0..octets.len() {
        let octet = octets[i];
        digits[2 * i] = digit(octet / 16);
        digits[2 * i + 1] = digit(octet % 16);
    }
}
