//! Octets from digits.

ghost use Rattle.std.specs.Prelude.{◌≡◌, ◌*◌, ◌<◌, ◌%◌, ◌⊎◌, true, length, Some, Ok, Err, IfOk, IfErr};
ghost use Rattle.std.specs.List.{list_all};
ghost use Rattle.hex.specs.Hex.{decode_of, decode_pairs, hex_digit_value, is_hex_digit};
ghost use Rattle.hex.specs.declared.error.FromHexError.TheVariants.{OddLength, OutOfMemory};

use hex::FromHexError;
use std::alloc::Global;

/// The octets that digits spell, two digits for each. Where the text is not such digits, the error
/// is the one of `hex`.
pub fn decode(alloc: Global, digits: &[u8]) -> Result<Vec<u8>, FromHexError>
    ensures ok { IfOk result (λ octets. decode_of digits.now ≡ Ok octets.items) }
    ensures err { IfErr result (λ e. (e ≡ OutOfMemory) ⊎ (decode_of digits.now ≡ Err e)) }
    ensures odd { length digits.now % 2 ≡ 1 → result ≡ Err OddLength }
{
    if digits.len() % 2 != 0 || !are_digits(digits) {
        return hex::decode(alloc, digits);
    }
    let mut octets = vec![in alloc; 0u8; digits.len() / 2]?;
    read_pairs(digits, octets.as_mut_slice());
    Ok(octets)
}

// Whether each octet is a digit. The loop has no early exit, so that a compiler can use vectors.
fn are_digits(octets: &[u8]) -> bool
    ensures { result ≡ list_all is_hex_digit octets.now }
{
    let mut all = true;
    for i in 0..octets.len() {
        all = all & is_digit(octets[i]);
    }
    all
}

#[inline(always)]
fn is_digit(c: u8) -> bool
    ensures { result ≡ is_hex_digit c }
{
    ((48 <= c) & (c <= 57)) | ((65 <= c) & (c <= 70)) | ((97 <= c) & (c <= 102))
}

// The value of a digit: its last four bits, and nine more for a letter.
#[inline(always)]
fn value(c: u8) -> u8
    requires { is_hex_digit c ≡ true }
    ensures value { hex_digit_value c ≡ Some result }
    ensures small { result < 16 }
{
    c % 16 + c / 64 * 9
}

// Fills octets from two digits each.
fn read_pairs(digits: &[u8], octets: &mut [u8])
    requires digits { list_all is_hex_digit digits.now ≡ true }
    requires pairs { length digits.now ≡ 2 * length octets.old }
    ensures { decode_pairs 0 digits.now ≡ Ok octets.new }
{
    for i in 0..octets.len() {
        octets[i] = value(digits[2 * i]) * 16 + value(digits[2 * i + 1]);
    }
}
