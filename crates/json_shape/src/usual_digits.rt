//! Integers of at most 64 bits, from the texts of numbers.

ghost use Rattle.std.specs.Prelude.{◌≡◌, ◌==◌, ◌<◌, true, false, Some, IfSome, IsTrue, drop, length, slice_index};
ghost use Rattle.fast_float.specs.Text.{scan};
ghost use Rattle.serde_json.specs.Find.{of_integer};
ghost use Rattle.serde_json.specs.Read.{number_from, number_of};

use kit_base::decimal_value;

/// The greatest number that has a negative of 64 bits.
const MOST_BELOW: u64 = 9_223_372_036_854_775_808;

/// The integer of at most 64 bits that a number's text is.
pub(crate) fn integer(digits: &str) -> Option<i128>
    ensures { IfSome result (λ n. number_of digits.now ≡ Some (of_integer n)) }
{
    let octets = digits.as_bytes();
    if has_minus(octets) {
        negative(after_minus(octets))
    } else {
        positive(octets)
    }
}

fn has_minus(octets: &[u8]) -> bool
    ensures value { result ≡ (slice_index octets.now 0 == 45) }
    ensures some { IsTrue result → 0 < length octets.now }
{
    !octets.is_empty() && octets[0] == b'-'
}

/// What follows the first octet.
fn after_minus(octets: &[u8]) -> &[u8]
    requires { 0 < length octets.now }
    ensures { result.now ≡ drop 1 octets.now }
{
    &octets[1..]
}

fn positive(octets: &[u8]) -> Option<i128>
    ensures { IfSome result (λ n. number_from false (scan octets.now) ≡ Some (of_integer n)) }
{
    match decimal_value(octets) {
        Some(n) if !octets.is_empty() => Some(i128::from(n)),
        _ => None,
    }
}

fn negative(octets: &[u8]) -> Option<i128>
    ensures { IfSome result (λ n. number_from true (scan octets.now) ≡ Some (of_integer n)) }
{
    match decimal_value(octets) {
        Some(n) if 0 < n && n <= MOST_BELOW => Some(-i128::from(n)),
        _ => None,
    }
}
