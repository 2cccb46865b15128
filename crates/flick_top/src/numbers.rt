//! The numbers of words.

ghost use Rattle.std.specs.Prelude.{◌≡◌, ◌≤◌, IfSome, Some};
ghost use Rattle.kit_base.specs.Decimal.{value_on};
ghost use Rattle.flick_top.specs.Numbers.{at_most, number_in};

use kit_base::decimal_value;

/// The digits of the longest number.
const MOST_DIGITS: usize = 20;

/// The number of a word of 1 to 20 decimal digits, where it is at most `most`.
pub fn number_in(most: u64, word: &[u8]) -> Option<u64>
    ensures value { result ≡ number_in most word.now }
    ensures within { IfSome result (λ n. n ≤ most) }
{
    if word.is_empty() || word.len() > MOST_DIGITS {
        return None;
    }
    value_at_most(most, word)
}

/// The number of digits, where it is at most `most`.
fn value_at_most(most: u64, digits: &[u8]) -> Option<u64>
    ensures value { result ≡ at_most most (value_on 0 digits.now) }
    ensures within { IfSome result (λ n. n ≤ most) }
{
    match decimal_value(digits) {
        Some(n) => unless_above(most, n),
        None => None,
    }
}

/// A number, where it is at most `most`.
fn unless_above(most: u64, n: u64) -> Option<u64>
    ensures value { result ≡ at_most most (Some n) }
    ensures within { IfSome result (λ n. n ≤ most) }
{
    if n <= most {
        return Some(n);
    }
    None
}
