//! Decimal numbers in words.

ghost use Rattle.std.specs.Prelude.{◌≡◌, ◌≢◌, ◌<◌, ◌^◌, ℕ, IfSome, Some, None};
ghost use Rattle.kit_base.specs.Decimal.{is_listed, is_number, number_in, value_on};

use crate::Words;

/// Whether one of the words is this number in decimal digits, without a leading zero.
pub(crate) fn is_listed(n: u64, words: &Words) -> bool
    ensures { result ≡ is_listed n words.now }
{
    for word in words.as_slice() {
        if is_number(n, word.as_slice()) {
            return true;
        }
    }
    false
}

fn is_number(n: u64, word: &[u8]) -> bool
    ensures { result ≡ is_number n (number_in word.now) }
{
    match read_number(word) {
        Some(m) => m == n,
        None => false,
    }
}

/// The number that a word writes in decimal: from 1, below 2^64, without a leading zero.
fn read_number(word: &[u8]) -> Option<u64>
    ensures some { IfSome result (λ n. number_in word.now ≡ Some n) }
    ensures none { result ≡ None → (n : ℕ) → n < 2 ^ 64 → number_in word.now ≢ Some n }
{
    if word.first() == Some(&48) || word.is_empty() {
        return None;
    }
    decimal_value(word)
}

/// The number of 64 bits that decimal digits write, where each octet is a digit and the number fits.
pub fn decimal_value(digits: &[u8]) -> Option<u64>
    ensures some { IfSome result (λ n. value_on 0 digits.now ≡ Some n) }
    ensures none { result ≡ None → (n : ℕ) → n < 2 ^ 64 → value_on 0 digits.now ≢ Some n }
{
    let mut n = 0u64;
    for d in digits {
        if *d < 48 || 57 < *d {
            return None;
        }
        let Some(tens) = n.checked_mul(10) else {
            return None;
        };
        let Some(next) = tens.checked_add(u64::from(*d - 48)) else {
            return None;
        };
        n = next;
    }
    Some(n)
}
