//! Digit strings, and the numbers that they stand for.

ghost use Rattle.std.specs.Prelude.{◌≡◌, ◌<◌, ◌≤◌, ◌^◌, length, nat_lt, pos, MatchOption, ◌+◌, ◌*◌};
ghost use Rattle.std.specs.List.{list_all};
ghost use Rattle.std.specs.Option.{SomeIff};
ghost use Rattle.idl_lex.specs.Numbers.{digit_count, base_of, digits_of, digit_value, is_number, value_of};

use crate::classes;

/// How many octets the digit string has that comes first.
pub(crate) fn digit_count(text: &[u8]) -> usize
    ensures count { result ≡ digit_count text.now }
    ensures within { result ≤ length text.now }
{
    if text.starts_with(b"0x") {
        return 2 + classes::hex_digits(&text[2..]);
    }
    classes::digits(text)
}

fn base(string: &[u8]) -> u8
    ensures base { result ≡ base_of string.now }
    ensures least { 8 ≤ result }
    ensures most { result ≤ 16 }
{
    if string.starts_with(b"0x") {
        16
    } else if string.first() == Some(&b'0') {
        8
    } else {
        10
    }
}

fn digits(string: &[u8]) -> &[u8]
    ensures { result.now ≡ digits_of string.now }
{
    if string.starts_with(b"0x") {
        return &string[2..];
    }
    string
}

/// What a digit stands for.
fn digit_value(octet: u8) -> u8
    ensures { result ≡ digit_value octet }
{
    if classes::is_digit(octet) {
        octet - b'0'
    } else if octet < b'a' {
        octet.saturating_sub(b'A' - 10)
    } else {
        octet - (b'a' - 10)
    }
}

/// Whether all digits are those of a base.
fn are_below(digits: &[u8], base: u8) -> bool
    ensures { result ≡ list_all (λ o. nat_lt (digit_value o) base) digits.now }
{
    digits.iter().all(|o| digit_value(*o) < base)
}

/// Whether a digit string is a number, however large.
pub(crate) fn is_number(string: &[u8]) -> bool
    ensures { result ≡ is_number string.now }
{
    !digits(string).is_empty() && are_below(digits(string), base(string))
}

/// A number with one more digit after it, where 128 bits hold it.
fn with_digit(n: u128, base: u8, digit: u8) -> Option<u128>
    ensures { SomeIff result (n * base + digit < 2 ^ 128) (n * base + digit) }
{
    n.checked_mul(u128::from(base))?
        .checked_add(u128::from(digit))
}

/// The number that a digit string stands for, where 127 bits hold it.
pub(crate) fn value(string: &[u8]) -> Option<i128>
    ensures { MatchOption result (2 ^ 127 ≤ value_of string.now) (λ n. n ≡ pos (value_of string.now)) }
{
    let base = base(string);
    let mut n: u128 = 0;
    for o in digits(string) {
        let Some(next) = with_digit(n, base, digit_value(*o)) else {
            return None;
        };
        n = next;
    }
    i128::try_from(n).ok()
}
