//! The words of a line, each a function that gives what it has read and the text after it.

ghost use Rattle.std.specs.Prelude.{◌≡◌, ◌≤◌, ◌<◌, ◌*◌, ◌+◌, ◌-◌, ◌==◌, length, option_map, IfOk, IfSome, IsTrue, true};
ghost use Rattle.std.specs.List.{position};
ghost use Rattle.stub_read.specs.Reading.{Gives, begins, word_at, before};
ghost use Rattle.stub_read.specs.Words.{is_digit, begins_digit, at_most, digits_on, most_word, most_signed, number_at, minus, integer_at, begins_field, point_at, fields_at, bare_path_at, path_at, bare_order_at, order_at, is_hex, hex_value, hex_digit_at, octets_at, line_at};

use crate::StubErr;
use cast_stub::Path;
use kit_base::Octets;
use std::alloc::Global;
use wire_def::Order;

/// The greatest number of 32 bits.
const MOST_WORD: u128 = 4_294_967_295;

/// The greatest number of 128 bits with a sign.
const MOST_SIGNED: u128 = 170_141_183_460_469_231_731_687_303_715_884_105_727;

/// Whether the text begins with a word.
pub(crate) fn begins(text: &[u8], word: &[u8]) -> bool
    ensures value { result ≡ begins word.now text.now }
    ensures bound { IsTrue result → length word.now ≤ length text.now }
{
    text.starts_with(word)
}

/// What follows a word, where the text begins with it.
pub(crate) fn after<'a>(text: &'a [u8], word: &[u8]) -> Option<&'a [u8]>
    ensures { option_map (λ x. (tt, x.now)) result ≡ word_at word.now text.now }
{
    if text.starts_with(word) {
        return Some(&text[word.len()..]);
    }
    None
}

/// What follows a word.
pub(crate) fn past<'a>(text: &'a [u8], word: &[u8]) -> Result<&'a [u8], StubErr>
    ensures { Gives (λ x. (tt, x.now)) result (word_at word.now text.now) }
{
    if text.starts_with(word) {
        return Ok(&text[word.len()..]);
    }
    Err(StubErr::Text)
}

fn is_digit(octet: u8) -> bool
    ensures { result ≡ is_digit octet }
{
    matches!(octet, b'0'..=b'9')
}

/// Whether a digit comes first.
fn begins_digit(text: &[u8]) -> bool
    ensures { result ≡ begins_digit text.now }
{
    match text.first() {
        Some(first) => is_digit(*first),
        None => false,
    }
}

/// A number with one more digit, where that is not above another number.
fn with_digit(most: u128, n: u128, digit: u8) -> Option<u128>
    ensures { result ≡ at_most most (10 * n + digit) }
{
    let tens = n.checked_mul(10)?;
    let sum = tens.checked_add(u128::from(digit))?;
    if sum <= most {
        return Some(sum);
    }
    None
}

/// The number that digits write, where it is not above another number.
fn digits(most: u128, text: &[u8]) -> Result<(u128, &[u8]), StubErr>
    ensures read { Gives (λ x. (x.0, x.1.now)) result (digits_on most 0 text.now) }
    ensures within { IfOk result (λ x. x.0 ≤ most) }
{
    let mut n: u128 = 0;
    for (i, octet) in text.iter().enumerate() {
        if !is_digit(*octet) {
            return Ok((n, &text[i..]));
        }
        match with_digit(most, n, *octet - b'0') {
            Some(next) => n = next,
            None => return Err(StubErr::Text),
        }
    }
    Ok((n, &text[text.len()..]))
}

/// A number of 32 bits.
#[tactic(auto, unfolding(crate::specs::Words::most_word))]
fn word_number(text: &[u8]) -> Result<(u32, &[u8]), StubErr>
    ensures { Gives (λ x. (x.0, x.1.now)) result (digits_on most_word 0 text.now) }
{
    let (n, rest) = digits(MOST_WORD, text)?;
    Ok((n as u32, rest))
}

/// A number of 32 bits before a word.
pub(crate) fn number<'a>(text: &'a [u8], stop: &[u8]) -> Result<(u32, &'a [u8]), StubErr>
    ensures { Gives (λ x. (x.0, x.1.now)) result (number_at stop.now text.now) }
{
    let (n, rest) = word_number(text)?;
    let rest = past(rest, stop)?;
    Ok((n, rest))
}

/// The negative of a number.
#[tactic(auto, unfolding(crate::specs::Words::most_signed))]
fn minus(n: u128) -> i128
    requires { n ≤ most_signed + 1 }
    ensures { result ≡ minus n }
{
    if n == 0 {
        return 0;
    }
    -1 - ((n - 1) as i128)
}

/// A number of 128 bits with its sign, before a word.
#[tactic(auto, unfolding(crate::specs::Words::most_signed))]
pub(crate) fn integer<'a>(text: &'a [u8], stop: &[u8]) -> Result<(i128, &'a [u8]), StubErr>
    ensures { Gives (λ x. (x.0, x.1.now)) result (integer_at stop.now text.now) }
{
    if begins(text, b"-") {
        let (n, rest) = digits(MOST_SIGNED + 1, &text[1..])?;
        let rest = past(rest, stop)?;
        return Ok((minus(n), rest));
    }
    let (n, rest) = digits(MOST_SIGNED, text)?;
    let rest = past(rest, stop)?;
    Ok((n as i128, rest))
}

/// Whether a point comes first, and then a digit.
fn begins_field(text: &[u8]) -> bool
    ensures value { result ≡ begins_field text.now }
    ensures bound { IsTrue result → 1 ≤ length text.now }
{
    begins(text, b".") && begins_digit(&text[1..])
}

/// What follows a point that stands before a digit.
fn point(text: &[u8]) -> Option<&[u8]>
    ensures { option_map (λ x. (tt, x.now)) result ≡ point_at text.now }
{
    if begins_field(text) {
        return Some(&text[1..]);
    }
    None
}

/// The numbers of fields, each after a point.
#[tactic(auto, using(crate::proofs::Loops::loops))]
fn fields(alloc: Global, text: &[u8]) -> Result<(Path, &[u8]), StubErr>
    ensures { Gives (λ x. (x.0, x.1.now)) result (fields_at text.now) }
{
    let mut items = Path::new(alloc);
    let mut rest = text;
    'items: for _ in 0..text.len() {
        let Some(led) = point(rest) else {
            return Ok((items, rest));
        };
        let (item, tail) = word_number(led)?;
        items.push(item)?;
        rest = tail;
    }
    Ok((items, rest))
}

/// A path.
fn bare_path(alloc: Global, text: &[u8]) -> Result<(Path, &[u8]), StubErr>
    ensures { Gives (λ x. (x.0, x.1.now)) result (bare_path_at text.now) }
{
    if begins_field(text) {
        return fields(alloc, text);
    }
    let rest = past(text, b".")?;
    Ok((Path::new(alloc), rest))
}

/// A path before a word.
pub(crate) fn path<'a>(
    alloc: Global,
    text: &'a [u8],
    stop: &[u8],
) -> Result<(Path, &'a [u8]), StubErr>
    ensures { Gives (λ x. (x.0, x.1.now)) result (path_at stop.now text.now) }
{
    let (path, rest) = bare_path(alloc, text)?;
    let rest = past(rest, stop)?;
    Ok((path, rest))
}

/// The order of a number's octets.
fn bare_order(text: &[u8]) -> Result<(Order, &[u8]), StubErr>
    ensures { Gives (λ x. (x.0, x.1.now)) result (bare_order_at text.now) }
{
    if begins(text, b"be") {
        return Ok((Order::Big, &text[2..]));
    }
    let rest = past(text, b"le")?;
    Ok((Order::Little, rest))
}

/// The order of a number's octets, at the end of a line.
pub(crate) fn order(text: &[u8]) -> Result<(Order, &[u8]), StubErr>
    ensures { Gives (λ x. (x.0, x.1.now)) result (order_at text.now) }
{
    let (order, rest) = bare_order(text)?;
    let rest = past(rest, b"\n")?;
    Ok((order, rest))
}

fn is_hex(octet: u8) -> bool
    ensures { result ≡ is_hex octet }
{
    is_digit(octet) || matches!(octet, b'a'..=b'f')
}

/// What a hexadecimal digit stands for.
fn hex_value(digit: u8) -> u8
    requires { is_hex digit ≡ true }
    ensures value { result ≡ hex_value digit }
    ensures within { result < 16 }
{
    if digit <= b'9' {
        digit - b'0'
    } else {
        digit - (b'a' - 10)
    }
}

/// A hexadecimal digit.
fn hex_digit(text: &[u8]) -> Option<(u8, &[u8])>
    ensures read { option_map (λ x. (x.0, x.1.now)) result ≡ hex_digit_at text.now }
    ensures within { IfSome result (λ x. x.0 < 16) }
{
    match text {
        [first, rest @ ..] if is_hex(*first) => Some((hex_value(*first), rest)),
        _ => None,
    }
}

/// Octets in two hexadecimal digits each.
#[tactic(auto, using(crate::proofs::Loops::loops))]
pub(crate) fn octets(alloc: Global, text: &[u8]) -> Result<(Octets, &[u8]), StubErr>
    ensures { Gives (λ x. (x.0, x.1.now)) result (octets_at text.now) }
{
    let mut items = Octets::new(alloc);
    let mut rest = text;
    'items: for _ in 0..text.len() {
        let Some((high, led)) = hex_digit(rest) else {
            return Ok((items, rest));
        };
        let Some((low, tail)) = hex_digit(led) else {
            return Err(StubErr::Text);
        };
        items.push(16 * high + low)?;
        rest = tail;
    }
    Ok((items, rest))
}

/// The place of the first end of a line.
fn end_in(text: &[u8]) -> Option<usize>
    ensures { result ≡ position (λ o. o == 10) text.now }
{
    text.iter().position(|o| *o == b'\n')
}

/// What is left of a line, and what follows it.
pub(crate) fn line(text: &[u8]) -> Result<(&[u8], &[u8]), StubErr>
    ensures { Gives (λ x. (x.0.now, x.1.now)) result (line_at text.now) }
{
    match end_in(text) {
        Some(i) => Ok((&text[..i], &text[i + 1..])),
        None => Err(StubErr::Text),
    }
}
