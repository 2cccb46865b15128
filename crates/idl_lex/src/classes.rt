//! Classes of octets.

ghost use Rattle.std.specs.Prelude.{◌≡◌, ◌≤◌, length};
ghost use Rattle.std.specs.List.{prefix_len};
ghost use Rattle.idl_lex.specs.Classes.{is_blank, is_in_line, is_line_blank, is_letter, is_digit, is_word_octet, is_hex_digit};

pub(crate) fn is_blank(octet: u8) -> bool
    ensures { result ≡ is_blank octet }
{
    matches!(octet, 9..=13 | b' ')
}

pub(crate) fn is_letter(octet: u8) -> bool
    ensures { result ≡ is_letter octet }
{
    matches!(octet, b'a'..=b'z' | b'A'..=b'Z' | b'_')
}

pub(crate) fn is_digit(octet: u8) -> bool
    ensures { result ≡ is_digit octet }
{
    matches!(octet, b'0'..=b'9')
}

fn is_hex_digit(octet: u8) -> bool
    ensures { result ≡ is_hex_digit octet }
{
    is_digit(octet) || matches!(octet, b'a'..=b'f' | b'A'..=b'F')
}

/// How many blanks come first.
pub(crate) fn blanks(text: &[u8]) -> usize
    ensures count { result ≡ prefix_len is_blank text.now }
    ensures within { result ≤ length text.now }
{
    text.iter().take_while(|o| is_blank(**o)).count()
}

/// How many blanks of the same line come first.
pub(crate) fn line_blanks(text: &[u8]) -> usize
    ensures count { result ≡ prefix_len is_line_blank text.now }
    ensures within { result ≤ length text.now }
{
    text.iter()
        .take_while(|o| is_blank(**o) && **o != b'\n')
        .count()
}

/// How many octets come before the end of the line.
pub(crate) fn in_line(text: &[u8]) -> usize
    ensures count { result ≡ prefix_len is_in_line text.now }
    ensures within { result ≤ length text.now }
{
    text.iter().take_while(|o| **o != b'\n').count()
}

/// How many letters, digits and `_` come first.
pub(crate) fn word_octets(text: &[u8]) -> usize
    ensures count { result ≡ prefix_len is_word_octet text.now }
    ensures within { result ≤ length text.now }
{
    text.iter()
        .take_while(|o| is_letter(**o) || is_digit(**o))
        .count()
}

/// How many decimal digits come first.
pub(crate) fn digits(text: &[u8]) -> usize
    ensures count { result ≡ prefix_len is_digit text.now }
    ensures within { result ≤ length text.now }
{
    text.iter().take_while(|o| is_digit(**o)).count()
}

/// How many hexadecimal digits come first.
pub(crate) fn hex_digits(text: &[u8]) -> usize
    ensures count { result ≡ prefix_len is_hex_digit text.now }
    ensures within { result ≤ length text.now }
{
    text.iter().take_while(|o| is_hex_digit(**o)).count()
}
