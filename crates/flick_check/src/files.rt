//! The lines of a file of stubs, and of the answers.

ghost use Rattle.std.specs.Prelude.{◌≡◌, ◌≤◌, ◌<◌, length};
ghost use Rattle.stub_read.specs.Reading.{begins};
ghost use Rattle.flick_check.specs.Checked as checked;
ghost use Rattle.flick_check.specs.Files as files;

/// Whether octets begin as a text of stub code does.
fn begins_stub(text: &[u8]) -> bool
    ensures { result ≡ files.begins_stub text.now }
{
    text.starts_with(b"send ") || text.starts_with(b"recv ")
}

/// How many octets stand before the next line that begins as a text of stub code does, or before the end.
pub(crate) fn passed(text: &[u8]) -> usize
    ensures value { result ≡ files.passed text.now }
    ensures within { result ≤ length text.now }
{
    for i in 0..text.len() {
        if text[i] == b'\n' && begins_stub(&text[i + 1..]) {
            return i + 1;
        }
    }
    text.len()
}

/// How many lines end in octets.
pub(crate) fn feeds(text: &[u8]) -> usize
    ensures value { result ≡ files.feeds text.now }
    ensures within { result ≤ length text.now }
{
    let mut sum = 0;
    for octet in text {
        if *octet == b'\n' {
            sum += 1;
        }
    }
    sum
}

/// Whether a line of a text begins with `!`.
pub fn has_refusal(text: &[u8]) -> bool
    ensures { result ≡ checked.has_refusal text.now }
{
    let mut begun = true;
    for octet in text {
        if begun && *octet == b'!' {
            return true;
        }
        begun = *octet == b'\n';
    }
    false
}
