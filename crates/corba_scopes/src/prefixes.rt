//! Where the prefix of a full name ends.

ghost use Rattle.std.specs.Prelude.{◌≡◌, ◌≤◌, length};
ghost use Rattle.corba_scopes.specs.Parted.{cut};

use memchr::memrchr;

/// Where the last dot ends, or 0.
pub(crate) fn cut(name: &[u8]) -> usize
    ensures value { result ≡ cut name.now }
    ensures within { result ≤ length name.now }
{
    match memrchr(b'.', name) {
        Some(last) => last + 1,
        None => 0,
    }
}
