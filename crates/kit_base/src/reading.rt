//! Pieces of a source, read into a buffer.

ghost use Rattle.std.specs.Prelude.{◌≡◌, ◌≢◌, ◌<◌, ◌≤◌, ◌+◌, length, take, drop, OnErr, IfOk};
ghost use Rattle.kit_base.specs.Causes.{Rose};
ghost use Rattle.std.specs.Io.KnownBytes.{Consumes, IsAtEnd};

use crate::{Failed, LineErr, Source};

/// Drops the first `n` octets of a buffer.
pub(crate) fn discard_prefix(buffer: &mut Vec<u8>, n: usize)
    requires { n ≤ length buffer.old.items }
    ensures { buffer.new.items ≡ drop n buffer.old.items }
{
    if n > 0 {
        buffer.copy_within(n.., 0);
        buffer.truncate(buffer.len() - n);
    }
}

/// Reads once into `piece`, and appends what came to the buffer. Room is made before the read, so
/// that no octet is lost where memory runs out.
pub(crate) fn read_after<S: Source>(
    source: &mut S,
    piece: &mut [u8],
    buffer: &mut Vec<u8>,
) -> Result<usize, LineErr>
    requires { length piece.old ≤ 65536 }
    // What was read.
    ensures kept { take (length buffer.old.items) buffer.new.items ≡ buffer.old.items }
    ensures got { Consumes (S.left source.old) (S.left source.new)
        (drop (length buffer.old.items) buffer.new.items) }
    ensures count { IfOk result (λ n. (length buffer.new.items ≡ length buffer.old.items + n)
        × (n ≤ length piece.old) × (n ≤ 65536)) }
    ensures none { OnErr result (buffer.new.items ≡ buffer.old.items) }
    // When the source is at its end.
    ensures end { IfOk result (λ n. n ≡ 0 → 0 < length piece.old → IsAtEnd (S.left source.new)) }
    // When it fails.
    ensures later { S.faults source.old ≤ S.faults source.new }
    ensures reported { result ≢ Err LineErr.Failed → S.faults source.old ≡ S.faults source.new }
    ensures failed { result ≡ Err LineErr.Failed → Rose (S.faults source.old) (S.faults source.new) }
    ensures too_much { result ≢ Err LineErr.TooMuch }
{
    if buffer.reserve(piece.len()).is_err() {
        return Err(LineErr::NoMemory);
    }
    match source.read(piece) {
        Ok(count) => match buffer.extend_from_slice(&piece[..count]) {
            Ok(()) => Ok(count),
            Err(_) => Err(LineErr::NoMemory),
        },
        Err(Failed) => Err(LineErr::Failed),
    }
}
