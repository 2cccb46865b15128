//! Pieces of a source, fed to a stream.

ghost use Rattle.std.specs.Prelude.{◌≡◌, ◌≢◌, ◌<◌, ◌≤◌, ◌+◌, List, ℕ, length, take, drop, OnOk, OnErr, IfOk};
ghost use Rattle.std.specs.Io.KnownBytes.{Consumes, IsAtEnd, Keeps};
ghost use Rattle.kit_base.specs.Causes.{Rose};
ghost use Rattle.kit_base.specs.declared.lines.LineErr.{LineErr};

use crate::frames::Frames;
use kit_base::{Failed, LineErr, Source};

/// Reads once into a piece, and feeds what came, unless it is more than there is room for.
pub(crate) fn fed_from<S: Source>(
    source: &mut S,
    piece: &mut [u8],
    room: u64,
    frames: &mut Frames,
) -> Result<usize, LineErr>
    // What was read.
    ensures kept { OnOk result (take (length frames.old.kept) frames.new.kept ≡ frames.old.kept) }
    ensures got { OnOk result (Consumes (S.left source.old) (S.left source.new)
        (drop (length frames.old.kept) frames.new.kept)) }
    ensures count { IfOk result (λ n. (length frames.new.kept ≡ length frames.old.kept + n)
        × (n ≤ length piece.old) × (n ≤ room)) }
    ensures back { frames.new.back ≡ frames.old.back }
    ensures none { OnErr result (frames.new ≡ frames.old) }
    // When the source is at its end.
    ensures end { IfOk result (λ n. n ≡ 0 → 0 < length piece.old → IsAtEnd (S.left source.new)) }
    // When it fails.
    ensures unread { result ≡ Err LineErr.Failed → Keeps (S.left source.old) (S.left source.new) }
    ensures few { result ≡ Err LineErr.NoMemory → (got : List ℕ)
        × Consumes (S.left source.old) (S.left source.new) got × (length got ≤ room) }
    ensures too_much { result ≡ Err LineErr.TooMuch → (got : List ℕ)
        × Consumes (S.left source.old) (S.left source.new) got × (room < length got) }
    ensures later { S.faults source.old ≤ S.faults source.new }
    ensures reported { result ≢ Err LineErr.Failed → S.faults source.old ≡ S.faults source.new }
    ensures failed { result ≡ Err LineErr.Failed → Rose (S.faults source.old) (S.faults source.new) }
{
    let count = match source.read(piece) {
        Ok(count) => count,
        Err(Failed) => return Err(LineErr::Failed),
    };
    if count as u64 > room {
        return Err(LineErr::TooMuch);
    }
    match frames.feed(&piece[..count]) {
        Ok(()) => Ok(count),
        Err(_) => Err(LineErr::NoMemory),
    }
}
