//! What is known of a position.

ghost use Rattle.std.specs.Prelude.{◌≡◌, ◌<◌, ◌≤◌, ◌%◌, true};
ghost use Rattle.wire_def.specs.Scalars.{gap};
ghost use Rattle.cast_stub.specs.Steps.{is_width};
ghost use Rattle.chunker.specs.Left.{by_fours};
ghost use Rattle.chunker.specs.Phases.{IsPhase, modulo, unknown, shift, is_known, agree, meet};

/// The position is `r` modulo `m`.
#[derive(Clone, Copy, Debug, PartialEq, Eq)]
pub struct Phase {
    /// One of 1, 2, 4 and 8.
    pub m: u32,
    /// Below `m`.
    pub r: u32,
}

/// Whether a number is a width, or an alignment.
pub(crate) fn is_width(n: u32) -> bool
    ensures { result ≡ is_width n }
{
    n == 1 || n == 2 || n == 4 || n == 8
}

/// Nothing is known.
pub(crate) fn unknown() -> Phase
    ensures is { result ≡ unknown }
    ensures phase { IsPhase result }
{
    Phase { m: 1, r: 0 }
}

/// At a multiple.
pub(crate) fn at_multiple(m: u32) -> Phase
    requires width { is_width m ≡ true }
    ensures is { result ≡ modulo m 0 }
    ensures phase { IsPhase result }
{
    Phase { m, r: 0 }
}

/// After so many octets.
pub(crate) fn shift(phase: Phase, octets: u32) -> Phase
    requires phase { IsPhase phase }
    ensures is { result ≡ shift phase octets }
    ensures phase { IsPhase result }
{
    Phase {
        m: phase.m,
        r: (phase.r + octets % phase.m) % phase.m,
    }
}

/// Whether the padding up to a multiple is the same at all positions.
pub(crate) fn is_known(phase: Phase, a: u32) -> bool
    requires width { is_width a ≡ true }
    ensures { result ≡ is_known phase a }
{
    phase.m % a == 0
}

/// The padding up to a multiple.
pub(crate) fn gap(r: u32, a: u32) -> u32
    requires width { is_width a ≡ true }
    ensures { result ≡ gap r a }
{
    (a - r % a) % a
}

/// Whether two phases say the same of the remainder by a multiple.
fn agree(a: Phase, b: Phase, m: u32) -> bool
    requires width { is_width m ≡ true }
    ensures { result ≡ agree a b m }
{
    a.m % m == 0 && b.m % m == 0 && a.r % m == b.r % m
}

/// The remainder of a number by a multiple.
fn modulo(m: u32, r: u32) -> Phase
    requires width { is_width m ≡ true }
    ensures is { result ≡ modulo m r }
    ensures phase { IsPhase result }
{
    Phase { m, r: r % m }
}

/// What both say.
pub(crate) fn meet(a: Phase, b: Phase) -> Phase
    ensures is { result ≡ meet a b }
    ensures phase { IsPhase result }
{
    if agree(a, b, 8) {
        modulo(8, a.r)
    } else if agree(a, b, 4) {
        modulo(4, a.r)
    } else if agree(a, b, 2) {
        modulo(2, a.r)
    } else {
        unknown()
    }
}

/// Behind numbers of four octets each.
pub(crate) fn by_fours(phase: Phase) -> Phase
    requires phase { IsPhase phase }
    ensures is { result ≡ by_fours phase }
    ensures phase { IsPhase result }
{
    meet(phase, shift(phase, 4))
}
