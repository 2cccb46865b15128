//! Spans, and those of wholes from those of their parts.

ghost use Rattle.std.specs.Prelude.{◌≡◌, ◌<◌, ◌≤◌, ◌+◌, ◌*◌, Some, IsTrue, nat_le};
ghost use Rattle.std.specs.List.{list_all};
ghost use Rattle.storage_class.specs.Classing.{at_most, after, either, exactly, from_each, greatest, is_fixed, length_at, length_after, loose, run, sum_of_tops, times, times_top, top};

/// What is known of a length: the length, its bound, or nothing.
#[derive(Clone, Copy, Debug, PartialEq, Eq)]
pub enum Span {
    /// The length from a position, by its remainder modulo 8.
    Fixed([u32; 8]),
    /// No length is above this.
    Bounded(u32),
    /// No bound is known, or it is above 4,294,967,295.
    Unbounded,
}

/// The length from a position.
#[tactic(auto, unfolding(crate::specs::Classing::length_at))]
fn at(f: &[u32; 8], place: u64) -> u64
    ensures is { result ≡ length_at f.now place }
    ensures few { result ≤ 4294967295 }
{
    u64::from(f[(place % 8) as usize])
}

/// The length from a position of one part and another after it.
fn after_at(f: &[u32; 8], g: &[u32; 8], place: u64) -> u64
    requires { place < 8 }
    ensures { result ≡ length_after f.now g.now place }
{
    let m = at(f, place);
    m + at(g, place + m)
}

/// The greatest of eight lengths.
#[tactic(auto, using(crate::proofs::Eights::eights))]
fn greatest(f: &[u32; 8]) -> u32
    ensures { result ≡ greatest f.now }
{
    let low = f[0].max(f[1].max(f[2].max(f[3])));
    let high = f[4].max(f[5].max(f[6].max(f[7])));
    low.max(high)
}

/// Whether no length is above 4,294,967,295.
fn are_reported(f: &[u64; 8]) -> bool
    ensures { result ≡ list_all (λ n. nat_le n 4294967295) f.now }
{
    f.iter().all(|n| *n <= 4294967295)
}

/// The same lengths in 32 bits each.
#[tactic(auto, using(crate::proofs::Eights::eights))]
fn reported(f: &[u64; 8]) -> [u32; 8]
    requires { IsTrue (list_all (λ n. nat_le n 4294967295) f.now) }
    ensures { result ≡ f.now }
{
    [
        f[0] as u32,
        f[1] as u32,
        f[2] as u32,
        f[3] as u32,
        f[4] as u32,
        f[5] as u32,
        f[6] as u32,
        f[7] as u32,
    ]
}

/// The fixed span of these lengths; unbounded where one is above 4,294,967,295.
pub(crate) fn exactly(f: &[u64; 8]) -> Span
    ensures { result ≡ exactly f.now }
{
    if are_reported(f) {
        Span::Fixed(reported(f))
    } else {
        Span::Unbounded
    }
}

/// One part and another after it.
fn one_after(f: &[u32; 8], g: &[u32; 8]) -> Span
    ensures { result ≡ exactly (from_each (length_after f.now g.now)) }
{
    exactly(&[
        after_at(f, g, 0),
        after_at(f, g, 1),
        after_at(f, g, 2),
        after_at(f, g, 3),
        after_at(f, g, 4),
        after_at(f, g, 5),
        after_at(f, g, 6),
        after_at(f, g, 7),
    ])
}

/// So many parts of these lengths, made from half as many.
#[tactic(auto, using(crate::proofs::Powers::powers))]
fn power(f: &[u32; 8], n: u32) -> Span
    ensures { result ≡ exactly (from_each (run n f.now)) }
{
    if n == 0 {
        return Span::Fixed([0; 8]);
    }
    let half = power(f, n / 2);
    let even = half.after(half);
    if n % 2 == 0 {
        even
    } else {
        Span::Fixed(*f).after(even)
    }
}

/// The span of a bound; unbounded where it is above 4,294,967,295.
pub(crate) fn at_most(n: u64) -> Span
    ensures { result ≡ at_most n }
{
    match u32::try_from(n) {
        Ok(n) => Span::Bounded(n),
        Err(_) => Span::Unbounded,
    }
}

impl Span {
    /// Whether the length is fixed.
    pub(crate) fn is_fixed(self) -> bool
        ensures { result ≡ is_fixed self }
    {
        match self {
            Span::Fixed(_) => true,
            _ => false,
        }
    }

    /// The greatest of fixed lengths, or the bound, if there is one.
    pub fn top(self) -> Option<u32>
        ensures { result ≡ top self }
    {
        match self {
            Span::Fixed(f) => Some(greatest(&f)),
            Span::Bounded(n) => Some(n),
            Span::Unbounded => None,
        }
    }

    /// A span with the same bound, and no fixed length.
    pub(crate) fn loose(self) -> Span
        ensures { result ≡ loose self }
    {
        match self {
            Span::Fixed(f) => Span::Bounded(greatest(&f)),
            other => other,
        }
    }

    /// This one, and another after it.
    pub(crate) fn after(self, next: Span) -> Span
        ensures { result ≡ after self next }
    {
        match (self, next) {
            (Span::Fixed(f), Span::Fixed(g)) => one_after(&f, &g),
            _ => self.plus(next),
        }
    }

    /// This one and another, by their bounds alone.
    pub(crate) fn plus(self, next: Span) -> Span
        ensures { result ≡ sum_of_tops (top self) (top next) }
    {
        sum_of_tops(self.top(), next.top())
    }

    /// The span of one of the two: bounded by the greater bound.
    pub(crate) fn either(self, other: Span) -> Span
        ensures { result ≡ either self other }
    {
        match (self.top(), other.top()) {
            (Some(m), Some(n)) => Span::Bounded(m.max(n)),
            _ => Span::Unbounded,
        }
    }

    /// So many parts of this span, one after the other.
    pub(crate) fn times(self, n: u32) -> Span
        ensures { result ≡ times n self }
    {
        match self {
            Span::Fixed(f) => power(&f, n),
            _ => self.times_top(n),
        }
    }

    /// The span of so many parts, by the bound of each alone.
    pub(crate) fn times_top(self, n: u32) -> Span
        ensures { result ≡ times_top n (top self) }
    {
        match self.top() {
            Some(m) => at_most(u64::from(n) * u64::from(m)),
            None => Span::Unbounded,
        }
    }
}

fn sum_of_tops(m: Option<u32>, n: Option<u32>) -> Span
    ensures { result ≡ sum_of_tops m n }
{
    match (m, n) {
        (Some(m), Some(n)) => at_most(u64::from(m) + u64::from(n)),
        _ => Span::Unbounded,
    }
}
