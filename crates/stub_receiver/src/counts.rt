//! Lengths that numbers give.

ghost use Rattle.std.specs.Prelude.{◌≡◌};
ghost use Rattle.cast_stub.specs.Into.{length_of};
ghost use Rattle.cast_stub.specs.Parts.{on_some};
ghost use Rattle.stub_receiver.specs.Drawn.{allowed};

use mint::kind::Count;

/// A length that is multiplied and raised in a number.
fn length_of(mul: u32, add: u32, m: u64) -> Option<u64>
    ensures { result ≡ length_of mul add m }
{
    if mul == 0 {
        return None;
    }
    let (mul, add) = (u64::from(mul), u64::from(add));
    if m < add {
        return None;
    }
    let n = (m - add) / mul;
    match (m - add) % mul {
        0 => Some(n),
        _ => None,
    }
}

/// A length that a count allows.
fn allowed(count: Count, n: u64) -> Option<u32>
    ensures { result ≡ allowed count n }
{
    match (u32::try_from(n), count) {
        (Ok(k), Count::Exactly(m)) if k == m => Some(k),
        (Ok(k), Count::AtMost(m)) if k <= m => Some(k),
        (Ok(k), Count::Any) => Some(k),
        _ => None,
    }
}

/// The length of a list that a number gives, where its count allows it.
pub fn counted(count: Count, mul: u32, add: u32, m: u64) -> Option<u32>
    ensures { result ≡ on_some (length_of mul add m) (allowed count) }
{
    match length_of(mul, add, m) {
        Some(n) => allowed(count, n),
        None => None,
    }
}
