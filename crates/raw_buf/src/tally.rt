//! What the calls of a buffer cost.

ghost use Rattle.std.specs.Prelude.{◌≡◌};
ghost use Rattle.raw_buf.specs.Buf.{together};

/// Four counts of calls. A count that has reached 2^64 - 1 stays there.
#[derive(Clone, Copy, Debug, PartialEq, Eq)]
pub struct Tally {
    /// Calls of `ensure` that succeeded.
    pub checks: u64,
    /// Moves of the cursor: calls of `advance` and `align`.
    pub moves: u64,
    /// Stores: calls of `put`, `put_const` and `patch4`.
    pub stores: u64,
    /// Rows that were appended as a block: calls of `row_copy` and `row_swap`.
    pub rows: u64,
}

/// Counts that are raised by others.
pub(crate) fn together(before: Tally, more: Tally) -> Tally
    ensures { result ≡ together before more }
{
    Tally {
        checks: before.checks.saturating_add(more.checks),
        moves: before.moves.saturating_add(more.moves),
        stores: before.stores.saturating_add(more.stores),
        rows: before.rows.saturating_add(more.rows),
    }
}
