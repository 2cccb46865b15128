//! Tables of what code makes of each residue of a position by 8.

ghost use Rattle.std.specs.Prelude.{◌≡◌, true, ◌<◌, [], slice_index_or, if◌then◌else◌};
ghost use Rattle.cast_stub.specs.Steps.{is_width};
ghost use Rattle.stub_flat.specs.Residues.{aligned, closed, every, moved, none, only, sum};
ghost use Rattle.stub_compare.specs.CompareSets.{Agree, IsTableOf, LedBy, applied, row, rows_of};
ghost use Rattle.stub_places.specs.Sets.{each_of, set_of};

use stub_places::is_width;
use stub_places::sets::{
    Set, aligned, contains, copied, every, is_within, moved, none, only, size, sum,
};

/// What code makes of each residue by itself, and last of none.
pub(crate) type Table = [Set; 9];

fn row(table: &Table, k: usize) -> Set
    requires { k < 9 }
    ensures { result ≡ slice_index_or table.now k [] }
{
    table[k]
}

/// Each residue by itself, and none.
pub(crate) fn start() -> Table
    ensures { result ≡ rows_of only }
{
    [
        only(0),
        only(1),
        only(2),
        only(3),
        only(4),
        only(5),
        only(6),
        only(7),
        only(8),
    ]
}

/// No residue in any set.
pub(crate) fn none_each() -> Table
    ensures { result ≡ rows_of (λ k. none) }
{
    [
        none(),
        none(),
        none(),
        none(),
        none(),
        none(),
        none(),
        none(),
        none(),
    ]
}

/// Every residue in each set.
pub(crate) fn every_each() -> Table
    ensures { result ≡ rows_of (λ k. every) }
{
    [
        every(),
        every(),
        every(),
        every(),
        every(),
        every(),
        every(),
        every(),
        every(),
    ]
}

// ---- sets led on by a table

fn with_row(made: &Set, table: &Table, set: &Set, k: usize) -> Set
    requires { k < 8 }
    ensures { Agree (set_of result)
        (if set_of set.now k then sum (set_of made.now) (row table.now k) else set_of made.now) }
{
    if contains(set, k) {
        sum(made, &row(table, k))
    } else {
        *made
    }
}

/// What the table makes of a set.
fn applied(table: &Table, set: &Set) -> Set
    ensures { Agree (set_of result) (applied 8 table.now (set_of set.now)) }
{
    let mut made = row(table, 8);
    for k in 0..8 {
        made = with_row(&made, table, set, k);
    }
    made
}

/// The least set with this one that the table does not leave.
pub(crate) fn closed(table: &Table, set: &Set) -> Set
    ensures { result ≡ each_of (closed (applied 8 table.now) (set_of set.now)) }
{
    let mut made = *set;
    let mut turn = size(set);
    while turn < 8 {
        let next = applied(table, &made);
        if is_within(&next, &made) {
            return copied(&made);
        }
        made = sum(&made, &next);
        turn += 1;
    }
    copied(&made)
}

// ---- each set led on

fn moved_row(table: &Table, k: usize, n: u32) -> Set
    requires { k < 9 }
    ensures { result ≡ each_of (moved n (row table.now k)) }
{
    moved(n, &row(table, k))
}

/// Each set moved on by octets.
pub(crate) fn move_each(table: &Table, n: u32) -> Table
    ensures { result ≡ rows_of (λ k. moved n (row table.now k)) }
{
    [
        moved_row(table, 0, n),
        moved_row(table, 1, n),
        moved_row(table, 2, n),
        moved_row(table, 3, n),
        moved_row(table, 4, n),
        moved_row(table, 5, n),
        moved_row(table, 6, n),
        moved_row(table, 7, n),
        moved_row(table, 8, n),
    ]
}

fn aligned_row(table: &Table, k: usize, a: u32) -> Set
    requires below { k < 9 }
    requires width { is_width a ≡ true }
    ensures { result ≡ each_of (aligned a (row table.now k)) }
{
    aligned(a, &row(table, k))
}

fn align_each(table: &Table, a: u32) -> Table
    requires { is_width a ≡ true }
    ensures { result ≡ rows_of (λ k. aligned a (row table.now k)) }
{
    [
        aligned_row(table, 0, a),
        aligned_row(table, 1, a),
        aligned_row(table, 2, a),
        aligned_row(table, 3, a),
        aligned_row(table, 4, a),
        aligned_row(table, 5, a),
        aligned_row(table, 6, a),
        aligned_row(table, 7, a),
        aligned_row(table, 8, a),
    ]
}

/// Each set aligned, where that is a width.
pub(crate) fn align_where(table: &Table, a: u32) -> Table
    ensures { LedBy (λ S. if is_width a then aligned a S else S) table.now result }
{
    if is_width(a) {
        align_each(table, a)
    } else {
        *table
    }
}

fn closed_row(table: &Table, k: usize, turn: &Table) -> Set
    requires { k < 9 }
    ensures { result ≡ each_of (closed (applied 8 turn.now) (row table.now k)) }
{
    closed(turn, &row(table, k))
}

/// Each set closed.
pub(crate) fn close_each(table: &Table, turn: &Table) -> Table
    ensures { result ≡ rows_of (λ k. closed (applied 8 turn.now) (row table.now k)) }
{
    [
        closed_row(table, 0, turn),
        closed_row(table, 1, turn),
        closed_row(table, 2, turn),
        closed_row(table, 3, turn),
        closed_row(table, 4, turn),
        closed_row(table, 5, turn),
        closed_row(table, 6, turn),
        closed_row(table, 7, turn),
        closed_row(table, 8, turn),
    ]
}

fn sum_row(a: &Table, b: &Table, k: usize) -> Set
    requires { k < 9 }
    ensures { result ≡ each_of (sum (row a.now k) (row b.now k)) }
{
    sum(&row(a, k), &row(b, k))
}

/// Each set with that of another table.
pub(crate) fn sum_each(a: &Table, b: &Table) -> Table
    ensures { result ≡ rows_of (λ k. sum (row a.now k) (row b.now k)) }
{
    [
        sum_row(a, b, 0),
        sum_row(a, b, 1),
        sum_row(a, b, 2),
        sum_row(a, b, 3),
        sum_row(a, b, 4),
        sum_row(a, b, 5),
        sum_row(a, b, 6),
        sum_row(a, b, 7),
        sum_row(a, b, 8),
    ]
}

/// What octets of so many make of each residue.
pub(crate) fn moving(n: u32) -> Table
    ensures { IsTableOf (moved n) result }
{
    move_each(&start(), n)
}

/// Each set closed under octets of so many.
pub(crate) fn close_by(table: &Table, n: u32) -> Table
    ensures { LedBy (closed (moved n)) table.now result }
{
    close_each(table, &moving(n))
}

/// A set closed under octets of so many.
pub(crate) fn closed_by(set: &Set, n: u32) -> Set
    ensures { Agree (set_of result) (closed (moved n) (set_of set.now)) }
{
    closed(&moving(n), set)
}
