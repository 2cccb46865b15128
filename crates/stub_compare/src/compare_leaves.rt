//! To which residues of a position code leads.

ghost use Rattle.std.specs.Prelude.{◌≡◌};
ghost use Rattle.cast_stub.specs.Block.{cases_seen, code_seen, op_seen};
ghost use Rattle.stub_flat.specs.Places.{node_of, row_kind, spot_at};
ghost use Rattle.stub_flat.specs.Residues.{closed, moved};
ghost use Rattle.stub_flat.specs.Leaves.{leaves, ways_leave, width_of};
ghost use Rattle.stub_compare.specs.CompareSets.{IsTableOf, LedBy};
ghost use Rattle.stub_compare.specs.CompareTold.{IsLedThrough};

use crate::compare_tables::{
    Table, align_where, close_by, close_each, every_each, move_each, none_each, start, sum_each,
};
use cast_stub::{Path, SendCases, SendLast, SendOp, SendOps};
use mint::table::Mint;
use stub_places::{
    Spot, arm_spot_at, element_at, present_at, rest_spot_at, row_kind_at, spot_at, width_of,
};

/// Each set of a table, led through operations.
#[cycle(lead)]
fn lead_ops(mint: &Mint, spot: Spot, ops: &SendOps, table: &Table) -> Table
    ensures { LedBy (leaves mint.now spot (code_seen ops.now)) table.now result }
{
    let mut here = *table;
    for op in ops.as_slice() {
        here = lead_op(mint, spot, op, &here);
    }
    here
}

/// Each set of a table, led through an operation.
#[cycle(lead)]
fn lead_op(mint: &Mint, spot: Spot, op: &SendOp, table: &Table) -> Table
    ensures { IsLedThrough mint.now spot (op_seen op.now) table.now result }
{
    match op {
        SendOp::Ensure(_) => *table,
        SendOp::EnsureRow(_, _, _) => *table,
        SendOp::Align(a) => align_where(table, *a),
        SendOp::Chunk(size, _) => move_each(table, *size),
        SendOp::RowCopy(path) => lead_row(mint, spot, path, table),
        SendOp::RowSwap(path) => lead_row(mint, spot, path, table),
        SendOp::RowWide(_, _) => close_by(table, 4),
        SendOp::Each(path, body) => {
            let inner = element_at(mint, spot_at(mint, path.as_slice(), spot));
            let turn = lead_ops(mint, inner, body, &start());
            close_each(table, &turn)
        }
        SendOp::Switch(path, cases, last) => {
            let place = spot_at(mint, path.as_slice(), spot);
            lead_ways(mint, place, cases, last, table)
        }
        SendOp::Some(path, body) => {
            let inner = present_at(mint, spot_at(mint, path.as_slice(), spot));
            let behind = lead_ops(mint, inner, body, table);
            sum_each(table, &behind)
        }
        SendOp::Call(_, _) => every_each(),
        SendOp::Patch(_, _, _) => *table,
    }
}

/// Each set of a table, led through the numbers of a row.
fn lead_row(mint: &Mint, spot: Spot, path: &Path, table: &Table) -> Table
    ensures { LedBy (closed (moved (width_of (row_kind (node_of mint.now (spot_at mint.now path.now spot))))))
        table.now result }
{
    let place = spot_at(mint, path.as_slice(), spot);
    let width = width_of(row_kind_at(mint, place));
    close_by(table, width)
}

/// Each set of a table, led through the bodies of a switch over a place.
#[cycle(lead)]
fn lead_ways(mint: &Mint, place: Spot, cases: &SendCases, last: &SendLast, table: &Table) -> Table
    ensures { LedBy (ways_leave mint.now (node_of mint.now place) (cases_seen cases.now last.now)
        (cases_seen cases.now last.now)) table.now result }
{
    let mut total = none_each();
    for case in cases.as_slice() {
        let spot = arm_spot_at(mint, place, &case.0);
        let behind = lead_ops(mint, spot, &case.1, table);
        total = sum_each(&total, &behind);
    }
    match last {
        Some(body) => {
            let spot = rest_spot_at(mint, place, cases);
            let behind = lead_ops(mint, spot, body, table);
            sum_each(&total, &behind)
        }
        None => sum_each(&total, &none_each()),
    }
}

/// What operations make of each residue by itself, and of none.
pub(crate) fn turn_of(mint: &Mint, spot: Spot, ops: &SendOps) -> Table
    ensures { IsTableOf (leaves mint.now spot (code_seen ops.now)) result }
{
    lead_ops(mint, spot, ops, &start())
}
