//! What is left of code, put as numbers.

ghost use Rattle.std.specs.Prelude.{◌≡◌, ◌++◌, ◌∷◌, ◌<◌, ℕ, true, List, Option, Some, None, is_some, IfOk, OnOk};
ghost use Rattle.mint.specs.declared.node.Node.{Node as Level};
ghost use Rattle.cast_stub.specs.Block.{cases_seen, code_seen, op_seen, align, call, chunk, patch, row_wide};
ghost use Rattle.cast_stub.specs.Steps.{is_width};
ghost use Rattle.stub_flat.specs.Items.{Items, align_items, row_items};
ghost use Rattle.stub_flat.specs.Residues.{Residues};
ghost use Rattle.stub_places.specs.Sets.{set_of};
ghost use Rattle.stub_compare.specs.CompareText.{items_text, integer_text, order_text, path_text};
ghost use Rattle.stub_compare.specs.CompareTold.{AreWaysPut, IsBlockPut, IsOpPut, IsPut, row_piece};

use crate::compare_cells::put_cells;
use crate::compare_leaves::turn_of;
use crate::compare_octets::{put_itself, put_zeros};
use crate::compare_tables::{closed, closed_by};
use crate::compare_text::{Numbers, order_number, put_integer, put_number, put_over};
use cast_stub::{Path, Puts, SendCases, SendLast, SendOp, SendOps};
use kit_base::NoMemory;
use mint::table::Mint;
use std::alloc::Global;
use stub_places::sets::{Set, aligned, every, gap, moved, none, single, size, sum};
use stub_places::{
    Spot, arm_spot_at, element_at, has_length_at, is_width, present_at, rest_spot_at, row_kind_at,
    spot_at, width,
};
use wire_def::Order;

/// Puts what is left of operations from a set of residues, if it is there, and gives the set behind them.
#[cycle(put)]
pub(crate) fn put_ops(
    alloc: Global,
    mint: &Mint,
    spot: Spot,
    ops: &SendOps,
    set: &Set,
    out: &mut Numbers,
) -> Result<Option<Set>, NoMemory>
    ensures { IfOk result (λ o. IsBlockPut o mint.now spot (code_seen ops.now) (set_of set.now)
        out.old out.new) }
{
    let mut here = *set;
    for op in ops.as_slice() {
        let next = put_op(alloc, mint, spot, op, &here, out)?;
        let Some(behind) = next else {
            return Ok(None);
        };
        here = behind;
    }
    put_number(out, 0)?;
    Ok(Some(here))
}

/// Puts what is left of an operation.
#[cycle(put)]
fn put_op(
    alloc: Global,
    mint: &Mint,
    spot: Spot,
    op: &SendOp,
    set: &Set,
    out: &mut Numbers,
) -> Result<Option<Set>, NoMemory>
    ensures { IfOk result (λ o. IsOpPut o mint.now spot (op_seen op.now) (set_of set.now) out.old out.new) }
{
    match op {
        SendOp::Ensure(_) => Ok(Some(*set)),
        SendOp::EnsureRow(path, _, _) => {
            if has_length_at(mint, spot_at(mint, path.as_slice(), spot)) {
                Ok(Some(*set))
            } else {
                Ok(None)
            }
        }
        SendOp::Align(a) => put_align(*a, set, out),
        SendOp::Chunk(size, puts) => put_chunk(alloc, *size, puts, set, out),
        SendOp::RowCopy(path) => put_row(mint, spot, path, Order::Little, set, out),
        SendOp::RowSwap(path) => put_row(mint, spot, path, Order::Big, set, out),
        SendOp::RowWide(path, order) => put_wide(mint, spot, path, *order, set, out),
        SendOp::Each(path, body) => {
            let inner = element_at(mint, spot_at(mint, path.as_slice(), spot));
            let entry = closed(&turn_of(mint, inner, body), set);
            put_over(out, 2, path)?;
            let behind = put_ops(alloc, mint, inner, body, &entry, out)?;
            match behind {
                Some(_) => Ok(Some(entry)),
                None => Ok(None),
            }
        }
        SendOp::Switch(path, cases, last) => {
            let place = spot_at(mint, path.as_slice(), spot);
            put_over(out, 3, path)?;
            put_ways(alloc, mint, place, cases, last, set, out)
        }
        SendOp::Some(path, body) => {
            let inner = present_at(mint, spot_at(mint, path.as_slice(), spot));
            put_over(out, 4, path)?;
            let there = put_ops(alloc, mint, inner, body, set, out)?;
            match there {
                Some(behind) => Ok(Some(sum(set, &behind))),
                None => Ok(None),
            }
        }
        SendOp::Call(k, path) => put_call(*k, path, out),
        SendOp::Patch(at, sub, order) => {
            put_patch(out, *at, *sub, *order)?;
            Ok(Some(*set))
        }
    }
}

/// Puts what is left of the bodies of a switch over a place.
#[cycle(put)]
fn put_ways(
    alloc: Global,
    mint: &Mint,
    place: Spot,
    cases: &SendCases,
    last: &SendLast,
    set: &Set,
    out: &mut Numbers,
) -> Result<Option<Set>, NoMemory>
    ensures { IfOk result (λ o. AreWaysPut o mint.now place (cases_seen cases.now last.now)
        (set_of set.now) out.old out.new) }
{
    let mut total = none();
    for case in cases.as_slice() {
        let spot = arm_spot_at(mint, place, &case.0);
        put_way(out, &case.0)?;
        let next = put_ops(alloc, mint, spot, &case.1, set, out)?;
        let Some(behind) = next else {
            return Ok(None);
        };
        total = sum(&total, &behind);
    }
    match last {
        Some(body) => {
            let spot = rest_spot_at(mint, place, cases);
            put_number(out, 1)?;
            let rest = put_ops(alloc, mint, spot, body, set, out)?;
            match rest {
                Some(behind) => Ok(Some(sum(&total, &behind))),
                None => Ok(None),
            }
        }
        None => {
            put_number(out, 0)?;
            Ok(Some(sum(&total, &none())))
        }
    }
}

/// Puts the number of a case.
fn put_way(out: &mut Numbers, n: &i128) -> Result<(), NoMemory>
    ensures { OnOk result (IsPut out.old (λ rest. 2 ∷ integer_text n.now rest) out.new) }
{
    put_number(out, 2)?;
    put_integer(out, n)
}

/// Puts the zeros of an align, or its multiple where they are not known.
fn put_pad(out: &mut Numbers, a: u32, set: &Set) -> Result<(), NoMemory>
    requires { is_width a ≡ true }
    ensures { OnOk result ((i : Items) (rest : List ℕ)
        → out.old ++ items_text (align_items a (set_of set.now) i) rest ≡ out.new ++ items_text i rest) }
{
    if size(set) == 1 {
        put_zeros(out, gap(single(set), a))
    } else {
        put_number(out, 1)?;
        put_number(out, a)
    }
}

fn put_align(a: u32, set: &Set, out: &mut Numbers) -> Result<Option<Set>, NoMemory>
    ensures { IfOk result (λ o. (nodes : List Level) (s : Option ℕ)
        → IsOpPut o nodes s (align a) (set_of set.now) out.old out.new) }
{
    if !is_width(a) {
        return Ok(None);
    }
    put_pad(out, a, set)?;
    Ok(Some(aligned(a, set)))
}

fn put_chunk(
    alloc: Global,
    size: u32,
    puts: &Puts,
    set: &Set,
    out: &mut Numbers,
) -> Result<Option<Set>, NoMemory>
    ensures { IfOk result (λ o. (nodes : List Level) (s : Option ℕ)
        → IsOpPut o nodes s (chunk size puts.now) (set_of set.now) out.old out.new) }
{
    let told = put_cells(alloc, size, puts, out)?;
    if told {
        Ok(Some(moved(size, set)))
    } else {
        Ok(None)
    }
}

/// Puts a row, its numbers of a width in an order.
fn put_numbers(out: &mut Numbers, path: &Path, width: u32, order: Order) -> Result<(), NoMemory>
    requires { is_width width ≡ true }
    ensures { OnOk result ((i : Items) (rest : List ℕ)
        → out.old ++ items_text (row_items path.now width order i) rest ≡ out.new ++ items_text i rest) }
{
    put_over(out, 2, path)?;
    put_itself(out, width, order)?;
    put_number(out, 0)
}

/// Puts the image of a row.
fn put_row(
    mint: &Mint,
    spot: Spot,
    path: &Path,
    order: Order,
    set: &Set,
    out: &mut Numbers,
) -> Result<Option<Set>, NoMemory>
    ensures { IfOk result (λ o. IsOpPut o mint.now spot (row_piece order path.now) (set_of set.now)
        out.old out.new) }
{
    let found = row_kind_at(mint, spot_at(mint, path.as_slice(), spot));
    let Some(kind) = found else {
        return Ok(None);
    };
    let octets = width(kind);
    put_numbers(out, path, octets, order)?;
    Ok(Some(closed_by(set, octets)))
}

/// Puts a row, each of its numbers in four octets.
fn put_wide(
    mint: &Mint,
    spot: Spot,
    path: &Path,
    order: Order,
    set: &Set,
    out: &mut Numbers,
) -> Result<Option<Set>, NoMemory>
    ensures { IfOk result (λ o. IsOpPut o mint.now spot (row_wide path.now order) (set_of set.now)
        out.old out.new) }
{
    let found = row_kind_at(mint, spot_at(mint, path.as_slice(), spot));
    let Some(_) = found else {
        return Ok(None);
    };
    put_numbers(out, path, 4, order)?;
    Ok(Some(closed_by(set, 4)))
}

fn put_call(k: u32, path: &Path, out: &mut Numbers) -> Result<Option<Set>, NoMemory>
    ensures { IfOk result (λ o. (nodes : List Level) (s : Option ℕ) (S : Residues)
        → IsOpPut o nodes s (call k path.now) S out.old out.new) }
{
    put_number(out, 5)?;
    put_over(out, k, path)?;
    Ok(Some(every()))
}

fn put_patch(out: &mut Numbers, at: u32, sub: u32, order: Order) -> Result<(), NoMemory>
    ensures { OnOk result (IsPut out.old (λ rest. 6 ∷ (at ∷ (sub ∷ (order_text order ∷ rest)))) out.new) }
{
    put_number(out, 6)?;
    put_number(out, at)?;
    put_number(out, sub)?;
    put_number(out, order_number(order))
}
