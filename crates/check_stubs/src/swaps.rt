//! Rows that travel as blocks, in either order of their octets.

ghost use Rattle.std.specs.Prelude.{◌≡◌, ◌≢◌, ◌%◌, length, IfSome};
ghost use Rattle.mint.specs.Kinds.{width};
ghost use Rattle.kit_swap.specs.Swapped.{IsSwapWidth};

use check_rows::{Bad, member, octets, reported, word};
use kit_base::NoMemory;
use mint::kind::Kind;
use mint::row::Row;
use raw_buf::{RecvView, SendBuf};
use serde_json::Value as Json;
use std::alloc::Global;
use wire_def::Order;

/// A kind of numbers of so many octets.
fn kind_of(octets: u32) -> Option<Kind>
    ensures { IfSome result (λ k. (k ≢ Kind.Bool) × IsSwapWidth (width k)) }
{
    match octets {
        2 => Some(Kind::U16),
        4 => Some(Kind::I32),
        8 => Some(Kind::U64),
        _ => None,
    }
}

/// Whether a row is sent as these octets, and received from them.
fn travels(
    alloc: Global,
    kind: Kind,
    order: Order,
    image: &[u8],
    sent: &[u8],
) -> Result<bool, NoMemory>
    requires kind { kind ≢ Kind.Bool }
    requires width { IsSwapWidth (width kind) }
    requires whole { length image.now % width kind ≡ 0 }
{
    let mut row = Row::new(alloc, kind);
    row.append_image(image)?;
    let mut buf = SendBuf::new(alloc)?;
    buf.ensure(row.image().len())?;
    match order {
        Order::Big => buf.row_swap(&row),
        Order::Little => buf.row_copy(&row),
    }
    if buf.octets() != sent {
        return Ok(false);
    }
    let mut view = RecvView::new(buf.octets());
    let Some(size) = row.len().checked_mul(kind.width()) else {
        return Ok(false);
    };
    if !view.need(size) {
        return Ok(false);
    }
    let back = view.row(alloc, kind, row.len(), order)?;
    Ok(back.image() == image)
}

/// Whether the first numbers of a row travel as blocks, however many they are: as they are, and with
/// the octets of each reversed as a case says.
pub fn swapped(alloc: Global, row: &Json) -> Result<String, Bad> {
    let image = octets(alloc, member(row, "octets")?)?;
    let turned = octets(alloc, member(row, "turned")?)?;
    let Some(kind) = kind_of(word(member(row, "width")?)?) else {
        return Err(Bad::Row("no width"));
    };
    if turned.len() != image.len() {
        return reported(alloc, "another length");
    }
    for size in 0..=image.len() {
        if size % kind.width() == 0 {
            let first = &image.as_slice()[..size];
            let other = &turned.as_slice()[..size];
            if !travels(alloc, kind, Order::Big, first, other)?
                || !travels(alloc, kind, Order::Little, first, first)?
            {
                return reported(alloc, "other octets");
            }
        }
    }
    reported(alloc, "alike")
}
