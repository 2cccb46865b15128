//! The numbers of a row, whose octets are known to be there.

ghost use Rattle.std.specs.Prelude.{◌≡◌, ◌≤◌, ◌*◌, IfOk, drop};
ghost use Rattle.std.specs.List.{list_all};
ghost use Rattle.mint.specs.Kinds.{in_range, width};
ghost use Rattle.wire_def.specs.Arrays.{kind_of};
ghost use Rattle.wire_def.specs.Orders.{IsWidth, width_as};
ghost use Rattle.cast_stub.specs.Into.{fill_block, is_digit, numbers_at, row_into, wide_into};
ghost use Rattle.cast_stub.specs.Runs.{Holds};
ghost use Rattle.stub_receiver.specs.Drawn.{drawn, array_at};
ghost use Rattle.stub_receiver.specs.Ran.{place_of, AreRead, Gave};

use crate::draft::Filling;
use crate::errors::{Halt, found, tested};
use crate::looping::{Elements, elements_of};
use crate::numbers::{digit_number, kind_at};
use mint::fits::all_letters;
use mint::kind::Kind;
use mint::node::Node;
use mint::row::Row;
use mint::table::Mint;
use mint::value::Value;
use raw_buf::RecvView;
use std::alloc::Global;
use wire_def::Order;

/// The numbers of a row, each in as many octets as its kind has.
pub fn row_into(
    alloc: Global,
    mint: &Mint,
    order: Order,
    part: &Filling,
    view: &mut RecvView<'_>,
) -> Result<Filling, Halt>
    requires { Holds (row_into order (drawn mint.now part.now) (place_of view.old)) }
    ensures done { Gave (drawn mint.now) result (place_of view.new)
        (row_into order (drawn mint.now part.now) (place_of view.old)) }
    ensures octets { view.new.octets ≡ view.old.octets }
{
    match elements_of(mint, part) {
        Elements::Numbers(id, n) => whole_block(alloc, mint, order, id, n, view),
        Elements::Values(_, _) => unreachable!(),
        Elements::Nothing => unreachable!(),
    }
}

/// The numbers of a row, each in four octets.
pub fn wide_into(
    alloc: Global,
    mint: &Mint,
    order: Order,
    part: &Filling,
    view: &mut RecvView<'_>,
) -> Result<Filling, Halt>
    requires { Holds (wide_into order (drawn mint.now part.now) (place_of view.old)) }
    ensures done { Gave (drawn mint.now) result (place_of view.new)
        (wide_into order (drawn mint.now part.now) (place_of view.old)) }
    ensures octets { view.new.octets ≡ view.old.octets }
{
    match elements_of(mint, part) {
        Elements::Numbers(id, n) => fill_block(alloc, mint, order, 4, id, n, view),
        Elements::Values(_, _) => unreachable!(),
        Elements::Nothing => unreachable!(),
    }
}

/// So many numbers of a node's row, each in the octets of its kind, read at once.
fn whole_block(
    alloc: Global,
    mint: &Mint,
    order: Order,
    id: u32,
    n: u32,
    view: &mut RecvView<'_>,
) -> Result<Filling, Halt>
    requires { Holds (fill_block order (width (kind_of (array_at mint.now id))) (array_at mint.now id) n
        (place_of view.old)) }
    ensures done { Gave (drawn mint.now) result (place_of view.new) (fill_block order
        (width (kind_of (array_at mint.now id))) (array_at mint.now id) n (place_of view.old)) }
    ensures octets { view.new.octets ≡ view.old.octets }
{
    let kind = kind_at(mint, id);
    let _rest = view.rest();
    if kind == Kind::Bool {
        return fill_block(alloc, mint, order, 1, id, n, view);
    }
    let row = view.row(alloc, kind, n as usize, order)?;
    tested(are_digits(mint, id, &row))?;
    Ok(Filling::Done(Value::Row(row)))
}

/// Whether the numbers of a row are all a node's.
#[tactic(auto, using(crate::proofs::Drafting::drafting))]
fn are_digits(mint: &Mint, id: u32, row: &Row) -> bool
    requires { row.now.kind ≡ kind_of (array_at mint.now id) }
    ensures { result ≡ list_all (is_digit (array_at mint.now id)) row.now.numbers }
{
    let Some(node) = mint.node(id) else {
        return all_letters(row);
    };
    match node {
        Node::Row(_, _) => are_in_range(row),
        Node::Void => all_letters(row),
        Node::Num(_) => all_letters(row),
        Node::Enum(_) => all_letters(row),
        Node::Text(_) => all_letters(row),
        Node::Group(_) => all_letters(row),
        Node::Items(_, _) => all_letters(row),
        Node::Choice(_, _, _) => all_letters(row),
        Node::Maybe(_) => all_letters(row),
    }
}

/// The numbers of a row are in the range of its kind.
fn are_in_range(row: &Row) -> bool
    ensures { result ≡ list_all (in_range row.now.kind) row.now.numbers }
{
    let _kind = row.kind();
    true
}

/// So many numbers of a node's row, each in so many octets.
fn fill_block(
    alloc: Global,
    mint: &Mint,
    order: Order,
    width: u32,
    id: u32,
    n: u32,
    view: &mut RecvView<'_>,
) -> Result<Filling, Halt>
    requires width { IsWidth width }
    requires holds { Holds (fill_block order width (array_at mint.now id) n (place_of view.old)) }
    ensures done { Gave (drawn mint.now) result (place_of view.new)
        (fill_block order width (array_at mint.now id) n (place_of view.old)) }
    ensures octets { view.new.octets ≡ view.old.octets }
{
    let row = numbers_at(alloc, mint, order, width, id, n, view)?;
    view.take(n as usize * width as usize);
    Ok(Filling::Done(Value::Row(row)))
}

/// The numbers themselves, where each is one of the node's.
fn numbers_at(
    alloc: Global,
    mint: &Mint,
    order: Order,
    width: u32,
    id: u32,
    n: u32,
    view: &RecvView<'_>,
) -> Result<Row, Halt>
    requires width { IsWidth width }
    requires near { n * width ≤ view.now.near }
    ensures numbers { AreRead result (numbers_at (array_at mint.now id) order (width_as width) width n
        (drop view.now.pos view.now.octets)) }
    ensures kind { IfOk result (λ r. r.kind ≡ kind_of (array_at mint.now id)) }
{
    let _left = octets_left(view);
    let mut row = Row::new(alloc, kind_at(mint, id));
    let mut off = 0usize;
    for _ in 0..n {
        let m = view.load(off, width as usize, order);
        let number = found(digit_number(mint, id, width, m))?;
        row.push(number)?;
        off += width as usize;
    }
    Ok(row)
}

/// How many octets are left, at least as many as are known to be there.
fn octets_left(view: &RecvView<'_>) -> usize
    ensures { view.now.near ≤ result }
{
    view.rest().len()
}
