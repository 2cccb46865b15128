//! Numbers of octets that are put into the parts of a draft.

ghost use Rattle.std.specs.Prelude.{◌≡◌, ◌<◌, ◌^◌};
ghost use Rattle.mint.specs.Values.{num};
ghost use Rattle.mint.specs.Types.{type_at};
ghost use Rattle.wire_def.specs.Orders.{width_as};
ghost use Rattle.cast_stub.specs.Draft.{done, tagged};
ghost use Rattle.cast_stub.specs.Fill.{into};
ghost use Rattle.cast_stub.specs.Into.{num_into, tag_into, flag_into, count_into};
ghost use Rattle.cast_stub.specs.Runs.{Holds};
ghost use Rattle.stub_receiver.specs.Drawn.{drawn};
ghost use Rattle.stub_receiver.specs.Ran.{place_of, Tested, Took};

use crate::counts::counted;
use crate::draft::Filling;
use crate::numbers::{digit_number, scalar_number, tag_number};
use cast_stub::Get;
use mint::node::{Node, arm_of};
use mint::table::Mint;
use mint::value::Value;
use raw_buf::RecvView;

/// The number that is read, where it is one of the part's.
#[tactic(auto, using(crate::proofs::Getting::getting))]
fn number_for(mint: &Mint, width: u32, m: u64, part: &Filling, view: &RecvView<'_>) -> Option<i128>
    requires fits { m < 256 ^ width }
    requires holds { Holds (num_into (width_as width) m (drawn mint.now part.now) (place_of view.now)) }
    ensures { Took (λ n. done (num n)) result (place_of view.now)
        (num_into (width_as width) m (drawn mint.now part.now) (place_of view.now)) }
{
    match part {
        Filling::Raw(id) => scalar_number(mint, *id, width, m),
        Filling::Digit(id) => digit_number(mint, *id, width, m),
        Filling::Listed(_, _) => unreachable!(),
        Filling::Lined(_, _) => unreachable!(),
        Filling::Tagged(_, _) => unreachable!(),
        Filling::Flagged(_) => unreachable!(),
        Filling::Done(_) => unreachable!(),
        Filling::Fields(_) => unreachable!(),
    }
}

/// The draft of a number that was read.
#[tactic(auto, using(crate::proofs::Drafting::drawing))]
fn number_read(mint: &Mint, part: &mut Filling, n: &i128)
    ensures { drawn mint.now part.new ≡ done (num n.now) }
{
    *part = Filling::Done(Value::Num(*n));
}

/// A number is read, where it is one of the part's.
fn num_into(mint: &Mint, width: u32, m: u64, part: &mut Filling, view: &RecvView<'_>) -> bool
    requires fits { m < 256 ^ width }
    requires holds { Holds (num_into (width_as width) m (drawn mint.now part.old) (place_of view.now)) }
    ensures { Tested result (drawn mint.now part.new) (place_of view.now)
        (num_into (width_as width) m (drawn mint.now part.old) (place_of view.now)) }
{
    match number_for(mint, width, m, part, view) {
        Some(n) => {
            number_read(mint, part, &n);
            true
        }
        None => false,
    }
}

/// The number of a union is read, where it has an arm.
#[tactic(auto, using(crate::proofs::Getting::getting))]
fn tag_into(mint: &Mint, width: u32, m: u64, part: &Filling, view: &RecvView<'_>) -> Option<Filling>
    requires fits { m < 256 ^ width }
    requires holds { Holds (tag_into (width_as width) m (drawn mint.now part.now) (place_of view.now)) }
    ensures { Took (drawn mint.now) result (place_of view.now)
        (tag_into (width_as width) m (drawn mint.now part.now) (place_of view.now)) }
{
    match part {
        Filling::Raw(id) => {
            let Some(node) = mint.node(*id) else {
                unreachable!()
            };
            match node {
                Node::Choice(tag, arms, other) => {
                    let Some(n) = tag_number(tag, width, m) else {
                        return None;
                    };
                    match arm_of(arms, *other, &n) {
                        Some(item) => Some(tag_read(mint, &n, item)),
                        None => None,
                    }
                }
                Node::Void => unreachable!(),
                Node::Num(_) => unreachable!(),
                Node::Enum(_) => unreachable!(),
                Node::Text(_) => unreachable!(),
                Node::Row(_, _) => unreachable!(),
                Node::Group(_) => unreachable!(),
                Node::Items(_, _) => unreachable!(),
                Node::Maybe(_) => unreachable!(),
            }
        }
        Filling::Digit(_) => unreachable!(),
        Filling::Listed(_, _) => unreachable!(),
        Filling::Lined(_, _) => unreachable!(),
        Filling::Tagged(_, _) => unreachable!(),
        Filling::Flagged(_) => unreachable!(),
        Filling::Done(_) => unreachable!(),
        Filling::Fields(_) => unreachable!(),
    }
}

/// The draft of a union whose number was read.
#[tactic(auto, using(crate::proofs::Drafting::drawing))]
fn tag_read(mint: &Mint, n: &i128, item: u32) -> Filling
    ensures { drawn mint.now result ≡ tagged n.now (type_at mint.now item) }
{
    Filling::Tagged(*n, item)
}

/// Whether a value is there is read.
#[tactic(auto, using(crate::proofs::Getting::getting))]
fn flag_into(mint: &Mint, width: u32, m: u64, part: &mut Filling, view: &RecvView<'_>) -> bool
    requires holds { Holds (flag_into (width_as width) m (drawn mint.now part.old) (place_of view.now)) }
    ensures { Tested result (drawn mint.now part.new) (place_of view.now)
        (flag_into (width_as width) m (drawn mint.now part.old) (place_of view.now)) }
{
    match part {
        Filling::Raw(id) => {
            let id = *id;
            let Some(node) = mint.node(id) else {
                unreachable!()
            };
            match node {
                Node::Maybe(item) => {
                    match m {
                        0 => {
                            *part = Filling::Done(Value::Opt(None));
                            true
                        }
                        1 => {
                            *part = Filling::Flagged(*item);
                            true
                        }
                        _ => false,
                    }
                }
                Node::Void => unreachable!(),
                Node::Num(_) => unreachable!(),
                Node::Enum(_) => unreachable!(),
                Node::Text(_) => unreachable!(),
                Node::Row(_, _) => unreachable!(),
                Node::Group(_) => unreachable!(),
                Node::Items(_, _) => unreachable!(),
                Node::Choice(_, _, _) => unreachable!(),
            }
        }
        Filling::Digit(_) => unreachable!(),
        Filling::Listed(_, _) => unreachable!(),
        Filling::Lined(_, _) => unreachable!(),
        Filling::Tagged(_, _) => unreachable!(),
        Filling::Flagged(_) => unreachable!(),
        Filling::Done(_) => unreachable!(),
        Filling::Fields(_) => unreachable!(),
    }
}

/// The length of a list, row or text is read.
#[tactic(auto, using(crate::proofs::Getting::getting))]
pub fn count_into(
    mint: &Mint,
    mul: u32,
    add: u32,
    m: u64,
    part: &mut Filling,
    view: &RecvView<'_>,
) -> bool
    requires holds { Holds (count_into mul add m (drawn mint.now part.old) (place_of view.now)) }
    ensures { Tested result (drawn mint.now part.new) (place_of view.now)
        (count_into mul add m (drawn mint.now part.old) (place_of view.now)) }
{
    match part {
        Filling::Raw(id) => {
            let id = *id;
            let Some(node) = mint.node(id) else {
                unreachable!()
            };
            match node {
                Node::Items(item, count) => {
                    let Some(n) = counted(*count, mul, add, m) else {
                        return false;
                    };
                    *part = Filling::Listed(*item, n);
                    true
                }
                Node::Text(count) => {
                    let Some(n) = counted(*count, mul, add, m) else {
                        return false;
                    };
                    *part = Filling::Lined(id, n);
                    true
                }
                Node::Row(_, count) => {
                    let Some(n) = counted(*count, mul, add, m) else {
                        return false;
                    };
                    *part = Filling::Lined(id, n);
                    true
                }
                Node::Void => unreachable!(),
                Node::Num(_) => unreachable!(),
                Node::Enum(_) => unreachable!(),
                Node::Group(_) => unreachable!(),
                Node::Choice(_, _, _) => unreachable!(),
                Node::Maybe(_) => unreachable!(),
            }
        }
        Filling::Digit(_) => unreachable!(),
        Filling::Listed(_, _) => unreachable!(),
        Filling::Lined(_, _) => unreachable!(),
        Filling::Tagged(_, _) => unreachable!(),
        Filling::Flagged(_) => unreachable!(),
        Filling::Done(_) => unreachable!(),
        Filling::Fields(_) => unreachable!(),
    }
}

/// What a get does with the number of its octets.
pub fn into(
    mint: &Mint,
    get: &Get,
    width: u32,
    m: u64,
    part: &mut Filling,
    view: &RecvView<'_>,
) -> bool
    requires fits { m < 256 ^ width }
    requires holds { Holds (into get.now (width_as width) m (drawn mint.now part.old) (place_of view.now)) }
    ensures { Tested result (drawn mint.now part.new) (place_of view.now)
        (into get.now (width_as width) m (drawn mint.now part.old) (place_of view.now)) }
{
    match get {
        Get::Num(_, _, _, _) => num_into(mint, width, m, part, view),
        Get::Tag(_, _, _, _) => {
            match tag_into(mint, width, m, part, view) {
                Some(new) => {
                    *part = new;
                    true
                }
                None => false,
            }
        }
        Get::Flag(_, _, _, _) => flag_into(mint, width, m, part, view),
        Get::Count(_, _, mul, add, _, _) => count_into(mint, *mul, *add, m, part, view),
        Get::Const(_, _) => unreachable!(),
    }
}
