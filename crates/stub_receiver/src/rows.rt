//! Tests for as many octets as a length says.

ghost use Rattle.std.specs.Prelude.{◌≡◌, ◌+◌, ◌*◌, option_map, slice_get};
ghost use Rattle.std.specs.Option.{option_copied};
ghost use Rattle.cast_stub.specs.Draft.{length_in, done};
ghost use Rattle.mint.specs.Values.{seen};
ghost use Rattle.cast_stub.specs.Fill.{in_draft, field_at, part};
ghost use Rattle.cast_stub.specs.Into.{needed};
ghost use Rattle.cast_stub.specs.Runs.{if_some};
ghost use Rattle.stub_receiver.specs.Drawn.{drawn, all_drawn};
ghost use Rattle.stub_receiver.specs.Ran.{place_of, Tested};
ghost use Rattle.cast_stub.specs.Runs.{Holds};

use crate::draft::{Filling, Fillings};
use cast_stub::Path;
use mint::node::Node;
use mint::table::Mint;
use mint::value::Value;
use raw_buf::RecvView;

/// The draft of a field, where it is there.
fn item(fields: &Fillings, n: usize) -> Option<&Filling>
    ensures { option_copied result ≡ slice_get fields.now.items n }
{
    fields.get(n)
}

/// The draft at a place.
#[tactic(auto, using(crate::proofs::Looking::fields))]
fn nth<'a>(mint: &Mint, fields: &'a Fillings, n: u32) -> Option<&'a Filling>
    ensures { option_map (λ w. drawn mint.now w.now) result
        ≡ field_at n (all_drawn mint.now fields.now.items) }
{
    item(fields, n as usize)
}

/// The draft of a field, where there is a struct that has it.
#[tactic(auto, using(crate::proofs::Drafting::drawing))]
fn field_of<'a>(mint: &Mint, draft: &'a Filling, n: u32) -> Option<&'a Filling>
    ensures { option_map (λ w. drawn mint.now w.now) result ≡ in_draft n (drawn mint.now draft.now) }
{
    match draft {
        Filling::Fields(fields) => nth(mint, fields, n),
        Filling::Raw(_) => None,
        Filling::Digit(_) => None,
        Filling::Listed(_, _) => None,
        Filling::Lined(_, _) => None,
        Filling::Tagged(_, _) => None,
        Filling::Flagged(_) => None,
        Filling::Done(_) => None,
    }
}

/// The part at a path.
#[tactic(auto, using(crate::proofs::Looking::parts))]
fn part_at<'a>(mint: &Mint, draft: &'a Filling, path: &Path) -> Option<&'a Filling>
    ensures { option_map (λ w. drawn mint.now w.now) result ≡ part path.now (drawn mint.now draft.now) }
{
    let mut here = draft;
    for n in path.as_slice() {
        match field_of(mint, here, *n) {
            Some(next) => here = next,
            None => return None,
        }
    }
    Some(here)
}

/// How many elements a list, row or text has.
#[tactic(auto, using(crate::proofs::Looking::lengths))]
fn length_at(mint: &Mint, draft: &Filling) -> Option<usize>
    ensures { result ≡ length_in (drawn mint.now draft.now) }
{
    match draft {
        Filling::Raw(id) => {
            let Some(node) = mint.node(*id) else {
                return None;
            };
            match node {
                Node::Items(_, count) => Some(count.least() as usize),
                Node::Text(count) => Some(count.least() as usize),
                Node::Row(_, count) => Some(count.least() as usize),
                Node::Void => None,
                Node::Num(_) => None,
                Node::Enum(_) => None,
                Node::Group(_) => None,
                Node::Choice(_, _, _) => None,
                Node::Maybe(_) => None,
            }
        }
        Filling::Listed(_, n) => Some(*n as usize),
        Filling::Lined(_, n) => Some(*n as usize),
        Filling::Done(value) => length_of_value(mint, value),
        Filling::Digit(_) => None,
        Filling::Tagged(_, _) => None,
        Filling::Flagged(_) => None,
        Filling::Fields(_) => None,
    }
}

/// How many elements a value has that was read.
#[tactic(auto, using(crate::proofs::Looking::lengths))]
fn length_of_value(mint: &Mint, value: &Value) -> Option<usize>
    ensures { result ≡ length_in (done (seen value.now)) }
{
    match value {
        Value::Items(values) => Some(values.len()),
        Value::Row(row) => Some(row.len()),
        Value::Void => None,
        Value::Num(_) => None,
        Value::Group(_) => None,
        Value::Arm(_, _) => None,
        Value::Opt(None) => None,
        Value::Opt(Some(_)) => None,
    }
}

/// Sees that so many octets follow as the length of a part, multiplied and raised.
pub fn need_row(
    mint: &Mint,
    path: &Path,
    unit: u32,
    extra: u32,
    draft: &Filling,
    view: &mut RecvView<'_>,
) -> bool
    requires { Holds (if_some (part path.now (drawn mint.now draft.now)) (λ x. if_some (length_in x)
        (λ n. needed (n * unit + extra) (drawn mint.now draft.now) (place_of view.old)))) }
    ensures done { Tested result (drawn mint.now draft.now) (place_of view.new)
        (if_some (part path.now (drawn mint.now draft.now)) (λ x. if_some (length_in x)
        (λ n. needed (n * unit + extra) (drawn mint.now draft.now) (place_of view.old)))) }
    ensures octets { view.new.octets ≡ view.old.octets }
{
    let Some(part) = part_at(mint, draft, path) else {
        unreachable!()
    };
    let Some(n) = length_at(mint, part) else {
        unreachable!()
    };
    let wanted = (n as u128) * u128::from(unit) + u128::from(extra);
    if wanted > (view.rest().len() as u128) {
        return false;
    }
    view.need(wanted as usize)
}
