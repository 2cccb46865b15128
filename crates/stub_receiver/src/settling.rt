//! The value that a draft has become.

ghost use Rattle.std.specs.Prelude.{◌≡◌, ◌<◌, length, slice_get, slice_set, Some, IfOk};
ghost use Rattle.mint.specs.Blank.{blank};
ghost use Rattle.mint.specs.Types.{type_at};
ghost use Rattle.mint.specs.Values.{seen, all_seen};
ghost use Rattle.cast_stub.specs.Draft.{settle, settles};
ghost use Rattle.cast_stub.specs.Parts.{IsThere};
ghost use Rattle.stub_receiver.specs.Drawn.{drawn, all_drawn};

use crate::draft::{Filling, Fillings};
use kit_base::NoMemory;
use mint::blank_value::blank;
use mint::table::Mint;
use mint::value::{Value, Values};
use std::alloc::Global;

/// The blank value of a node, which is void where the table does not have the node.
#[tactic(auto, using(crate::proofs::Becoming::settling))]
fn blank_at(alloc: Global, mint: &Mint, id: u32) -> Result<Value, NoMemory>
    ensures { IfOk result (λ v. seen v ≡ blank (type_at mint.now id)) }
{
    match mint.node(id) {
        Some(_) => blank(alloc, mint, id),
        None => Ok(Value::Void),
    }
}

/// The value of a draft in which nothing waits to be filled.
#[cycle(settle)]
#[tactic(auto, using(crate::proofs::Becoming::settling))]
pub fn settle(alloc: Global, mint: &Mint, draft: Filling) -> Result<Value, NoMemory>
    requires { IsThere (settle (drawn mint.now draft)) }
    ensures { IfOk result (λ v. settle (drawn mint.now draft) ≡ Some (seen v)) }
{
    match draft {
        Filling::Raw(id) => blank_at(alloc, mint, id),
        Filling::Digit(_) => unreachable!(),
        Filling::Listed(_, _) => unreachable!(),
        Filling::Lined(_, _) => unreachable!(),
        Filling::Tagged(_, _) => unreachable!(),
        Filling::Flagged(_) => unreachable!(),
        Filling::Done(value) => Ok(value),
        Filling::Fields(fields) => Ok(Value::Group(settle_all(alloc, mint, fields)?)),
    }
}

#[cycle(settle)]
#[tactic(auto, using(crate::proofs::Becoming::settling))]
fn settle_all(alloc: Global, mint: &Mint, fields: Fillings) -> Result<Values, NoMemory>
    requires { IsThere (settles (all_drawn mint.now fields.items)) }
    ensures { IfOk result (λ vs. settles (all_drawn mint.now fields.items) ≡ Some (all_seen vs)) }
{
    let mut rest = fields;
    let mut values = Values::with_room(alloc, rest.len())?;
    for i in 0..count(&rest) {
        let mut field = Filling::Raw(0);
        exchange(&mut rest, i, &mut field);
        values.push(settle(alloc, mint, field)?)?;
    }
    Ok(values)
}

/// How many fields there are.
fn count(fields: &Fillings) -> usize
    ensures { result ≡ length fields.now.items }
{
    fields.len()
}

/// Exchanges the draft of a field for another.
fn exchange(fields: &mut Fillings, at: usize, field: &mut Filling)
    requires { at < length fields.old.items }
    ensures items { fields.new.items ≡ slice_set fields.old.items at field.old }
    ensures item { slice_get fields.old.items at ≡ Some field.new }
{
    std::mem::swap(&mut fields[at], field);
}
