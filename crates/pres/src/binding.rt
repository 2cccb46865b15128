//! Binding a unit to a back end.

ghost use Rattle.std.specs.Prelude.{◌≡◌, ◌≢◌, ◌<◌, false, true, length, map, IfOk, IfErr, OnOk, Some, None};
ghost use Rattle.std.specs.List.{AllByRecursion};
ghost use Rattle.aoi.specs.Plain.{plain, IsSoundPlain};
ghost use Rattle.pres.specs.declared.ops.Op.{Op as OpRecord};
ghost use Rattle.pres.specs.Bindings.{IsBinding};
ghost use Rattle.pres.specs.Faces.{faces};
ghost use Rattle.pres.specs.Faults.{bind_fault};
ghost use Rattle.pres.specs.Made.{all_made};
ghost use Rattle.pres.specs.Offers.{offer_at, offers};
ghost use Rattle.pres.specs.Sizes.{has_deep, is_too_wide};

use crate::draft::Draft;
use crate::faults::{has_long_names, is_deep, is_over};
use crate::raises::raise_tables;
use crate::sizes::Size;
use crate::{BindErr, Bound, Op, Ops, Pres};
use aoi::Unit;
use mint::table::Mint;
use std::alloc::Global;
use wire_def::Back;

/// Refuses types of more than 32 levels. It takes no memory.
fn check_depth(sizes: &[Size]) -> Result<(), BindErr>
    ensures ok { OnOk result (has_deep sizes.now ≡ false) }
    ensures cause { IfErr result (λ e. (e ≡ BindErr.Deep) × (has_deep sizes.now ≡ true)) }
{
    if is_deep(sizes) {
        return Err(BindErr::Deep);
    }
    Ok(())
}

/// Refuses a name that is too long, and messages that spread over too many nodes. It takes no memory.
fn check_width(unit: &Unit, sizes: &[Size], ops: &[Op]) -> Result<(), BindErr>
    requires { AllByRecursion
        (λ (o : OpRecord). (o.request < length sizes.now) × (o.reply < length sizes.now)) ops.now }
    ensures ok { OnOk result (is_too_wide (plain unit.now) sizes.now ops.now ≡ false) }
    ensures cause { IfErr result
        (λ e. (e ≡ BindErr.Wide) × (is_too_wide (plain unit.now) sizes.now ops.now ≡ true)) }
{
    if has_long_names(unit.interfaces().as_slice()) || is_over(sizes, ops) {
        return Err(BindErr::Wide);
    }
    Ok(())
}

/// The nodes, shapes and operations of a unit.
fn draw(alloc: Global, unit: &Unit, back: Back) -> Result<(Mint, Pres, Ops), BindErr>
    requires { IsSoundPlain (plain unit.now) }
    ensures binding { IfOk result (λ r. IsBinding
        (record { nodes = r.0; shapes = r.1; ops = r.2; unit = plain unit.now; back = back })) }
    ensures nodes { IfOk result (λ r. faces r.0 r.1 ≡ all_made (plain unit.now) back) }
    ensures ok { OnOk result (bind_fault (plain unit.now) back ≡ None) }
    ensures cause { IfErr result (λ e. e ≢ BindErr.NoMemory → bind_fault (plain unit.now) back ≡ Some e) }
{
    let mut draft = Draft::new(alloc);
    let ops = draft.draw_unit(alloc, unit, back)?;
    let sizes = draft.sizes(alloc)?;
    check_depth(&sizes)?;
    let (mint, pres) = draft.build(alloc)?;
    check_width(unit, &sizes, ops.as_slice())?;
    Ok((mint, pres, ops))
}

/// Binds a unit to a back end: gives it the nodes of its types and messages, or the first reason
/// why not. No type is unfolded: the work is that of the unit as it is written, and the sorting of
/// its labels and arms.
pub fn bind(alloc: Global, unit: Unit, back: Back) -> Result<Bound, BindErr>
    requires { IsSoundPlain (plain unit) }
    // What is bound.
    ensures unit { IfOk result (λ b. b.unit ≡ plain unit) }
    ensures back { IfOk result (λ b. b.back ≡ back) }
    ensures stands { IfOk result (λ b. IsBinding b) }
    ensures offers { IfOk result (λ b. map (offer_at (faces b.nodes b.shapes)) b.ops ≡ offers b.unit b.back) }
    ensures nodes { IfOk result (λ b. faces b.nodes b.shapes ≡ all_made (plain unit) back) }
    // When it is not.
    ensures ok { OnOk result (bind_fault (plain unit) back ≡ None) }
    ensures cause { IfErr result (λ e. e ≢ BindErr.NoMemory → bind_fault (plain unit) back ≡ Some e) }
{
    let (mint, pres, ops) = draw(alloc, &unit, back)?;
    let tables = raise_tables(alloc, &unit, back)?;
    Ok(Bound::of_parts(mint, pres, ops, tables, unit, back))
}
