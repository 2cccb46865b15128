//! Whether two codes have one flat.

ghost use Rattle.std.specs.Prelude.{◌≡◌, ◌↔◌, ◌∷◌, true, [], IfOk, length, map, option_map};
ghost use Rattle.cast_stub.specs.Block.{code_seen};
ghost use Rattle.stub_flat.specs.Flat.{flat, list_items};
ghost use Rattle.stub_compare.specs.CompareText.{flats_text, items_text, list_text};
ghost use Rattle.stub_compare.specs.CompareTold.{IsPut, IsTold, body_items};
ghost use Rattle.stub_compare.specs.CompareFlats.{HaveOneFlat};

use crate::compare_calls::find_spots;
use crate::compare_items::put_ops;
use crate::compare_steps::steps_in;
use crate::compare_text::{Numbers, put_number};
use cast_stub::{SendCode, SendOps, SendSubs};
use kit_base::NoMemory;
use mint::table::{Mint, NodeId};
use std::alloc::Global;
use stub_places::sets::{every, only};
use stub_places::{Spot, spend};

/// Puts what is left of a code of a list, from all residues, where its node is known.
fn put_body(
    alloc: Global,
    mint: &Mint,
    spot: Spot,
    body: &SendOps,
    out: &mut Numbers,
) -> Result<bool, NoMemory>
    ensures { IfOk result (λ told. IsTold told (body_items mint.now spot (code_seen body.now))
        (λ i. IsPut out.old (λ rest. 1 ∷ items_text i rest) out.new)) }
{
    match spot {
        Some(_) => {
            put_number(out, 1)?;
            let behind = put_ops(alloc, mint, spot, body, &every(), out)?;
            Ok(behind.is_some())
        }
        None => Ok(false),
    }
}

/// Puts what is left of the codes of a list, each at its node and from all residues.
fn put_list(
    alloc: Global,
    mint: &Mint,
    subs: &SendSubs,
    spots: &[Spot],
    out: &mut Numbers,
) -> Result<bool, NoMemory>
    requires { length spots.now ≡ length subs.now }
    ensures { IfOk result (λ told. IsTold told (list_items mint.now (map code_seen subs.now) spots.now)
        (λ is. IsPut out.old (list_text is) out.new)) }
{
    for (i, body) in subs.as_slice().iter().enumerate() {
        let told = put_body(alloc, mint, spots[i], body, out)?;
        if !told {
            return Ok(false);
        }
    }
    put_number(out, 0)?;
    Ok(true)
}

/// The flat of a code as numbers, if it has one.
fn flat_text(
    alloc: Global,
    code: &SendCode,
    mint: &Mint,
    id: NodeId,
    left: &mut u64,
) -> Result<Option<Numbers>, NoMemory>
    ensures { IfOk result (λ o. o ≡ option_map (λ f. flats_text f []) (flat mint.now id code.now)) }
{
    spend(left, steps_in(code).flat)?;
    let found = find_spots(alloc, mint, id, code, left)?;
    let Some(spots) = found else {
        return Ok(None);
    };
    let mut out = Numbers::new(alloc);
    let behind = put_ops(alloc, mint, Some(id), &code.ops, &only(0), &mut out)?;
    let Some(_) = behind else {
        return Ok(None);
    };
    let told = put_list(alloc, mint, &code.subs, spots.as_slice(), &mut out)?;
    spend(left, (out.len() / 64) as u64)?;
    if told { Ok(Some(out)) } else { Ok(None) }
}

fn are_same(a: &Numbers, b: &Numbers) -> bool
    ensures { (result ≡ true) ↔ (a.now ≡ b.now) }
{
    a.as_slice() == b.as_slice()
}

/// Whether a code has a flat, and the kept one has the same. It gives up, as out of memory, where no steps are left.
pub fn have_one_flat(
    alloc: Global,
    kept: &SendCode,
    code: &SendCode,
    mint: &Mint,
    id: NodeId,
    left: &mut u64,
) -> Result<bool, NoMemory>
    ensures { IfOk result (λ same. (same ≡ true) ↔ HaveOneFlat mint.now id kept.now code.now) }
{
    let kept_text = flat_text(alloc, kept, mint, id, left)?;
    let Some(ours) = kept_text else {
        return Ok(false);
    };
    let code_text = flat_text(alloc, code, mint, id, left)?;
    let Some(theirs) = code_text else {
        return Ok(false);
    };
    Ok(are_same(&ours, &theirs))
}
