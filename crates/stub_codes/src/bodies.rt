//! Code without calls of the types that more than one operation has for its requests, which is made once.

ghost use Rattle.std.specs.Prelude.{◌≡◌, ◌<◌, Some, length, IfOk};
ghost use Rattle.cast_stub.specs.declared.send.SendCode.{SendCode as SendCodeRecord};
ghost use Rattle.cast_stub.specs.Follows.{AllFollow};
ghost use Rattle.stub_codes.specs.Distinct.{AreSame};
ghost use Rattle.stub_codes.specs.Lowered.{AreBodies, IsBody};

use crate::distinct::Distinct;
use crate::earlier::request_type_of;
use cast_stub::{SendCode, SendSubs};
use copy_inline::inline;
use kit_base::{Listed, NoMemory};
use mint::table::{Mint, NodeId};
use pres::Bound;
use std::alloc::Global;

/// Code of some types, each at the place of its number.
pub(crate) type Bodies = Listed<Option<SendCode>>;

/// The code of a type, without calls.
pub(crate) fn body_of(
    alloc: Global,
    subs: &SendSubs,
    mint: &Mint,
    id: NodeId,
) -> Result<SendCode, NoMemory>
    requires id { id < length subs.now }
    requires follows { AllFollow mint.now subs.now }
    ensures { IfOk result (IsBody subs.now id) }
{
    mint.types_are_sound();
    inline(alloc, subs, id)
}

/// How many operations have each type for their requests.
fn uses_of(alloc: Global, bound: &Bound, types: &Distinct) -> Result<Vec<u32>, NoMemory>
    requires many { length types.now.ids ≡ length bound.now.nodes }
    requires same { AreSame types.now.mint bound.now.nodes types.now.ids }
{
    let mut uses = vec![in alloc; 0u32; types.mint.len()]?;
    for i in 0..bound.ops().len() {
        if let Ok(op) = u32::try_from(i) {
            let at = request_type_of(bound, types, op) as usize;
            if at < uses.len() {
                uses[at] = uses[at].saturating_add(1);
            }
        }
    }
    Ok(uses)
}

/// Whether a number at a place is above 1.
fn is_shared(uses: &[u32], id: NodeId) -> bool {
    match uses.get(id as usize) {
        Some(count) => *count > 1,
        None => false,
    }
}

/// The code of a type, where a number at its place is above 1.
fn body_at(
    alloc: Global,
    subs: &SendSubs,
    mint: &Mint,
    uses: &[u32],
    id: NodeId,
) -> Result<Option<SendCode>, NoMemory>
    requires id { id < length subs.now }
    requires follows { AllFollow mint.now subs.now }
    ensures { IfOk result (λ o. (code : SendCodeRecord) → o ≡ Some code → IsBody subs.now id code) }
{
    if is_shared(uses, id) {
        Ok(Some(body_of(alloc, subs, mint, id)?))
    } else {
        Ok(None)
    }
}

/// The code of each type that more than one operation has for its requests.
pub(crate) fn bodies_of(
    alloc: Global,
    bound: &Bound,
    types: &Distinct,
    subs: &SendSubs,
) -> Result<Bodies, NoMemory>
    requires many { length types.now.ids ≡ length bound.now.nodes }
    requires same { AreSame types.now.mint bound.now.nodes types.now.ids }
    requires follows { AllFollow types.now.mint subs.now }
    ensures { IfOk result (AreBodies subs.now) }
{
    let uses = uses_of(alloc, bound, types)?;
    let mut bodies = Bodies::with_room(alloc, subs.len())?;
    for i in 0..subs.len() {
        match u32::try_from(i) {
            Ok(id) => {
                let body = body_at(alloc, subs, &types.mint, uses.as_slice(), id)?;
                bodies.push(body)?;
            }
            Err(_) => return Err(NoMemory),
        }
    }
    Ok(bodies)
}
