//! What is said of a code of any maker beside one that is known to be right.

ghost use Rattle.std.specs.Prelude.{◌≡◌, ◌↔◌, true, IfOk};
ghost use Rattle.mint.specs.Types.{IsTable, type_at};
ghost use Rattle.cast_stub.specs.Meaning.{IsCovered};
ghost use Rattle.stub_cover.specs.Covers.{covers};
ghost use Rattle.stub_compare.specs.CompareFlats.{HaveOneFlat};
ghost use Rattle.stub_check.specs.Verdicts.{IsAsGood, IsVerdict};

use crate::same::is_same_code;
use cast_stub::SendCode;
use kit_base::NoMemory;
use mint::table::{Mint, NodeId};
use std::alloc::Global;
use stub_compare::compare_calls::find_spots;
use stub_compare::have_one_flat;
use stub_rooms::covers_code;

/// What is said of a code beside one that is known to be right.
#[derive(Clone, Copy, Debug, PartialEq, Eq)]
pub enum Verdict {
    /// The code is the kept one, or has its flat and ensures what it appends.
    Yes,
    /// The code has no flat, or another than the kept one.
    Meaning,
    /// The code has the flat of the kept one, but is not seen to ensure what it appends.
    Cover,
}

/// What is said of a code beside one that is kept, over a node of a table. It gives up, as out of memory, where no steps
/// are left.
pub fn check(
    alloc: Global,
    kept: &SendCode,
    code: &SendCode,
    mint: &Mint,
    id: NodeId,
    left: &mut u64,
) -> Result<Verdict, NoMemory>
    requires kept { IsCovered (type_at mint.now id) 0 kept.now }
    ensures verdict { IfOk result (IsVerdict mint.now id kept.now code.now) }
    // What a yes promises, over a table whose nodes stand behind their children, as each table's do.
    ensures good { IfOk result (λ v. v ≡ Verdict.Yes → IsTable mint.now
        → IsAsGood (type_at mint.now id) kept.now code.now) }
{
    crate::laws::a_yes_is_as_good();
    if is_same_code(alloc, kept, code, left)? {
        return Ok(Verdict::Yes);
    }
    if !have_one_flat(alloc, kept, code, mint, id, left)? {
        return Ok(Verdict::Meaning);
    }
    if !covers(alloc, code, mint, id, left)? {
        return Ok(Verdict::Cover);
    }
    Ok(Verdict::Yes)
}

/// Whether a code over a node has ensured what it appends.
fn covers(
    alloc: Global,
    code: &SendCode,
    mint: &Mint,
    id: NodeId,
    left: &mut u64,
) -> Result<bool, NoMemory>
    ensures { IfOk result (λ b. b ≡ covers mint.now id code.now) }
{
    match find_spots(alloc, mint, id, code, left)? {
        Some(spots) => covers_code(alloc, code, mint, id, spots.as_slice(), left),
        None => Ok(false),
    }
}

/// The nodes of each table stand behind their children. The time is linear in the table.
pub fn nodes_are_a_table(mint: &Mint)
    ensures { IsTable mint.now }
{
    for k in 0..mint.len() {
        let _node = mint.node(k as u32);
    }
}
