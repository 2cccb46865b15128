//! A value that is being filled.

ghost use Rattle.std.specs.Prelude.{◌≡◌, ◌<◌, ◌≤◌, ◌+◌, drop, length, slice_index, Some, IfOk};
ghost use Rattle.mint.specs.Types.{type_at, unfolded, fields_at, AreBelow};
ghost use Rattle.cast_stub.specs.Draft.{fresh, all_fresh};
ghost use Rattle.cast_stub.specs.Fill.{part, field_at};
ghost use Rattle.cast_stub.specs.Parts.{IsThere, on_some};
ghost use Rattle.stub_receiver.specs.Drawn.{drawn, all_drawn};
ghost use Rattle.cast_stub.specs.PutPart.{put_part, put_field};

use kit_base::NoMemory;
use mint::node::{Node, NodeIds};
use mint::table::Mint;
use mint::value::Value;
use std::alloc::Global;

/// Drafts of fields.
pub type Fillings = Vec<Filling>;

/// What is known of a value so far.
#[derive(Drop)]
pub enum Filling {
    /// Nothing was read of a node's value.
    Raw(u32),
    /// A number of a node's row or text.
    Digit(u32),
    /// So many values of a node.
    Listed(u32, u32),
    /// So many numbers of a node's row or text.
    Lined(u32, u32),
    /// The number of a union, and the node of its arm.
    Tagged(i128, u32),
    /// A value of a node that is there.
    Flagged(u32),
    /// A value that was read.
    Done(Value),
    /// The fields of a struct.
    Fields(Fillings),
}

/// A draft of a node of which nothing was read.
#[cycle(fresh)]
#[tactic(auto, using(crate::proofs::Drafting::drafting))]
pub fn fresh(alloc: Global, mint: &Mint, id: u32) -> Result<Filling, NoMemory>
    ensures { IfOk result (λ d. drawn mint.now d ≡ fresh (type_at mint.now id)) }
{
    let Some(node) = mint.node(id) else {
        return Ok(Filling::Raw(id));
    };
    match node {
        Node::Group(ids) => Ok(Filling::Fields(all_fresh(alloc, mint, id, ids)?)),
        Node::Void => Ok(Filling::Raw(id)),
        Node::Num(_) => Ok(Filling::Raw(id)),
        Node::Enum(_) => Ok(Filling::Raw(id)),
        Node::Text(_) => Ok(Filling::Raw(id)),
        Node::Row(_, _) => Ok(Filling::Raw(id)),
        Node::Items(_, _) => Ok(Filling::Raw(id)),
        Node::Choice(_, _, _) => Ok(Filling::Raw(id)),
        Node::Maybe(_) => Ok(Filling::Raw(id)),
    }
}

#[cycle(fresh)]
#[tactic(auto, using(crate::proofs::Drafting::drafting))]
fn all_fresh(alloc: Global, mint: &Mint, id: u32, ids: &NodeIds) -> Result<Fillings, NoMemory>
    requires below { AreBelow id ids.now }
    ensures { IfOk result (λ ds. all_drawn mint.now ds.items
        ≡ all_fresh (fields_at (unfolded mint.now) ids.now)) }
{
    let mut drafts = Fillings::with_capacity(alloc, ids.len())?;
    for field in ids.as_slice() {
        drafts.push(fresh(alloc, mint, *field)?)?;
    }
    Ok(drafts)
}

/// Exchanges the part at a path, from a place of the path on, for another draft.
#[cycle(exchanging)]
#[tactic(auto, using(crate::proofs::Drafting::exchanging))]
pub fn exchange_part(
    mint: &Mint,
    draft: &mut Filling,
    path: &[u32],
    from: usize,
    other: &mut Filling,
)
    requires within { from ≤ length path.now }
    requires there { IsThere (part (drop from path.now) (drawn mint.now draft.old)) }
    ensures taken { part (drop from path.now) (drawn mint.now draft.old)
        ≡ Some (drawn mint.now other.new) }
    ensures put { put_part (drop from path.now) (drawn mint.now other.old) (drawn mint.now draft.old)
        ≡ Some (drawn mint.now draft.new) }
{
    if from == path.len() {
        std::mem::swap(draft, other);
        return;
    }
    match draft {
        Filling::Raw(_) => unreachable!(),
        Filling::Digit(_) => unreachable!(),
        Filling::Listed(_, _) => unreachable!(),
        Filling::Lined(_, _) => unreachable!(),
        Filling::Tagged(_, _) => unreachable!(),
        Filling::Flagged(_) => unreachable!(),
        Filling::Done(_) => unreachable!(),
        Filling::Fields(fields) => exchange_in(mint, fields, path, from, other),
    }
}

/// The same in the fields of a struct.
#[cycle(exchanging)]
#[tactic(auto, using(crate::proofs::Drafting::exchanging))]
fn exchange_in(mint: &Mint, fields: &mut Fillings, path: &[u32], from: usize, other: &mut Filling)
    requires within { from < length path.now }
    requires there { IsThere (on_some
        (field_at (slice_index path.now from) (all_drawn mint.now fields.old.items))
        (part (drop (from + 1) path.now))) }
    ensures taken { on_some (field_at (slice_index path.now from) (all_drawn mint.now fields.old.items))
        (part (drop (from + 1) path.now)) ≡ Some (drawn mint.now other.new) }
    ensures put { put_field (slice_index path.now from) (drop (from + 1) path.now)
        (drawn mint.now other.old) (all_drawn mint.now fields.old.items)
        ≡ Some (all_drawn mint.now fields.new.items) }
{
    let at = path[from] as usize;
    exchange_part(mint, &mut fields[at], path, from + 1, other);
}
