//! Steps, by which looks at code are counted. A step is a look at an operation, or what takes no longer.

use cast_stub::{Path, SendCases, SendOp};
use kit_base::NoMemory;
use mint::node::Node;
use mint::table::{Mint, NodeId};

/// How many steps there are for each octet of a text.
const STEPS_EACH: u64 = 16;

/// How many there are besides.
const STEPS_MORE: u64 = 2_000_000;

/// The fields of a path that are gone along in a step.
const FIELDS: usize = 16;

/// The entries of a list that are gone through in a step.
const ENTRIES: usize = 512;

/// The steps that a text of so many octets is given.
pub fn steps_of(octets: usize) -> u64 {
    (octets as u64)
        .saturating_mul(STEPS_EACH)
        .saturating_add(STEPS_MORE)
}

/// Takes so many of the steps that are left.
pub fn spend(left: &mut u64, steps: u64) -> Result<(), NoMemory> {
    match left.checked_sub(steps) {
        Some(less) => {
            *left = less;
            Ok(())
        }
        None => Err(NoMemory),
    }
}

/// Takes the steps of a look at an operation, without its bodies.
pub fn spend_op(left: &mut u64, op: &SendOp) -> Result<(), NoMemory> {
    spend(left, steps_at(op))
}

/// Takes the steps in which the places of the bodies of a switch over a place are found.
pub fn spend_ways(
    left: &mut u64,
    mint: &Mint,
    place: Option<NodeId>,
    cases: &SendCases,
) -> Result<(), NoMemory> {
    spend(left, steps_among(arms_at(mint, place), cases))
}

/// The steps of a look at an operation, without its bodies.
pub fn steps_at(op: &SendOp) -> u64 {
    match op {
        SendOp::Ensure(_) | SendOp::Align(_) | SendOp::Chunk(_, _) | SendOp::Patch(_, _, _) => 1,
        SendOp::EnsureRow(path, _, _)
        | SendOp::RowCopy(path)
        | SendOp::RowSwap(path)
        | SendOp::RowWide(path, _)
        | SendOp::Each(path, _)
        | SendOp::Some(path, _)
        | SendOp::Call(_, path) => steps_along(path),
        SendOp::Switch(path, cases, _) => steps_along(path).saturating_add(cases.len() as u64),
    }
}

fn steps_along(path: &Path) -> u64 {
    1u64.saturating_add((path.len() / FIELDS) as u64)
}

/// The steps in which each case is found among so many arms, and each arm among the cases, up to one that has none.
pub fn steps_among(arms: usize, cases: &SendCases) -> u64 {
    let count = cases.len();
    let sought = arms.min(count.saturating_add(1)) as u64;
    let each = 1u64.saturating_add((count / ENTRIES) as u64);
    let found = (count as u64).saturating_mul((arms / ENTRIES) as u64);
    sought.saturating_mul(each).saturating_add(found)
}

/// How many arms a place has.
fn arms_at(mint: &Mint, place: Option<NodeId>) -> usize {
    match place {
        Some(id) => match mint.node(id) {
            Some(Node::Choice(_, arms, _)) => arms.len(),
            _ => 0,
        },
        None => 0,
    }
}
