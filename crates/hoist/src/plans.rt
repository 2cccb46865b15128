//! How the room of operations with bodies is ensured.

ghost use Rattle.std.specs.Prelude.{◌≡◌, ◌<◌, ℕ, List, length, IfOk, OnErr};
ghost use Rattle.mint.specs.Types.{type_at};
ghost use Rattle.cast_stub.specs.Block.{code_seen, cases_seen};
ghost use Rattle.storage_class.specs.Spans.{AreClasses};
ghost use Rattle.hoist.specs.Hoisted.{is_small, is_break, body_plan, each_plan, some_plan, switch_plan};
ghost use Rattle.hoist.specs.Seen.{plan_seen, span_roles};

use crate::ahead::Plan;
use crate::bounding::{loop_bound, some_bound, switch_bound, turn_bound};
use crate::roles::{Role, part_role};
use cast_stub::{Path, SendCases, SendLast, SendOps};
use kit_base::NoMemory;
use mint::table::{Mint, NodeId};
use storage_class::Classes;

/// The plan of what appends at most so many octets, if that is bounded.
fn small_plan(most: Option<u32>, k: u32) -> Plan
    ensures { (p : List ℕ) → plan_seen p result ≡ body_plan (is_small k) most }
{
    match most {
        Some(n) => Plan::Small(n, k),
        None => Plan::Apart,
    }
}

/// The plan of a loop.
pub(crate) fn each_plan(
    mint: &Mint,
    classes: &Classes,
    id: NodeId,
    path: &Path,
    body: &SendOps,
) -> Result<Plan, NoMemory>
    requires id { id < length mint.now }
    requires classes { AreClasses mint.now classes.now }
    ensures ok { IfOk result (λ x. plan_seen path.now x
        ≡ each_plan (span_roles classes.now.enc) (type_at mint.now id) path.now (code_seen body.now)) }
    ensures apart { OnErr result (span_roles classes.now.enc (type_at mint.now id) path.now ≡ is_break → ⊥) }
{
    match part_role(mint, classes, id, path.as_slice()) {
        Role::Small(k) => match loop_bound(mint, id, path, body)? {
            Some(n) => Ok(Plan::Small(n, k)),
            None => Ok(Plan::Apart),
        },
        Role::Row => match turn_bound(mint, id, path, body)? {
            Some(unit) => Ok(Plan::Loop(unit)),
            None => Ok(Plan::Apart),
        },
        Role::Break => Ok(Plan::Apart),
    }
}

/// The plan of a body for a value that may be there.
pub(crate) fn some_plan(
    mint: &Mint,
    classes: &Classes,
    id: NodeId,
    path: &Path,
    body: &SendOps,
) -> Result<Plan, NoMemory>
    requires id { id < length mint.now }
    requires classes { AreClasses mint.now classes.now }
    ensures ok { IfOk result (λ x. plan_seen path.now x
        ≡ some_plan (span_roles classes.now.enc) (type_at mint.now id) path.now (code_seen body.now)) }
    ensures apart { OnErr result (span_roles classes.now.enc (type_at mint.now id) path.now ≡ is_break → ⊥) }
{
    match part_role(mint, classes, id, path.as_slice()) {
        Role::Small(k) => Ok(small_plan(some_bound(mint, id, path, body)?, k)),
        Role::Row | Role::Break => Ok(Plan::Apart),
    }
}

/// The plan of the bodies of a switch.
pub(crate) fn switch_plan(
    mint: &Mint,
    classes: &Classes,
    id: NodeId,
    path: &Path,
    cases: &SendCases,
    last: &SendLast,
) -> Result<Plan, NoMemory>
    requires id { id < length mint.now }
    requires classes { AreClasses mint.now classes.now }
    ensures ok { IfOk result (λ x. plan_seen path.now x
        ≡ switch_plan (span_roles classes.now.enc) (type_at mint.now id) path.now
        (cases_seen cases.now last.now)) }
    ensures apart { OnErr result (span_roles classes.now.enc (type_at mint.now id) path.now ≡ is_break → ⊥) }
{
    match part_role(mint, classes, id, path.as_slice()) {
        Role::Small(k) => Ok(small_plan(switch_bound(mint, id, path, cases, last)?, k)),
        Role::Row | Role::Break => Ok(Plan::Apart),
    }
}
