//! What is ensured before operations, while they are visited from the last to the first.

ghost use Rattle.std.specs.Prelude.{◌≡◌, ◌≤◌, ◌+◌, ◌^◌, reverse, OnOk, OnErr, IfOk};
ghost use Rattle.cast_stub.specs.Block.{code_seen};
ghost use Rattle.hoist.specs.Hoisted.{raised, some_octets, closed, settled, small, loop};
ghost use Rattle.hoist.specs.Seen.{ahead_seen, after, plan_seen};

use cast_stub::copies::copy_path;
use cast_stub::{Path, SendOp};
use kit_base::NoMemory;
use std::alloc::Global;

/// What is to be ensured.
#[derive(Drop)]
pub(crate) enum Ahead {
    Nothing,
    /// So many octets, and the greatest lengths of the small parts among them.
    Octets(u32, u32),
    /// A length, multiplied and raised.
    Row(Path, u32, u32),
}

/// How the room of an operation with bodies is ensured.
#[derive(Clone, Copy)]
pub(crate) enum Plan {
    Small(u32, u32),
    Loop(u32),
    Apart,
}

fn some_octets(n: u32, k: u32) -> Ahead
    ensures { ahead_seen result ≡ some_octets n k }
{
    if n == 0 {
        Ahead::Nothing
    } else {
        Ahead::Octets(n, k)
    }
}

fn sum(m: u32, n: u32) -> Result<u32, NoMemory>
    ensures ok { IfOk result (λ s. s ≡ m + n) }
    ensures err { OnErr result (2 ^ 32 ≤ m + n) }
{
    match m.checked_add(n) {
        Some(sum) => Ok(sum),
        None => Err(NoMemory),
    }
}

/// So many octets more.
pub(crate) fn raise(ahead: Ahead, n: u32) -> Result<Ahead, NoMemory>
    ensures { IfOk result (λ a. ahead_seen a ≡ raised n (ahead_seen ahead)) }
{
    match ahead {
        Ahead::Nothing => Ok(some_octets(n, 0)),
        Ahead::Octets(m, k) => Ok(Ahead::Octets(sum(m, n)?, k)),
        Ahead::Row(path, unit, m) => Ok(Ahead::Row(path, unit, sum(m, n)?)),
    }
}

/// Ensures what is to be ensured.
#[tactic(auto, using(crate::proofs::Reversed::reversed))]
pub(crate) fn flush(back: &mut Vec<SendOp>, ahead: Ahead) -> Result<(), NoMemory>
    ensures { OnOk result (code_seen (reverse back.new.items) ≡ closed (after back.old.items ahead)) }
{
    match ahead {
        Ahead::Nothing => Ok(()),
        Ahead::Octets(n, _) => {
            back.push(SendOp::Ensure(n))?;
            Ok(())
        }
        Ahead::Row(path, unit, n) => {
            back.push(SendOp::EnsureRow(path, unit, n))?;
            Ok(())
        }
    }
}

/// A small part before them.
#[tactic(auto, using(crate::proofs::Reversed::reversed))]
fn set_small(back: &mut Vec<SendOp>, ahead: Ahead, n: u32, k: u32) -> Result<Ahead, NoMemory>
    ensures { IfOk result (λ a. after back.new.items a ≡ settled (small n k) (after back.old.items ahead)) }
{
    match ahead {
        Ahead::Nothing => Ok(some_octets(n, k)),
        Ahead::Octets(m, j) => {
            if j > 8192 {
                back.push(SendOp::Ensure(m))?;
                Ok(some_octets(n, k))
            } else {
                Ok(Ahead::Octets(sum(m, n)?, sum(j, k)?))
            }
        }
        Ahead::Row(path, unit, m) => {
            back.push(SendOp::EnsureRow(path, unit, m))?;
            Ok(some_octets(n, k))
        }
    }
}

/// A list of like elements before them.
#[tactic(auto, using(crate::proofs::Reversed::reversed))]
fn set_loop(back: &mut Vec<SendOp>, ahead: Ahead, path: Path, unit: u32) -> Result<Ahead, NoMemory>
    ensures { IfOk result
        (λ a. after back.new.items a ≡ settled (loop path unit) (after back.old.items ahead)) }
{
    match ahead {
        Ahead::Nothing => Ok(Ahead::Row(path, unit, 0)),
        Ahead::Octets(n, _) => Ok(Ahead::Row(path, unit, n)),
        Ahead::Row(other, w, m) => {
            back.push(SendOp::EnsureRow(other, w, m))?;
            Ok(Ahead::Row(path, unit, 0))
        }
    }
}

/// An operation with bodies before them.
#[tactic(auto, using(crate::proofs::Reversed::reversed))]
pub(crate) fn settle(
    alloc: Global,
    back: &mut Vec<SendOp>,
    ahead: Ahead,
    plan: Plan,
    path: &Path,
) -> Result<Ahead, NoMemory>
    ensures { IfOk result
        (λ a. after back.new.items a ≡ settled (plan_seen path.now plan) (after back.old.items ahead)) }
{
    match plan {
        Plan::Small(n, k) => set_small(back, ahead, n, k),
        Plan::Loop(unit) => set_loop(back, ahead, copy_path(alloc, path)?, unit),
        Plan::Apart => {
            flush(back, ahead)?;
            Ok(Ahead::Nothing)
        }
    }
}
