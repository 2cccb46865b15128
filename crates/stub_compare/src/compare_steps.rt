//! The steps that looks at code take.

use cast_stub::{SendCode, SendOp, SendOps};
use stub_places::{steps_among, steps_at};

/// The arms of the largest union.
const MOST_ARMS: usize = 4_096;

/// The steps that code takes.
#[derive(Clone, Copy)]
pub(crate) struct Steps {
    /// Those in which its calls are noted.
    pub calls: u64,
    /// Those in which its flat is put.
    pub flat: u64,
}

/// Those of both.
fn both(a: Steps, b: Steps) -> Steps {
    Steps {
        calls: a.calls.saturating_add(b.calls),
        flat: a.flat.saturating_add(b.flat),
    }
}

/// The steps in which one set is closed, or aligned.
fn closing(op: &SendOp) -> u64 {
    match op {
        SendOp::RowCopy(_) | SendOp::RowSwap(_) | SendOp::RowWide(_, _) | SendOp::Each(_, _) => 8,
        SendOp::Align(_) => 1,
        _ => 0,
    }
}

/// The steps of an operation without its bodies, in so many loops: each loop leads a table through it.
fn alone(op: &SendOp, loops: u64) -> Steps {
    let look = match op {
        SendOp::Switch(_, cases, _) => {
            steps_at(op).saturating_add(steps_among(MOST_ARMS, cases))
        }
        _ => steps_at(op),
    };
    let sets = loops.saturating_mul(8).saturating_add(1);
    let looks = look.saturating_mul(loops.saturating_add(1));
    Steps {
        calls: look,
        flat: looks.saturating_add(closing(op).saturating_mul(sets)),
    }
}

/// The steps of operations in so many loops.
#[cycle(weigh)]
fn weigh(ops: &SendOps, loops: u64) -> Steps {
    let mut sum = Steps { calls: 1, flat: 1 };
    for op in ops.as_slice() {
        sum = both(sum, weigh_op(op, loops));
    }
    sum
}

#[cycle(weigh)]
fn weigh_op(op: &SendOp, loops: u64) -> Steps {
    let own = alone(op, loops);
    match op {
        SendOp::Each(_, body) => both(own, weigh(body, loops.saturating_add(1))),
        SendOp::Some(_, body) => both(own, weigh(body, loops)),
        SendOp::Switch(_, cases, last) => {
            let mut sum = match last {
                Some(body) => both(own, weigh(body, loops)),
                None => own,
            };
            for case in cases.as_slice() {
                sum = both(sum, weigh(&case.1, loops));
            }
            sum
        }
        _ => own,
    }
}

/// The steps of a code and of those in its list.
pub(crate) fn steps_in(code: &SendCode) -> Steps {
    let mut sum = weigh(&code.ops, 0);
    for ops in code.subs.as_slice() {
        sum = both(sum, weigh(ops, 0));
    }
    sum
}
