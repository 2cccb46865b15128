//! How many operations a code has.

use cast_stub::{SendOp, SendOps};

/// How deep the operations that are counted are nested at most.
const NESTED: u32 = 256;

/// The number of operations, those of bodies with them.
pub fn count(code: &SendOps) -> u64 {
    count_code(NESTED, code)
}

#[cycle(count)]
fn count_code(nested: u32, code: &SendOps) -> u64 {
    let mut sum: u64 = 0;
    for op in code.as_slice() {
        sum = sum.saturating_add(count_op(nested, op));
    }
    sum
}

#[cycle(count)]
fn count_op(nested: u32, op: &SendOp) -> u64 {
    if nested == 0 {
        return 1;
    }
    match op {
        SendOp::Each(_, body) | SendOp::Some(_, body) => count_code(
            nested - 1,
            body,
        ).saturating_add(1),
        SendOp::Switch(_, cases, other) => {
            let mut sum: u64 = 1;
            for case in cases.as_slice() {
                sum = sum.saturating_add(count_code(nested - 1, &case.1));
            }
            match other {
                Some(body) => sum.saturating_add(count_code(nested - 1, body)),
                None => sum,
            }
        }
        _ => 1,
    }
}
