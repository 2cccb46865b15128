//! The body of a number.

ghost use Rattle.std.specs.Option.{option_copied};
ghost use Rattle.cast_stub.specs.RecvBlock.{cases_seen};
ghost use Rattle.stub_receiver.specs.Picking.{Picks};
ghost use Rattle.stub_receiver.specs.Sizes.{IsBody};

use cast_stub::{RecvCases, RecvLast, RecvOps};
use kit_base::Boxed;

/// The bodies of numbers, as a switch has them.
pub type Bodies = Boxed<RecvCases>;

/// The body of a number, or that of every other.
pub fn body_of<'a>(cases: &'a Bodies, other: &'a RecvLast, n: &i128) -> Option<&'a RecvOps>
    ensures picks { Picks cases.now other.now n.now (option_copied result) }
    ensures within { IsBody (option_copied result) (cases_seen cases.now other.now) }
{
    match cases.find(n) {
        Some(place) => Some(&cases.as_slice()[place].1),
        None => match other {
            Some(body) => Some(body),
            None => None,
        },
    }
}
