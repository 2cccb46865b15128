//! The arms of replies whose heads number them: 0 is the answer, k the k-th exception that the
//! operation raises.

ghost use Rattle.std.specs.Prelude.{◌≡◌};
ghost use Rattle.head_arms.specs.Arms.{arm_status};

use wire_def::Status;

/// What the head of a reply says of an arm.
pub fn arm_status(arm: u32) -> Status<'static>
    ensures { result ≡ arm_status arm }
{
    if arm == 0 {
        Status::Answer
    } else {
        Status::Raised(arm)
    }
}
