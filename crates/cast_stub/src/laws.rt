//! The laws of stub code, each the contract of a function that does nothing.

ghost use Rattle.cast_stub.specs.Laws.{CallsInTurn, CodeAfterCode, CodeForPart, CostsAdd, EnsuresRunNoCall, MoreRoom, NoCallRunsNone, WrittenInTurn};

/// The steps of code after code are the steps of the first and then those of the second.
pub fn code_after_code()
    ensures { CodeAfterCode }
{}

/// Code that is made for a part of a value does the same on the whole, once the part's path is
/// before its paths.
pub fn code_for_a_part()
    ensures { CodeForPart }
{}

/// Steps whose room is ensured have it also where more octets are ensured.
pub fn more_room_never_harms()
    ensures { MoreRoom }
{}

/// Steps after steps write after what the first have written.
pub fn steps_write_in_turn()
    ensures { WrittenInTurn }
{}

/// Steps after steps cost the sum.
pub fn costs_add_up()
    ensures { CostsAdd }
{}

/// Code after code runs the calls of the first and then those of the second.
pub fn calls_run_in_turn()
    ensures { CallsInTurn }
{}

/// Code without its ensures runs the same calls.
pub fn ensures_run_no_call()
    ensures { EnsuresRunNoCall }
{}

/// Code without calls runs none.
pub fn code_without_calls_runs_none()
    ensures { NoCallRunsNone }
{}
