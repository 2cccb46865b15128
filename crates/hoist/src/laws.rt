//! The laws of hoisting, each the contract of a function that does nothing.

ghost use Rattle.wire_def.specs.declared.encoding.Encoding.{Encoding};
ghost use Rattle.hoist.specs.Bound.{BoundsHold};
ghost use Rattle.hoist.specs.Laws.{FramedIsTaken, HoistingCovers, HoistingEnsuresRows, HoistingIsSparing, HoistingKeepsCode, HoistingKeepsSteps, HoistingSparesRows, SpansAreSizes};

/// A block appends at most its bound.
pub fn bounds_hold()
    ensures { BoundsHold }
{}

/// Hoisted code has room for all that it appends.
pub fn hoisting_covers()
    ensures { HoistingCovers }
{}

/// Hoisted code makes the same steps, but for the room that it ensures.
pub fn hoisting_keeps_steps()
    ensures { HoistingKeepsSteps }
{}

/// Hoisted code is the same, but for its ensures.
pub fn hoisting_keeps_code()
    ensures { HoistingKeepsCode }
{}

/// Hoisted code looks at the buffer at most once for each region.
pub fn hoisting_is_sparing()
    ensures { HoistingIsSparing }
{}

/// Hoisted code ensures nothing within a loop over a row or text.
pub fn hoisting_spares_rows()
    ensures { HoistingSparesRows }
{}

/// Hoisted code ensures each big row by the length of its list.
pub fn hoisting_ensures_rows()
    ensures { HoistingEnsuresRows }
{}

/// Code that goes through a type, between a lead and a patch, is taken.
pub fn framed_code_is_taken()
    ensures { FramedIsTaken }
{}

/// The sizes of types by their spans over an encoding are such as `hoisting_is_sparing` asks for.
pub fn spans_are_sizes()
    ensures { (e : Encoding) → SpansAreSizes e }
{}
