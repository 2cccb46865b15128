//! The laws of bridges, each the contract of a function that does nothing.

ghost use Rattle.flick_bridge.specs.Laws.{IsBridgedOnce};

/// The answer to a line is determined.
pub fn answers_are_determined()
    ensures { IsBridgedOnce }
{}
