//! The laws of files of replies and of answers, each the contract of a function that does nothing.

ghost use Rattle.flick_serve.specs.Laws.{IsGivenOnce, IsGivenSomehow, IsServedOnce};

/// A file gives replies or has a first line that is wrong: one of them, and no other.
pub fn files_are_decided()
    ensures determined { IsGivenOnce }
    ensures something { IsGivenSomehow }
{}

/// The answer to a line by a file of replies is determined.
pub fn answers_are_determined()
    ensures { IsServedOnce }
{}
