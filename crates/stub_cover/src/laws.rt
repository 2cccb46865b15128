//! The law of covering, as the contract of a function that does nothing.

ghost use Rattle.stub_cover.specs.Laws.{CoversIsCovered};

/// Code that has a meaning and passes has ensured what it appends, over every table of types.
pub fn what_covers_is_covered()
    ensures { CoversIsCovered }
{}
