//! The laws of verdicts, each the contract of a function that does nothing.

ghost use Rattle.stub_check.specs.Laws.{IsVerdictOnce, IsVerdictSomehow, YesIsAsGood};

/// Code that gets a yes beside covered code appends what that appends, inside ensured space, over every table of types.
pub fn a_yes_is_as_good()
    ensures { YesIsAsGood }
{}

/// A code gets one verdict, which codes that are the same share, and no code gets none.
pub fn verdicts_are_decided()
    ensures determined { IsVerdictOnce }
    ensures something { IsVerdictSomehow }
{}
