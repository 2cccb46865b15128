//! The laws of answers and of what a yes promises.

ghost use Rattle.flick_check.specs.Checked.{YesIsSent};
ghost use Rattle.flick_check.specs.Laws.{IsCheckedOnce, IsCheckedSomehow};

use flick_engine::Engine;
use stub_check::nodes_are_a_table;

/// A file of stubs has answers: these, and no others. It does nothing.
pub fn files_are_decided()
    ensures determined { IsCheckedOnce }
    ensures something { IsCheckedSomehow }
{}

/// What gets a yes beside the codes of an engine sends the messages of requests inside ensured space. It looks at each
/// node once.
pub fn a_yes_is_sent(engine: &Engine)
    ensures { YesIsSent engine.now }
{
    engine.codes_match_operations();
    nodes_are_a_table(engine.bound().mint());
}
