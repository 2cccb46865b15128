//! The laws of answers, each the contract of a function that does nothing.

ghost use Rattle.std.specs.Prelude.{ℕ, List};
ghost use Rattle.flick_lines.specs.Counted.{AllCounted};
ghost use Rattle.flick_lines.specs.declared.verb.Verb.{Verb as SpecVerb};
ghost use Rattle.flick_lines.specs.Verbs.{IsAnswerTo};

use flick_engine::Engine;
use stub_codes::requests_have_costs;

/// Each line has an answer, whatever the verb.
pub fn lines_are_answered(engine: &Engine)
    ensures { (verb : SpecVerb) (text : List ℕ) → (a : List ℕ) × IsAnswerTo verb engine.now text a }
{
    engine.bound().mint().types_are_sound();
}

/// Each message has counts, so that none is answered by its digits alone.
pub fn messages_are_counted(engine: &Engine)
    ensures { AllCounted engine.now }
{
    engine.codes_match_operations();
    requests_have_costs();
}
