//! The laws of the byte grammars, each the contract of a function that does nothing.

ghost use Rattle.wire_def.specs.Laws.{BodiesAreLight, NoneBegins, OneValue, PlainIsNotMach, ReadingIsGrammar, SentIsShort, SentSpells, SpelledIsTyped, SpelledOrStopped};
ghost use Rattle.wire_def.specs.Hollow.{HollowIsEmpty};
ghost use Rattle.wire_def.specs.declared.encoding.Encoding.{Encoding};

/// The encodings without descriptors are all but that of Mach messages.
pub fn plain_is_not_mach()
    ensures { (e : Encoding) → PlainIsNotMach e }
{}

/// What is sent of a well-typed value is a spelling of it.
pub fn sent_is_spelled()
    ensures { (e : Encoding) → SentSpells e }
{}

/// What is sent has at most 16 times the value's weight in octets.
pub fn sent_is_short()
    ensures { (e : Encoding) → SentIsShort e }
{}

/// Nothing is sent for any value of a type without octets, and something for each value of any
/// other.
pub fn hollow_is_empty()
    ensures { (e : Encoding) → HollowIsEmpty e }
{}

/// Octets spell at most one value.
pub fn octets_spell_one_value()
    ensures { (e : Encoding) → OneValue e }
{}

/// No spelling is a proper prefix of another one of the same type at the same position.
pub fn no_spelling_begins_another()
    ensures { (e : Encoding) → NoneBegins e }
{}

/// Of the octets of a message some prefix is a spelling, or there is a fault: one of the two, and
/// the fault's kind and place are determined.
pub fn spelled_or_stopped()
    ensures { (e : Encoding) → SpelledOrStopped e }
{}

/// A body of at most 4,194,304 octets spells no value above weight 138,412,032, so no message is
/// refused for a value's weight.
pub fn bodies_are_light()
    ensures { (e : Encoding) → BodiesAreLight e }
{}

/// What is read from left to right is spelled and well typed, and where reading stops there is the
/// first fault.
pub fn reading_is_a_grammar()
    ensures grammar { (e : Encoding) → ReadingIsGrammar e }
    ensures typed { (e : Encoding) → SpelledIsTyped e }
{}
