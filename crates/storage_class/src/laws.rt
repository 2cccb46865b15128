//! The law of spans, as the contract of a function that does nothing.

ghost use Rattle.wire_def.specs.declared.encoding.Encoding.{Encoding};
ghost use Rattle.storage_class.specs.Laws.{SentWithinSpan};

/// What is sent of a value has a length that the span of its type allows, over every encoding.
pub fn sent_is_within_the_span()
    ensures { (e : Encoding) → SentWithinSpan e }
{}
