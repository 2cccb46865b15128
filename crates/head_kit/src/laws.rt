//! Laws of messages, each the contract of a function that does nothing.

ghost use Rattle.wire_def.specs.Grammar.{AreOctets};

/// The items of a message are octets.
pub fn are_octets(message: &[u8])
    ensures { AreOctets message.now }
{}
