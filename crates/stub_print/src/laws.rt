//! The laws of texts, each the contract of a function that does nothing.

ghost use Rattle.stub_print.specs.Laws.{RecvTextsTell, SendTextsTell, TextsAreApart};

/// Codes that send, and whose names have no octet 0a, have one text only where names and codes are
/// the same.
pub fn send_texts_tell_their_codes()
    ensures { SendTextsTell }
{}

/// Codes that receive, and whose names have no octet 0a, have one text only where names and codes
/// are the same.
pub fn recv_texts_tell_their_codes()
    ensures { RecvTextsTell }
{}

/// No text is both of a code that sends and of one that receives.
pub fn texts_are_apart()
    ensures { TextsAreApart }
{}
