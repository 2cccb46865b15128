//! The laws of the heads, each the contract of a function that does nothing.

ghost use Rattle.giop_head.specs.Laws.{HeadsAreDecided, HeadsAreRead, OwnHaveOctets, PaddingIsThere, RepliesAreRead, RequestsAreRead};

/// A message begins with a head, or there is a first item that is cut off or wrong: one of the
/// two, and the head, its length and the fault are determined.
pub fn begins_or_stops()
    ensures { HeadsAreDecided }
{}

/// What is read from left to right is spelled, and where reading stops there is the first fault.
pub fn heads_are_read()
    ensures { HeadsAreRead }
{}

/// A head does not stop in the octets that lead up to a body, since the message has them.
pub fn padding_is_there()
    ensures { PaddingIsThere }
{}

/// The head that is sent of a request is read as that request.
pub fn requests_are_read()
    ensures { RequestsAreRead }
{}

/// The head that is sent of a reply is read as that reply, be it an answer or an exception.
pub fn replies_are_read()
    ensures { RepliesAreRead }
{}

/// A refusal has octets exactly where a request over this format may have it.
pub fn own_refusals_have_octets()
    ensures { OwnHaveOctets }
{}
