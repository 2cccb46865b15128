//! The laws of the heads, each the contract of a function that does nothing.

ghost use Rattle.back_mach.specs.Laws.{HeadsAreDecided, HeadsAreRead, IsNamedRight, LeadsHaveOneLength, OwnHaveOctets, RefusalsAreRead, RepliesAreRead, RequestsAreRead};

/// A message begins with a head, or there is a first item that is cut off or wrong: one of the
/// two, and the head, its length and the fault are determined.
pub fn begins_or_stops()
    ensures { HeadsAreDecided }
{}

/// What is read from left to right is spelled, and where reading stops there is the first fault.
pub fn heads_are_read()
    ensures { HeadsAreRead }
{}

/// The operation that a request names is the one of its id.
pub fn requests_are_named_right()
    ensures { IsNamedRight }
{}

/// The head that is sent of an operation is read as its request.
pub fn requests_are_read()
    ensures { RequestsAreRead }
{}

/// The head that is sent of a reply is read as the reply with its arm.
pub fn replies_are_read()
    ensures { RepliesAreRead }
{}

/// The reply that refuses a request is read as its refusal.
pub fn refusals_are_read()
    ensures { RefusalsAreRead }
{}

/// The length of a head depends on its operation, and neither on the ports nor on the arm.
pub fn leads_have_one_length()
    ensures { LeadsHaveOneLength }
{}

/// A refusal has octets exactly where a request over this back end may have it.
pub fn own_refusals_have_octets()
    ensures { OwnHaveOctets }
{}
