//! The laws of the heads, each the contract of a function that does nothing.

ghost use Rattle.back_xdr.specs.Laws.{HeadsAreDecided, HeadsAreRead, IsNamedRight, LeadsAreRead, LeadsHaveOneLength, OwnHaveOctets, RepliesAreRead};

/// A message begins with a head, or there is a first item that is cut off or wrong: one of the
/// two, and the head, its length and the fault are determined.
pub fn begins_or_stops()
    ensures { HeadsAreDecided }
{}

/// What is read from left to right is spelled, and where reading stops there is the first fault.
pub fn heads_are_read()
    ensures { HeadsAreRead }
{}

/// The operation that a call names is the procedure that it calls.
pub fn calls_are_named_right()
    ensures { IsNamedRight }
{}

/// The head that is sent of an operation is read as its call.
pub fn leads_are_read()
    ensures { LeadsAreRead }
{}

/// The head that is sent of a reply is read as the reply with its arm.
pub fn replies_are_read()
    ensures { RepliesAreRead }
{}

/// The length of a head depends on what is called, and neither on the transaction nor on the arm.
pub fn leads_have_one_length()
    ensures { LeadsHaveOneLength }
{}

/// A refusal has octets exactly where a call over this back end may have it.
pub fn own_refusals_have_octets()
    ensures { OwnHaveOctets }
{}
