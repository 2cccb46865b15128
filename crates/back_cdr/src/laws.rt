//! The laws of heads and names, each the contract of a function that does nothing.

ghost use Rattle.back_cdr.specs.Laws.{BodiesHaveOctets, IsNamedRight, LeadsHaveOneLength};

/// The length of a head depends on names, and not on the id.
pub fn leads_have_one_length()
    ensures { LeadsHaveOneLength }
{}

/// The operation that a request names is one of its key and its name.
pub fn requests_are_named_right()
    ensures { IsNamedRight }
{}

/// The head of a request is sent as one that a body follows exactly where octets follow it, whatever the arguments.
pub fn bodies_have_octets()
    ensures { BodiesHaveOctets }
{}
