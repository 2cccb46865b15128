//! The laws of bodies and of costs, each the contract of a function that does nothing.

ghost use Rattle.stub_codes.specs.Laws.{BodiesAreTaken, RepliesHaveCosts, RequestsHaveCosts};

/// A call that is received is of a version of its back end, and its body may be received by the code of an operation,
/// from the head's end on.
pub fn bodies_are_taken()
    ensures { BodiesAreTaken }
{}

/// A request has a cost, by the code that is kept for its operation, within what its message allows: it checks
/// the buffer at most once for each region.
pub fn requests_have_costs()
    ensures { RequestsHaveCosts }
{}

/// A reply has a cost, in each version, by the code that is kept for its arm, within what its message allows.
pub fn replies_have_costs()
    ensures { RepliesHaveCosts }
{}
