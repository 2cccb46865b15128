//! What the calls of a buffer do together, as the contract of a function that does nothing.

ghost use Rattle.raw_buf.specs.Laws.{PutsAreDone};

/// Octets that are put, and then ensured and advanced over, are done.
pub fn puts_are_done()
    ensures { PutsAreDone }
{}
