//! The laws of streams, each the contract of a function that does nothing.

ghost use Rattle.wire_frames.specs.Laws.{CutsGoOn, FaultsStay, FirstStays, FoundAreFrames, FramesAreCut, FramesAreFound, PiecesAreCut};

/// A frame that stands first is found, whatever follows.
pub fn frames_are_found()
    ensures { FramesAreFound }
{}

/// What is found is a frame of at least one octet, and its message is within the limit.
pub fn found_are_frames()
    ensures { FoundAreFrames }
{}

/// The frames of messages, joined, have exactly these messages, and neither a rest nor a fault.
pub fn frames_are_cut()
    ensures { FramesAreCut }
{}

/// What follows a first frame does not change its message.
pub fn first_stays()
    ensures { FirstStays }
{}

/// A stream that has a fault keeps its messages and its fault, whatever follows.
pub fn faults_stay()
    ensures { FaultsStay }
{}

/// The messages of a stream come first, and then those of its rest with what follows.
pub fn cuts_go_on()
    ensures { CutsGoOn }
{}

/// Whatever the pieces, what was given is the first messages of all that was fed, and what is kept has the others.
pub fn pieces_are_cut()
    ensures { PiecesAreCut }
{}
