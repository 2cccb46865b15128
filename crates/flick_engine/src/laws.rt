//! The laws of messages, each the contract of a function that does nothing.

ghost use Rattle.flick_engine.specs.Laws.{AreAskedFor, AreTheReplies, AreTheUnits, IsDetermined, IsReadBack, IsReplyDetermined, IsReplyReadBack, IsReplySomething, IsServingDetermined, IsServingSomething, IsSomething};

/// Octets are a request or have a first fault: one of them, and no other.
pub fn messages_are_decided()
    ensures determined { IsDetermined }
    ensures something { IsSomething }
{}

/// What is sent is what is received.
pub fn messages_are_read_back()
    ensures { IsReadBack }
{}

/// The operations of a binding are those of its unit: what goes into one are its parameters, and a
/// message names the one that its head asks for.
pub fn operations_match_unit()
    ensures parameters { AreTheUnits }
    ensures asked { AreAskedFor }
{}

/// What comes back from an operation of a binding is what the operation of its unit has: the answer,
/// or one of its exceptions.
pub fn replies_match_unit()
    ensures { AreTheReplies }
{}

/// Octets are a reply to an operation or have a first fault: one of them, and no other.
pub fn replies_are_decided()
    ensures determined { IsReplyDetermined }
    ensures something { IsReplySomething }
{}

/// A reply that is sent is what is received.
pub fn replies_are_read_back()
    ensures { IsReplyReadBack }
{}

/// How a message is answered is determined, and each message is answered in some way, where the work
/// has one reply to each request.
pub fn servings_are_decided()
    ensures determined { IsServingDetermined }
    ensures something { IsServingSomething }
{}
