//! What stub code sends, stub code receives: the contract of a function that does nothing.

ghost use Rattle.stub_round.specs.RoundTrip.{WhatIsSentIsReceived};

/// Sound code that receives gives back the value whose octets code that sends has appended, whatever
/// follows them, and is after them.
pub fn what_is_sent_is_received()
    ensures { WhatIsSentIsReceived }
{}
