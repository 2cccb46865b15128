//! Receiving by stub code as a whole: code that is lowered or inlined, and its run; and that what stub
//! code sends, stub code receives.
#![tactic(auto)]

mod laws;
mod whole;

pub use laws::what_is_sent_is_received;
pub use whole::{inlined, lowered, receive};
