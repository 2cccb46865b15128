//! The heads of messages, whatever the back end: how their items are read, that a message begins
//! with one head or has one first fault, and what a head says of its call.
#![tactic(auto)]

mod call_head;
mod cursor;
mod items;
mod laws;

pub use call_head::{CallHead, CallTarget, operation_at};
pub use cursor::Cursor;
pub use items::{body, this_word, word, word_up_to};
pub use laws::are_octets;
