//! The text of stub code: a line for each operation, put and get.
//!
//! A text determines its code: two names without a line feed, with codes, that have one text are the same.
#![tactic(auto)]

mod gets;
mod laws;
mod lines;
mod puts;
mod recv;
mod send;
mod words;

pub use laws::{recv_texts_tell_their_codes, send_texts_tell_their_codes, texts_are_apart};
pub use recv::print_recv;
pub use send::print_send;
