//! The rows that a check program answers: their members, numbers and octets, and why one has no answer.
#![tactic(auto)]

mod bad;
mod parts;
mod rows;

pub use bad::Bad;
pub use parts::{list, member, number, octets, part, reported, signed, word};
pub use rows::{Answers, answer_rows};
