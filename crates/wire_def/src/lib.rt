//! Byte grammars of values, field by field, and the words that encodings and their heads share.
//!
//! What a value is sent as, which octets spell it, and where octets that spell no value first
//! stop: each is a definition of this crate, and each law of theirs the contract of a function.
#![tactic(auto)]

pub mod descriptors;
mod encoding;
mod fault;
mod head;
mod laws;
mod outcome;
mod reply;

pub use encoding::{Back, Encoding};
pub use fault::{Fault, FaultKind, HeadErr};
pub use head::{Head, Order};
pub use laws::{
    bodies_are_light, hollow_is_empty, no_spelling_begins_another, octets_spell_one_value,
    plain_is_not_mach, reading_is_a_grammar, sent_is_short, sent_is_spelled, spelled_or_stopped,
};
pub use outcome::{Outcome, Refusal};
pub use reply::{ReplyHead, Status};
