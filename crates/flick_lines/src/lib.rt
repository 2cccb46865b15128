//! The answers to the lines of an input: the messages of records, the records of messages, and what a message costs.
#![tactic(auto)]

mod answered;
mod counted;
mod laws;
mod marshalled;
mod replied;
mod text;
mod unmarshalled;
mod unreplied;
mod usual;
mod verb;

pub use answered::answer;
pub use counted::count;
pub use laws::{lines_are_answered, messages_are_counted};
pub use marshalled::{marshal, message_of, tree_of};
pub use replied::reply;
pub use text::{copied, digits, ended};
pub use unmarshalled::{record_of, unmarshal};
pub use unreplied::unreply;
pub use verb::Verb;
