//! An interface that is bound to a back end, and the messages of its operations.
#![tactic(auto)]

mod backs;
mod engine;
mod errors;
mod exceptions;
mod faults;
mod laws;
mod marshal;
mod marshal_reply;
mod operations;
mod refusals;
mod replies;
mod reply_leads;
mod requests;
mod serve;
mod unmarshal;
mod unmarshal_reply;
mod wire;

pub use engine::Engine;
pub use errors::{MarshalErr, MessageErr, long_alone};
pub use laws::{
    messages_are_decided, messages_are_read_back, operations_match_unit, replies_are_decided,
    replies_are_read_back, replies_match_unit, servings_are_decided,
};
pub use replies::Reply;
pub use requests::Request;
pub use serve::Served;
pub use wire::{Wire, wire_of};
