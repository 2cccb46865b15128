//! Bridges: the messages of requests in one format as those of the same requests in another.
#![tactic(auto)]

mod bridge;
mod ends;
mod heads;
mod laws;

pub use bridge::Bridge;
pub use laws::answers_are_determined;
