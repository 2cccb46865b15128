//! The machine that runs stub code: it appends what the code means, at what the code costs.
#![tactic(auto)]

mod errors;
mod operations;
mod parts;
mod puts;
mod rows;
mod send;
mod single;

pub use errors::SendErr;
pub use send::run_send;
