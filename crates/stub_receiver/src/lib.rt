//! The machine that runs stub code which receives: it reads a value from a message.
#![tactic(auto)]

mod blocks;
mod counts;
mod desc;
mod draft;
mod errors;
mod flat;
mod gets;
mod looping;
mod machine;
mod numbers;
mod picking;
mod recv;
mod rows;
mod run;
mod settling;
mod skips;
mod takes;

pub use recv::{Got, run_recv};
