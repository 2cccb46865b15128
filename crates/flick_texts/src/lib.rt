//! The texts of the commands that read no lines: the stub code of operations, an interface file as it is understood,
//! and what is counted of the messages of requests that a number makes.
#![tactic(auto)]

mod made;
mod operations;
mod show;
mod stubs;
mod sums;
mod trip;
mod types;
mod words;

pub use made::make_text;
pub use show::show_text;
pub use stubs::{counted_text, stubs_text};
