//! Whether a send stub, whoever made it, sends what a kept one sends, inside ensured space.
#![tactic(auto)]

mod laws;
mod same;
mod verdicts;

pub use laws::{a_yes_is_as_good, verdicts_are_decided};
pub use verdicts::{Verdict, check, nodes_are_a_table};
