//! The arms of replies, where heads of messages number them: what a head says of an arm, and how
//! many exceptions an operation raises.
#![tactic(auto)]

mod arms;
mod raised;

pub use arms::arm_status;
pub use raised::exceptions_of;
