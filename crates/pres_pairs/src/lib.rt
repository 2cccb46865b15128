//! Operations of two bindings of one unit that are the same operation.
#![tactic(auto)]

mod laws;
mod pairs;

pub use laws::bindings_have_one_type;
pub use pairs::pair_of;
