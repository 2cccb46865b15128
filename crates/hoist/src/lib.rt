//! Ensures before the operations of stub code.
#![tactic(auto)]

mod ahead;
mod bounding;
mod copies;
mod laws;
mod parts;
mod pass;
mod plans;
mod roles;

pub use bounding::bound;
pub use copies::copy_code;
pub use laws::{
    bounds_hold, framed_code_is_taken, hoisting_covers, hoisting_ensures_rows, hoisting_is_sparing,
    hoisting_keeps_code, hoisting_keeps_steps, hoisting_spares_rows, spans_are_sizes,
};
pub use parts::node_at;
pub use pass::hoist;
