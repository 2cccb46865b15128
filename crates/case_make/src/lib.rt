//! Values made from a number: a generator of 64 bits draws one for a node of a table.
#![tactic(auto)]

mod draws;
mod maker;
mod making;

pub use making::make_value;
