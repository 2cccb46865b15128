//! Whether two send stubs, whoever made them, have one flat, so that they send the same octets.
#![tactic(auto)]

mod compare;
pub mod compare_calls;
mod compare_cells;
mod compare_items;
mod compare_leaves;
mod compare_octets;
mod compare_steps;
mod compare_tables;
mod compare_text;

pub use compare::have_one_flat;
