//! Message types, values, and when a value is of a type.
#![tactic(auto)]

mod add;
pub mod blank_value;
pub mod copying;
pub mod errors;
pub mod fits;
pub mod keyed;
pub mod kind;
mod labelling;
pub mod labels;
pub mod laws;
pub mod node;
pub mod row;
mod size;
pub mod table;
pub mod value;
