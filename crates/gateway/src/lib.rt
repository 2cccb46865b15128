//! Requests that are passed on from one end to another.
#![tactic(auto)]

mod ends;
mod errors;
mod passing;

pub use ends::{Asked, Ends};
pub use errors::{PassErr, WriteErr};
pub use passing::Gateway;
