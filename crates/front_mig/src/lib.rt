//! The names of a MIG definition file: what each stands for, and the unit that the file offers.
#![tactic(auto)]

mod known;
mod meaning;
mod numbers;
mod parameters;
mod resolving;
mod routines;
mod state;
mod types;

pub use aoi::{NameErr, NameFault};
pub use meaning::{Form, Meaning};
pub use mig_syntax::{SyntaxErr, Tree, parse};
pub use resolving::resolve;
