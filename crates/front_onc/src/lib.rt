//! The names of an ONC interface file: what each stands for, and the unit that the file offers.
#![tactic(auto)]

mod enums;
mod forms;
mod meaning;
mod procedures;
mod programs;
mod resolving;
mod state;
mod structs;
mod unions;
mod values;

pub use aoi::{NameErr, NameFault};
pub use idl_names::{Tag, Use};
pub use meaning::{Form, Meaning};
pub use onc_syntax::{SyntaxErr, Tree, parse};
pub use resolving::{files_are_whole, resolve};
