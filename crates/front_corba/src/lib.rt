//! The names of a CORBA IDL file (CORBA, chapter on IDL syntax and semantics): its interfaces, and the unit
//! that the file offers.
//!
//! [`parse`] gives the tree of a file's tokens, and [`resolve`] the unit of a tree, or its first fault.
#![tactic(auto)]

mod attributes;
mod bases;
mod copies;
mod interfaces;
mod named;
mod offers;
mod operations;
mod parameters;
mod resolving;
mod state;

pub use aoi::{NameErr, NameFault};
pub use corba_syntax::{SyntaxErr, Tree, parse};
pub use resolving::{files_are_whole, resolve};
