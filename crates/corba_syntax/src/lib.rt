//! The syntax of CORBA IDL files (CORBA, chapter on IDL syntax and semantics): operations, attributes,
//! interfaces, and the definitions of a file.
//!
//! [`parse`] gives the tree of a file's tokens, or the line of the definition that has none.
#![tactic(auto)]

mod attributes;
mod definition_tree;
mod definitions;
mod exports;
mod headers;
mod interface_tree;
mod interfaces;
mod laws;
mod operation_tree;
mod operations;
mod optional;
mod parsing;

pub use attributes::{attribute, begins_attribute};
pub use definition_tree::{Definition, Module, Tree};
pub use idl_read::SyntaxErr;
pub use interface_tree::{Export, Interface};
pub use interfaces::interface;
pub use laws::{one_attribute, one_interface, one_operation};
pub use operation_tree::{Attribute, Direction, Operation, Parameter, Reference};
pub use operations::operation;
pub use parsing::{one_tree, parse, tokens_are_decided};
