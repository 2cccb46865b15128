//! The expressions of interface files: of CORBA IDL (CORBA, chapter on IDL syntax and semantics, "Constant
//! declaration"), and of MIG definition files.
//!
//! [`expression`] and [`mig_expression`] read one from the beginning of some tokens; [`Expr`] is its tree.
#![tactic(auto)]

mod expressions;
mod languages;
mod laws;
mod leaves;
mod names;
mod operators;
mod tree;

pub use expressions::{expression, mig_expression};
pub use idl_const::{BinaryOp, UnaryOp};
pub use languages::Language;
pub use laws::one_expression;
pub use names::{begins_identifier, scoped};
pub use operators::closes;
pub use tree::{Expr, Identifier, Leaf, Node, ScopedName};
