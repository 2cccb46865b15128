//! The syntax of MIG definition files (Mach 3 Server Writer's Guide, chapter on MIG).
//!
//! [`parse`] gives the tree of a file's tokens, or the line of the statement that has none.
#![tactic(auto)]

mod parsing;
mod routines;
mod statements;
mod tree;
mod types;
mod words;

pub use idl_exprs::{BinaryOp, Expr, Leaf, Node, mig_expression};
pub use idl_read::SyntaxErr;
pub use parsing::{one_tree, parse, tokens_are_decided};
pub use tree::{
    Direction, Importer, Parameter, Routine, Side, Statement, Subsystem, Tree, TypeForm,
};
