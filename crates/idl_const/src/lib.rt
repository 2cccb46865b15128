//! Constant expressions of interface files, and their values.
//!
//! An expression is a tree of numbers, names and operators. Its value is a whole number of 128
//! signed bits, or the first fault from the left.
#![tactic(auto)]

mod operators;
mod tree;
mod value;

pub use operators::{binary, unary};
pub use tree::{BinaryOp, Expr, UnaryOp};
pub use value::{ConstErr, Consts, eval};

#[cfg(test)]
mod tests;
