//! The syntax of ONC interface files (RFC 4506 section 6, RFC 5531 section 12).
//!
//! [`parse`] gives the tree of a file's tokens, or the line of the definition that has none.
#![tactic(auto)]

mod declarations;
mod definitions;
mod parsing;
mod programs;
mod structures;
mod tree;
mod types;
mod unions;

pub use idl_read::SyntaxErr;
pub use parsing::{one_tree, parse, tokens_are_decided};
pub use tree::{
    Arm, Case, Decl, Def, IntWord, Item, Items, Label, Member, Prefix, ProcType, Procedure, Tree,
    TypeName, Union, Value, Version,
};
