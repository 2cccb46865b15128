//! The types and declarations of CORBA IDL (CORBA, chapter on IDL syntax and semantics, "Constant
//! declaration", "Type declaration" and "Exception declaration"): types, declarators, structs, unions,
//! enumerations, typedefs, constants and exceptions.
//!
//! [`declaration`] reads one from the beginning of some tokens, and [`type_name`] a type; [`Declaration`]
//! and [`TypeName`] are their trees.
#![tactic(auto)]

mod bodies;
mod decl_tree;
mod declarations;
mod declarators;
mod ints;
mod laws;
mod member_tree;
mod simple;
mod tags;
mod type_tree;
mod types;
mod unions;

pub use bodies::{enumeration, exception, structure};
pub use decl_tree::{
    Aliased, Case, Constant, ConstantType, Declaration, Label, Tag, Typedef, Union,
};
pub use declarations::{begins_declaration, declaration};
pub use ints::{begins_int, int};
pub use laws::{one_declaration, one_enumeration, one_exception, one_structure, one_type};
pub use member_tree::{Declarator, Dimension, Enum, Exception, Member, Struct};
pub use type_tree::{Base, Int, IntSize, Simple, TypeName, TypeNode};
pub use types::type_name;
