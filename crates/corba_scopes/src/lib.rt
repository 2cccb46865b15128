//! The scopes of a CORBA IDL file (CORBA, chapter on IDL syntax and semantics, "Names and scoping"): how names
//! are declared and found in them, and the numbers of constant expressions.
#![tactic(auto)]

mod around;
mod clashes;
mod consts;
mod declaring;
mod finding;
mod held;
mod ids;
mod inheriting;
mod keys;
mod lines;
mod meanings;
mod placing;
mod prefixes;
mod scope;
mod state;
mod store;
mod texts;

pub use around::full_name;
pub use clashes::{lower_of, refuse_fault};
pub use idl_names::{Tag, Use};
pub use meanings::{Constant, Meaning};
pub use state::Scopes;
