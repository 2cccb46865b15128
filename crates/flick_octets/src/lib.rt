//! The octets of a message as the lines of a table: what each is, and where it stops.
//!
//! Heads are told field by field, by the names that their standards have; bodies node by node, each value read by
//! `plain_read`.
#![tactic(auto)]

mod body;
mod called;
mod entry;
mod exceptions;
mod giop;
mod giop_fields;
mod head_fields;
mod layout;
mod mach;
mod onc;
mod onc_reply;
mod printing;
mod replied;
mod rows;
mod sayings;
mod scalars;
mod sheet;
mod stops;
mod table;
mod texts;

pub use called::tell_request;
pub use entry::{Entry, What};
pub use printing::print_table;
pub use replied::tell_reply;
pub use stops::{Stop, Why};
pub use table::Table;
