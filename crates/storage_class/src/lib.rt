//! How much room a message takes: exactly, at most, or without bound.
#![tactic(auto)]

mod arrays;
mod classes;
mod laws;
mod nodes;
mod scalars;
mod span;

pub use classes::{Class, Classes};
pub use laws::sent_is_within_the_span;
pub use nodes::classify;
pub use span::Span;
