//! Values that are kept once for several owners.
#![tactic(auto)]

mod shared;

pub use shared::{Shared, SharedNames};
