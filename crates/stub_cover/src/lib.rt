//! Whether code that sends appends only octets that it has ensured.
#![tactic(auto)]

mod laws;

pub use laws::what_covers_is_covered;
