//! Numbers with their octets the other way round: a whole row of them at once.
#![tactic(auto)]

mod swap;

pub use swap::swap_numbers;
