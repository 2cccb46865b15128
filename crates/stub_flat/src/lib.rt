//! What is left of code that sends, without its chunks and ensures.
#![tactic(auto)]

mod laws;

pub use laws::equal_flats_have_one_meaning;
