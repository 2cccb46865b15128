//! Reading the text of code that sends: the exact inverse of what `stub_print` prints.
//!
//! The reader takes lines by their first words. What it has read is printed again, and counts only
//! where the text begins with what is printed.
#![tactic(auto)]

mod errors;
mod leads;
mod operations;
mod puts;
mod stub;
mod words;

pub use errors::StubErr;
pub use stub::{Stub, read_stub};

#[cfg(test)]
mod tests;
