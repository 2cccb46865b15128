//! Octets as hexadecimal digits and back: a whole row of them at once.
#![tactic(auto)]

mod putting;
mod reading;
mod writing;

pub use putting::put;
pub use reading::decode;
pub use writing::encode;
