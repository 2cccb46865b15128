//! Octets behind a raw pointer: memory that is owned and grows, and octets that are lent.
#![tactic(auto)]

mod lent;
mod mem;
mod place;
mod view;

pub use mem::RawMem;
pub use view::RawView;
