//! Finding a name among others.
#![tactic(auto)]

mod edges;
mod picking;
mod tree;
mod word_name;

pub use picking::Demux;
pub use word_name::WordName;

#[cfg(test)]
mod tests;
