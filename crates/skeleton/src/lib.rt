//! What a server does for the calls of an interface.
#![tactic(auto)]

mod answering;
mod table;
mod work;

pub use answering::TableSkeleton;
pub use table::{Replies, Twice};
pub use work::Skeleton;
