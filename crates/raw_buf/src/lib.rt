//! A buffer whose space is ensured before it is written, and which counts what its calls cost; and
//! a message that is read.
#![tactic(auto)]

mod buffer;
mod laws;
mod rows;
mod storing;
mod tally;
mod view;
mod words;

pub use buffer::SendBuf;
pub use laws::puts_are_done;
pub use tally::Tally;
pub use view::RecvView;
