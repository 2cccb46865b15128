//! A server: messages are answered by the replies that a file gives for the operations of an interface.
#![tactic(auto)]

mod given;
mod laws;
mod serving;

pub use given::WrongLine;
pub use laws::{answers_are_determined, files_are_decided};
pub use serving::{Server, WrongReplies};
