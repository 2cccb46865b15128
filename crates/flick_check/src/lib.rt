//! Which of the stubs of a file, whoever made them, send the messages of an interface inside ensured space.
#![tactic(auto)]

mod answers;
mod files;
mod laws;
mod names;

pub use answers::check_stubs;
pub use files::has_refusal;
pub use laws::{a_yes_is_sent, files_are_decided};
