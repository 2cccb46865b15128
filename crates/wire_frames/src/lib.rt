//! Raw streams: the octets of a connection, cut into messages.
//!
//! Over XDR a message is a record of record marking (RFC 5531, section 11). GIOP and Mach messages stand back to back, and
//! say their own length.
#![tactic(auto)]

mod finding;
mod frames;
mod head;
mod joining;
mod laws;
mod messages;
mod taking;

pub use frames::{FrameErr, Frames};
pub use head::frame_head;
pub use laws::{
    cuts_go_on, faults_stay, first_stays, found_are_frames, frames_are_cut, frames_are_found,
    pieces_are_cut,
};
pub use messages::{Messages, Part};
