//! Messages in the manner of Mach 3: the heads of requests and of replies, read and sent.
//!
//! Which octets are the head of a request or of a reply, and where octets that are none first stop:
//! both are definitions of this crate, and each law of theirs the contract of a function.
#![tactic(auto)]

mod call;
mod header;
mod laws;
mod leads;
mod lowering;
mod putting;
mod recv_lowering;
mod refusals;
mod reply;
pub mod routines;
mod seek;
mod shared;

pub use call::{MachCall, read_call};
pub use header::MachHeader;
pub use laws::{
    begins_or_stops, heads_are_read, leads_have_one_length, own_refusals_have_octets,
    refusals_are_read, replies_are_read, requests_are_named_right, requests_are_read,
};
pub use leads::{lead_call, lead_reply, reply_head, size_patch};
pub use lowering::lower_send;
pub use recv_lowering::lower_recv;
pub use refusals::put_refusal;
pub use reply::read_reply;
pub use seek::{ENCODING, read_called};
