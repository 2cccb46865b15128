//! ONC remote procedure calls over XDR (RFC 5531): the heads of their messages.
//!
//! Which octets are the head of a call or of a reply, and where octets that are none first stop:
//! both are definitions of this crate, and each law of theirs the contract of a function.
#![tactic(auto)]

mod auth;
mod call;
mod laws;
mod leads;
mod lowering;
pub mod procedures;
mod recv_lowering;
mod refusals;
mod reply;
mod seek;
mod shared;

pub use call::{OncCall, read_call};
pub use laws::{
    begins_or_stops, calls_are_named_right, heads_are_read, leads_are_read, leads_have_one_length,
    own_refusals_have_octets, replies_are_read,
};
pub use leads::{lead_call, lead_reply};
pub use lowering::lower_send;
pub use recv_lowering::lower_recv;
pub use refusals::put_refusal;
pub use reply::read_reply;
pub use seek::{ENCODING, read_called};
