//! Heads of GIOP messages, versions 1.0 and 1.2 (OMG CORBA, chapter GIOP), in both orders of octets.
//!
//! Which octets are the head of a request, of a search or of a reply, and where octets that are
//! none first stop: both are definitions of this crate.
#![tactic(auto)]

mod call;
mod contexts;
mod header;
mod items;
mod laws;
mod refusals;
mod reply;
mod shared;
mod versions;

pub use call::{GiopCall, GiopRequest, read_call, read_request};
pub use header::{HeadKind, Heading};
pub use laws::{
    begins_or_stops, heads_are_read, own_refusals_have_octets, padding_is_there, replies_are_read,
    requests_are_read,
};
pub use refusals::{
    header_octets, long_octets, put_addressing, put_header, put_long, put_octets, put_refusal,
    put_size,
};
pub use reply::read_reply;
