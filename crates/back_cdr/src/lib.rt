//! Requests over GIOP 1.0 and 1.2 (OMG CORBA, chapter GIOP), and CDR in either order: the heads that
//! are sent, as code.
#![tactic(auto)]

mod bodies;
mod laws;
mod leads;
mod listing;
mod lowering;
mod names;
mod numbered;
mod printing;
mod recv_lowering;
mod seek;
mod targets;

pub use laws::{bodies_have_octets, leads_have_one_length, requests_are_named_right};
pub use leads::{lead_call, lead_reply, size_patch};
pub use lowering::lower_send;
pub use names::Names;
pub use recv_lowering::lower_recv;
pub use seek::read_called;
pub use targets::{have_one_lead, lead_mark};
