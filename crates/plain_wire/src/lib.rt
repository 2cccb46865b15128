//! Values as octets, field by field, and back.
//!
//! The plain encoder and reader: they walk the type and the value, one field at a time, and are
//! what every faster way of sending and receiving is held against.
#![tactic(auto)]

mod cursor;
mod read;
mod read_array;
mod read_described;
mod read_head;
mod read_row;
mod read_scalar;
mod read_tag;
mod send;
mod send_array;
mod send_described;
mod send_scalar;
mod units;
mod widths;

pub use read::{Read, plain_read};
pub use send::plain_send;
