//! Code without calls, and with its rows as blocks. Each call is replaced by the code that it names, made
//! for the part of the value at the call's path: code that sends in `inlining`, code that receives in
//! `recv_inlining`, in the same order. Each loop over a row or text that travels as a block or wide is
//! replaced by a row operation, in `sent_rows` and `recv_rows`.
#![tactic(auto)]

mod inlining;
mod recv_arrays;
mod recv_inlining;
mod recv_rows;
mod sent_rows;
mod sorts;

pub use inlining::inline;
pub use recv_inlining::inline_recv;
pub use recv_rows::rows_recv;
pub use sent_rows::rows;
pub use sorts::{Sort, sort_of};
