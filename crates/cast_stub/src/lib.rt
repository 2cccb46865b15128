//! Stub code: the operations of programs that send and receive a message, and what they mean.
//!
//! A send code is run as a list of steps. What the steps write, what they cost and whether their
//! room is ensured are three folds over that list, in the definitions of this crate.
#![tactic(auto)]

mod constant;
pub mod copies;
pub mod copying;
mod laws;
pub mod layouts;
mod put;
mod recv;
pub mod recv_copying;
mod recv_laws;
mod send;

pub use constant::Constant;
pub use laws::{
    calls_run_in_turn, code_after_code, code_for_a_part, code_without_calls_runs_none,
    costs_add_up, ensures_run_no_call, more_room_never_harms, steps_write_in_turn,
};
pub use put::{HeadField, Path, Put, Puts};
pub use recv::{Get, Gets, RecvCases, RecvCode, RecvLast, RecvOp, RecvOps, RecvSubs};
pub use recv_laws::{earlier_tests_add, recv_code_after_code, recv_code_for_a_part};
pub use send::{SendCases, SendCode, SendLast, SendOp, SendOps, SendSubs, deepest_call};
