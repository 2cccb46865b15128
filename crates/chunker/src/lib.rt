//! Neighbouring stores in one chunk: what stands together in send code becomes one chunk, whose offsets do not
//! depend on what is sent, and an align whose padding is known becomes zeros of it. In receive code tests that stand
//! together become one test, and takes one take.
#![tactic(auto)]

mod joining;
mod leaving;
mod pass;
mod phase;
mod recv_gets;
mod recv_leaving;
mod recv_pass;
mod recv_run;
mod run;

pub use pass::chunk;
pub use phase::Phase;
pub use recv_pass::chunk_recv;
