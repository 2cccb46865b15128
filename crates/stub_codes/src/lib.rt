//! The stub code of each operation of a bound unit: the code that sends its requests, the code that receives them, and
//! the codes that send its replies, compiled once, and their runs. It serves every back end.
#![tactic(auto)]

mod arms;
mod backs;
mod bodies;
mod codes;
mod compile;
mod distinct;
mod earlier;
mod heads;
mod laws;
mod lowered;
mod read;
mod receive;
mod receiving;
mod replying;
mod same_node;
mod send;
mod sending;
mod stub;

pub use arms::arm_node;
pub use backs::encoding_of;
pub use codes::Codes;
pub use laws::{bodies_are_taken, replies_have_costs, requests_have_costs};
pub use stub::{Stub, Stubs};
