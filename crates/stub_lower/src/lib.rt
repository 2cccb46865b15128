//! From types to stub code: the code of each node of a table that sends, and the one that receives.
//!
//! What every encoding has in common is in `nodes`, what an encoding gives in `leaves`; the modules of
//! receiving have the same names with `recv_` before them, and the same order.
#![tactic(auto)]

mod leaves;
mod nodes;
mod ops;
mod recv_leaves;
mod recv_nodes;
mod recv_ops;
mod units;

pub use nodes::lower;
pub use recv_nodes::lower_recv;
