//! Whether stub code that sends appends only octets that it has ensured: rooms for each residue of the position.
#![tactic(auto)]

mod covers;
mod covers_lap;
mod covers_leaves;
mod covers_plain;
mod covers_run;
mod covers_standing;
mod rooms;
mod turns;

pub use covers::covers_code;
