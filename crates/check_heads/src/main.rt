//! Answers rows of message heads and of JSON records: a JSON object on each line of standard input, and an answer on a
//! line of standard output.

#![tactic(auto)]

mod answers;
mod faults;
mod giop;
mod interfaces;
mod mach;
mod records;
mod refusals;

use crate::answers::Rows;
use anyhow::Result;
use check_rows::answer_rows;

fn main(rt: HostRuntime) -> Result<()> {
    answer_rows::<Rows>(&rt)
}
