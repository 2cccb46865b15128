//! Answers cases of lexing and parsing: a JSON object on each line of standard input, and an answer on
//! a line of standard output.

#![tactic(auto)]

mod asks;
mod declared;
mod shown;

use crate::asks::Cases;
use anyhow::Result;
use check_rows::answer_rows;

fn main(rt: HostRuntime) -> Result<()> {
    answer_rows::<Cases>(&rt)
}
