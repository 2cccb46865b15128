//! Answers cases of the layers below the top call: a JSON object on each line of standard input, and
//! an answer on a line of standard output.

#![tactic(auto)]

mod asks;
mod codes;
mod heads;
mod lead;
mod nodes;
mod numbered;
mod printed;
mod received;
mod swaps;
mod values;

use crate::asks::Cases;
use anyhow::Result;
use check_rows::answer_rows;

fn main(rt: HostRuntime) -> Result<()> {
    answer_rows::<Cases>(&rt)
}
