//! The top call: a command of words, over the files of a shelf and the items of a source.
#![tactic(auto)]

mod answer;
mod answered;
mod command;
mod cutter;
mod dispatch;
mod file;
mod fronts;
mod items;
mod job;
mod laws;
mod numbers;
mod piped;
mod prepared;
mod report;
mod status;
mod top;
mod turns;

pub use laws::{
    bound_files_leave_engines, lines_are_cut, outputs_are_determined, outputs_are_whole,
    outputs_begin, streams_are_cut, words_have_tasks,
};
pub use top::flick;
