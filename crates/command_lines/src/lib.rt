//! The command lines of `pitc` and `pitc_thin`, and the jobs that their arguments state.
#![tactic(auto)]

pub mod command_line;
pub mod job;
mod run_arguments;
pub mod stated_job;
mod stating;
pub mod thin_line;
