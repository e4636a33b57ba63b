//! The commands of `pitc` that make a run, which are the pipe form and `compile`: each up to the printed text and the exit status.
#![tactic(auto)]

pub mod compile;
pub mod compile_at;
pub mod instance_files;
pub mod laws;
pub mod model;
pub mod pipe_form;
pub mod refusal_line;
pub mod task;
