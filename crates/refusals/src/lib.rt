//! The errors of a run.
#![tactic(auto)]

pub mod refusal;
pub mod settings_fault;
