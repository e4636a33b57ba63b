//! The command `check`, which reads the files of an instance and prints its counts.
#![tactic(auto)]

pub mod check;
mod counting;
pub mod counts;
pub mod laws;
