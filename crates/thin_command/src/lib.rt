//! The command of `pitc_thin`: from zone files to a reduced precedence file.
#![tactic(auto)]

pub mod counts;
pub mod thin;
mod thin_writing;
