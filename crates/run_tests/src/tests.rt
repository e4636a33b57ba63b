//! Runs and commands on worked examples; and inputs, outputs, feeds and sinks that fail in ways that the built program's never do.

mod ending;
mod files;
pub mod headers;
mod input;
mod job;
mod lines;
pub mod models;
mod pieces;
mod runs;
pub mod watch;
