//! Feeds that give bytes and sinks that take a text, as files or bytes in memory. Reads a feed to its end, and writes a text in large
//! slices.
#![tactic(auto)]

pub mod count;
pub mod feeds;
pub mod files;
mod shown_bytes;
pub mod sinks;
