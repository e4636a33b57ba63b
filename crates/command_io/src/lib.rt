//! The edge of `pitc`: its arguments, streams and files, the files that it prints, error lines and exit statuses.
#![tactic(auto)]

pub mod arguments;
pub mod ending;
pub mod input;
pub mod laws;
pub mod pieces;
pub mod plan_file;
pub mod plan_text;
pub mod printing;
pub mod refused;
pub mod world;
pub mod write_all;
pub mod zone_feeds;
