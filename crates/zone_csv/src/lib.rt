//! Zone files: a reader of the blocks that their rows state.
#![tactic(auto)]

mod cell;
mod columns;
pub mod laws;
mod row;
pub mod row_fault;
pub mod zone_reader;

pub use devices::feeds::{feed, file_feed, mem_feed, slice_feed, slurp};
