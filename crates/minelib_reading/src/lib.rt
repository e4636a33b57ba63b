//! The readers of the MineLib files, and theorems about them.
#![tactic(auto)]

mod block_reader;
mod counted;
mod fed_counts;
mod instance_reader;
mod kept;
pub mod laws;
mod marks;
pub mod model;
mod prec_reader;
mod taking;

pub use fed_counts::{count_arcs, count_blocks, count_model};
pub use instance_reader::{read_cpit, read_instance};
