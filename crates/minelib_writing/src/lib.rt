//! Writes the MineLib files of an instance to sinks.
#![tactic(auto)]

mod fields;
mod files;
mod id_text;
mod keys;
pub mod laws;
mod lines;
mod lists_file;
mod parts;
mod sections;

pub use files::{write_blocks, write_cpit, write_named, write_pcpsp, write_prec, write_upit};
pub use lists_file::{count_arcs, write_lists};
