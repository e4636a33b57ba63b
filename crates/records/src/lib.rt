//! Texts of comma-separated cells, one record at a time, and the cells of a record.
#![tactic(auto)]

pub mod cells;
pub mod laws;
mod record_reader;

pub use record_reader::RecordReader;
