//! The lines of the MineLib files: the header keys, the values of each line, and lines and fields as bytes.
#![tactic(auto)]

pub mod header_key;
pub mod key_values;
pub mod problem;
pub mod text_name;
