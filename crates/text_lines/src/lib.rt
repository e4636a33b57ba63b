//! The lines and fields of a text, the numbers in fields, and the first invalid line.
#![tactic(auto)]

pub mod cut_lines;
pub mod fed_lines;
pub mod field_values;
pub mod line_by_line;
pub mod text_fault;
pub mod text_fields;
mod waiting;
