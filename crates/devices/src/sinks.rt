//! Sinks, which take a text, and a writer of texts in large slices.

pub mod file_sink;
pub mod mem_sink;
pub mod section_sink;
pub mod single_write;
pub mod sink;
pub mod slices;
pub mod whole_text;
pub mod write_fault;
pub mod write_sink;
