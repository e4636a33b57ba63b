//! Model files: keys, header, lines, and a reader.

pub mod draft;
pub mod header;
pub mod items;
pub mod key;
pub mod key_lines;
pub mod limit_lines;
pub mod reader;
