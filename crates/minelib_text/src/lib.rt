//! The MineLib texts of an instance: their writers and the sinks that take them, their readers, and what holds of both.
#![tactic(auto)]

pub mod laws;

pub use devices::sinks::{file_sink, mem_sink, section_sink, sink, write_fault};
pub use minelib_lines::text_name;
pub use minelib_reading::{read_cpit, read_instance};
pub use minelib_writing::{
    write_blocks, write_cpit, write_named, write_pcpsp, write_prec, write_upit,
};
pub use text_lines::text_fault;
