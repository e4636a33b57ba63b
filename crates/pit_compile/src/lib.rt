//! The run: many zone files, many valuers, one instance and its files.
#![tactic(auto)]

mod collecting;
mod compiling;
mod instance_building;
mod numbered;
mod read_answers;
mod running;
pub mod settings;
mod sink_writing;
pub mod sinks;

pub use compiling::{Compiled, compile, compile_with_starts};
pub use refusals::refusal;
pub use run_threads::Starts;
pub use running::{MAX_STARTS, run, run_limited, run_with_starts};
pub use sink_writing::write_texts;
