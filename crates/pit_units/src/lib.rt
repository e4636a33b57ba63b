//! Decimals: numbers counted in millionths, read from a text and written as their shortest text.
#![tactic(auto)]

mod decimal;
mod fault;
pub mod laws;
mod or_memory;
mod prefix;
mod reading;
pub mod scratch;
mod writing;

pub use decimal::{Dec, MILLIONTHS};
pub use fault::DecFault;
pub use or_memory::OrMemory;
pub use prefix::{leading_dec, leading_integer};
pub use reading::{after, parse_dec, parse_within, usual_dec};
pub use writing::put_dec;
