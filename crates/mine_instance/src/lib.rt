//! The instance of a model: its parts in order of identifier, and the rules of a valid instance.
#![tactic(auto)]

pub mod blocks;
mod building;
pub mod coefs;
pub mod cpit;
mod cpit_building;
pub mod instance;
pub mod laws;
pub mod limits;
mod rising;
mod validity;
pub mod values;

pub use building::{build, build_with};
pub use coefs::lazy::LazyCoefs;
pub use cpit_building::build_cpit;
pub use validity::is_valid;
pub use values::lazy::LazyValues;
