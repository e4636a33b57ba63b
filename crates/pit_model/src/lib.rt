//! The plan of an open pit mine, read from its text.
#![tactic(auto)]

mod band_cells;
mod cells;
mod draft;
mod grid_cells;
pub mod laws;
mod limit_cells;
mod named;
mod numbers;
pub mod plan_fault;
mod plan_key;
mod plan_reader;

pub use plan_parts::formulas::{band, destination, formula, worth};
pub use plan_parts::{block, cone, grid, limit, name, plan, ranges, resource};
pub use plan_reader::read_plan;
