//! Blocks, the parts of a plan, the worths of blocks by its formulas, and the settings of a run.
#![tactic(auto)]

pub mod block;
pub mod cone;
pub mod formulas;
pub mod grid;
pub mod laws;
pub mod limit;
pub mod listed;
pub mod name;
pub mod plan;
pub mod ranges;
pub mod resource;
pub mod settings;
