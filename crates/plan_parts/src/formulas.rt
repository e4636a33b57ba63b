//! The formulas of destinations, and the worths of blocks.

pub mod band;
pub mod destination;
pub mod formula;
pub mod worth;
