//! Coefficients: a single one, groups with one block, and lists that store them or compute them lazily.

pub mod coef;
pub mod group;
pub mod lazy;
pub mod list;
