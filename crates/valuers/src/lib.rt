//! The valuers of a run, which return each row with its worths, and the end of each file.
#![tactic(auto)]

mod gate;
#[cfg(test)]
mod lane_tests;
mod valuer;
mod valuing;

pub use gate::{Gate, OpenGate};
pub use rows::{Item, Items, PackedItems, RowLists, Rows, Valued, Worths};
pub use valuer::{ValuerResult, value_all, value_packed};
pub use valuing::worths_of;
